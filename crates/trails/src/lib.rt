// The waypoints of a search: the recorded parents from the popped goal back to the start, written in the order from the start.
#![tactic(auto)]

ghost use Rattle.std.specs.Prelude.{◌≡◌, [], ◌+◌, ◌*◌, ◌<◌, ◌≤◌, length, get_or, set};
ghost use Rattle.std.proofs.lemmas.List.Edits.{sets};
ghost use Rattle.trails.specs.Trail.{Climbs, Located, Tall, route_of, pairs, wrote_of, left_in};

use goals::Plan;
use points::{Point, Refusal};

// Writes point number j.
fn put(out: &mut [i32], j: usize, q: Point)
    requires { 2 * j + 1 < length out.old }
    ensures { out.new ≡ set (set out.old (2 * j) q.x) (2 * j + 1) q.y }
{
    out[2 * j] = q.x;
    out[2 * j + 1] = q.y;
}

// How many nodes there are from one back to the start.
fn steps(parent: &[u32], cost: &[u64], count: usize, at: usize) -> usize
    requires { Climbs parent.now cost.now count × Tall cost.now count at }
    ensures { (result ≡ length (route_of parent.now (get_or cost.now at 0) at [])) × (1 ≤ result) }
{
    let mut n = 1;
    let mut i = at;
    while 0 < i {
        i = parent[i] as usize;
        n += 1;
    }
    n
}

// Writes n points, the last one first.
fn write(
    place: &[u32],
    parent: &[u32],
    cost: &[u64],
    p: Plan,
    count: usize,
    at: usize,
    n: usize,
    out: &mut [i32],
)
    requires { Located p place.now count × (Climbs parent.now cost.now count × (Tall cost.now count at × ((1 ≤ n) × ((2 * n ≤ length out.old) × (n ≡ length (route_of parent.now (get_or cost.now at 0) at [])))))) }
    ensures { out.new ≡ sets out.old 0 (pairs p place.now (route_of parent.now (get_or cost.now at 0) at [])) }
{
    let mut i = at;
    for j in (1..n).rev() {
        let q = offers::place_point(p, place[i] as usize);
        put(out, j, q);
        i = parent[i] as usize;
    }
    put(out, 0, offers::place_point(p, place[0] as usize));
}

// Writes the waypoints from the start to node `at` as pairs, and answers how many, or ROOM where the output cannot hold them all; the rest of it is kept.
pub fn write_route(
    place: &[u32],
    parent: &[u32],
    cost: &[u64],
    p: Plan,
    count: usize,
    at: usize,
    out: &mut [i32],
) -> Result<usize, Refusal>
    requires { Located p place.now count × (Climbs parent.now cost.now count × Tall cost.now count at) }
    ensures { (result ≡ wrote_of (length out.old) (route_of parent.now (get_or cost.now at 0) at [])) × (out.new ≡ left_in out.old p place.now (route_of parent.now (get_or cost.now at 0) at [])) }
{
    let n = steps(parent, cost, count, at);
    if out.len() / 2 < n {
        return Err(Refusal::Room);
    }
    write(place, parent, cost, p, count, at, n, out);
    Ok(n)
}
