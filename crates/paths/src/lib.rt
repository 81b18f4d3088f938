// Waypoints walked into a path.
#![tactic(auto)]

ghost use Rattle.std.specs.Prelude.{◌≡◌, ◌+◌, ◌*◌, ◌≤◌, T, None, length};
ghost use Rattle.std.proofs.lemmas.List.Edits.{sets};
ghost use Rattle.points.specs.Plane.{in_range, legal};
ghost use Rattle.headings.specs.Headings.{span_of};
ghost use Rattle.pairs.specs.Pairs.{Even, first_bad};
ghost use Rattle.paths.specs.Walks.{closer_to, next_to, onward_to, walk_of, path_of, counted_of, path_answer, path_kept};

use bends::Heading;
use points::{Point, Refusal};
use std::cmp::Ordering;

// One step of the sign of b - a.
fn closer(a: i32, b: i32) -> i32
    requires { T (in_range a) × T (in_range b) }
    ensures { (result ≡ closer_to a b) × T (in_range result) }
{
    match points::sign_between(a, b) {
        Ordering::Less => a - 1,
        Ordering::Equal => a,
        Ordering::Greater => a + 1,
    }
}

// One step from p towards q, by the sign of each difference.
fn next(p: Point, q: Point) -> Point
    requires { T (legal p) × T (legal q) }
    ensures { result ≡ next_to p q }
{
    Point {
        x: closer(p.x, q.x),
        y: closer(p.y, q.y),
    }
}

// One step on from `here`, a point of a leg to q with this heading: a straight leg repeats the step of its direction, a bent one steps by sign.
pub fn onward(heading: Heading, here: Point, q: Point) -> Point
    requires { T (legal here) × T (legal q) }
    ensures { result ≡ onward_to heading here q }
{
    match heading {
        Heading::Straight(d, _) => here.stepped(d),
        Heading::Bent(_, _) => next(here, q),
    }
}

// The steps from p to q, written at a place; the place after them.
fn put_walk(out: &mut [i32], at: usize, p: Point, q: Point) -> usize
    requires { T (legal p) × T (legal q) × (at + 2 * span_of p q ≤ length out.old) }
    ensures { (result ≡ at + 2 * span_of p q) × (out.new ≡ sets out.old at (walk_of (span_of p q) p q)) }
{
    let Ok(heading) = headings::direction_between(p, q) else {
        return at;
    };
    let steps = heading.steps();
    let mut here = p;
    for i in 0..steps {
        here = onward(heading, here, q);
        pairs::put(out, at + 2 * i, here);
    }
    at + 2 * steps
}

// How many steps lead from p to q; none to the point itself.
fn steps_between(p: Point, q: Point) -> usize
    requires { T (legal p) × T (legal q) }
    ensures { result ≡ span_of p q }
{
    match headings::direction_between(p, q) {
        Ok(heading) => heading.steps(),
        Err(_) => 0,
    }
}

// How many points the path has, if the room holds them.
fn count(list: &[i32], room: usize) -> Option<usize>
    requires { Even (length list.now) × (1 ≤ length list.now) × (first_bad list.now ≡ None) }
    ensures { result ≡ counted_of list.now room }
{
    let mut left = room.checked_sub(1)?;
    let mut p = pairs::point_at(list, 0);
    for k in 1..list.len() / 2 {
        let q = pairs::point_at(list, 2 * k);
        left = left.checked_sub(steps_between(p, q))?;
        p = q;
    }
    Some(room - left)
}

// The path, written from the first place on.
fn put_path(list: &[i32], out: &mut [i32])
    requires { Even (length list.now) × (1 ≤ length list.now) × (first_bad list.now ≡ None) × (length (path_of list.now) ≤ length out.old) }
    ensures { out.new ≡ sets out.old 0 (path_of list.now) }
{
    let mut p = pairs::point_at(list, 0);
    pairs::put(out, 0, p);
    let mut at = 2;
    for k in 1..list.len() / 2 {
        let q = pairs::point_at(list, 2 * k);
        at = put_walk(out, at, p, q);
        p = q;
    }
}

// The path that steps by sign from waypoint to waypoint; it does not look at a grid. Refuses LIST, POINT, ROOM; then nothing is written.
pub fn waypoints_to_path(list: &[i32], out: &mut [i32]) -> Result<usize, Refusal>
    ensures { (result ≡ path_answer list.now (length out.old)) × (out.new ≡ path_kept result list.now out.old) }
{
    pairs::checked(list)?;
    let n = count(list, out.len() / 2).ok_or(Refusal::Room)?;
    put_path(list, out);
    Ok(n)
}
