// Expanding a cell and following one direction, which call each other: the remaining depth falls. Successors are offered to the search.
#![tactic(auto)]

ghost use Rattle.std.specs.Prelude.{◌≡◌, ◌+◌, ◌*◌, ◌^◌, ◌<◌, ◌≤◌, T, get_or};
ghost use Rattle.points.specs.Plane.{legal};
ghost use Rattle.goals.specs.Goals.{most_side};
ghost use Rattle.nodes.specs.Bound.{edge_of};
ghost use Rattle.offers.specs.Search.{Lent, Stays, out_of, view, area_of};
ghost use Rattle.jumps.specs.Jumps.{jump_of};
ghost use Rattle.expansion.specs.Expand.{tables, Floors, Ready, Backed, reached, deeper_at, expand_at, cell_of, leap_from};
ghost use Rattle.expansion.specs.Start.{yield_of};

use goals::Plan;
use looks::Scene;
use offers::Work;
use points::{Point, Refusal};
use stops::Cell;

mod start;

// Expands an inside cell that is reached from the point above at the cost base: its pruned directions in number order. Refuses SAME.
#[cycle(expand_follow)]
fn expand(
    blocked: &[u8],
    neighbours: &[u8],
    forced: &[u8],
    goals: &[i32],
    work: &mut Work<'_>,
    p: Plan,
    from: usize,
    above: Point,
    node: Cell,
    base: u64,
    depth: usize,
) -> Result<(), Refusal>
    requires { Ready (tables blocked.now neighbours.now forced.now goals.now) p from above node base depth work.old }
    ensures stays { Stays work.old work.new }
    ensures expanded { out_of result work.new ≡ expand_at (tables blocked.now neighbours.now forced.now goals.now) p from depth above node base (view work.old) }
{
    let here = node.spot();
    let Ok(heading) = headings::direction_between(above, here) else {
        return Err(Refusal::Same(above));
    };
    let travel = heading.way();
    let around = node.byte(neighbours, p.w);
    let mask = masks::pruned_mask(p.settings.diagonal, travel.number, around);
    let price = stops::price_of(travel.number);
    let mut e = successors::next_of(mask, 0);
    while e < 8 {
        follow(
            blocked, neighbours, forced, goals, work, p, from, above, node, e, base, price, depth,
        )?;
        e = successors::next_of(mask, e + 1);
    }
    Ok(())
}

// Follows direction e: what the jump finds is expanded again or offered. Refuses DEPTH.
#[cycle(expand_follow)]
fn follow(
    blocked: &[u8],
    neighbours: &[u8],
    forced: &[u8],
    goals: &[i32],
    work: &mut Work<'_>,
    p: Plan,
    from: usize,
    above: Point,
    node: Cell,
    e: u8,
    base: u64,
    price: u64,
    depth: usize,
) -> Result<(), Refusal>
    requires { Ready (tables blocked.now neighbours.now forced.now goals.now) p from above node base depth work.old × ((e < 8) × ((0 < price) × (price ≤ 99))) }
    ensures stays { Stays work.old work.new }
    ensures followed { out_of result work.new ≡ reached (tables blocked.now neighbours.now forced.now goals.now) p from (deeper_at (tables blocked.now neighbours.now forced.now goals.now) p from depth above) base e (view work.old) (jump_of blocked.now forced.now goals.now p e node price) }
{
    let scene = Scene {
        blocked,
        forced,
        goals,
        plan: &p,
    };
    let Some(jump) = jumps::jump_along(&scene, e, node, price) else {
        return Ok(());
    };
    let cost = base + jump.cost;
    if successors::again(forced, goals, p, e, jump.cell) {
        if depth == 0 {
            return Err(Refusal::Depth);
        }
        return expand(
            blocked,
            neighbours,
            forced,
            goals,
            work,
            p,
            from,
            above,
            jump.cell,
            cost,
            depth - 1,
        );
    }
    successors::give(goals, work, p, from, jump.cell, cost)
}

// The cell of a number.
fn cell_of(w: usize, cell: usize) -> Cell
    requires { (0 < w) × (cell ≤ most_side * most_side) }
    ensures { result ≡ cell_of w cell }
{
    Cell {
        x: cell % w + 1,
        y: cell / w + 1,
    }
}

// Expands a node whose parent is the node `up`.
fn leap(
    blocked: &[u8],
    neighbours: &[u8],
    forced: &[u8],
    goals: &[i32],
    work: &mut Work<'_>,
    p: Plan,
    from: usize,
    up: usize,
    k: u64,
) -> Result<(), Refusal>
    requires { Lent goals.now p work.old × (Floors (tables blocked.now neighbours.now forced.now goals.now) p × (T (legal p.start) × ((from < work.old.count) × ((up < work.old.count) × ((get_or work.old.place.now from 0 < area_of p) × (k + edge_of most_side p.settings.depth < 2 ^ 40)))))) }
    ensures stays { Stays work.old work.new }
    ensures expanded { out_of result work.new ≡ leap_from (tables blocked.now neighbours.now forced.now goals.now) p up from k (view work.old) }
{
    let above = offers::place_point(p, work.place[up] as usize);
    let node = cell_of(p.w, work.place[from] as usize);
    let depth = p.settings.depth;
    expand(
        blocked, neighbours, forced, goals, work, p, from, above, node, k, depth,
    )
}

// Expands a popped node: the start, which has no parent, yields its free neighbours; other cells yield jumps.
pub fn expand_node(
    blocked: &[u8],
    neighbours: &[u8],
    forced: &[u8],
    goals: &[i32],
    work: &mut Work<'_>,
    p: Plan,
    from: usize,
    k: u64,
) -> Result<(), Refusal>
    requires { Lent goals.now p work.old × (Floors (tables blocked.now neighbours.now forced.now goals.now) p × (T (legal p.start) × ((from < work.old.count) × ((0 < from → Backed p work.old from) × (k + edge_of most_side p.settings.depth < 2 ^ 40))))) }
    ensures stays { Stays work.old work.new }
    ensures expanded { out_of result work.new ≡ yield_of (tables blocked.now neighbours.now forced.now goals.now) p from k (view work.old) }
{
    let Some(up) = successors::parent_of(work, from) else {
        return start::spread(blocked, goals, work, p, from, k);
    };
    leap(blocked, neighbours, forced, goals, work, p, from, up, k)
}
