// The route check: the walk along a list of waypoints held against the cells.
#![tactic(auto)]

ghost use Rattle.std.specs.Prelude.{◌≡◌, ◌*◌, ◌≤◌, T, None, length};
ghost use Rattle.points.specs.Plane.{legal};
ghost use Rattle.cells.specs.Cells.{most_side};
ghost use Rattle.pairs.specs.Pairs.{Even, first_bad};
ghost use Rattle.headings.specs.Headings.{span_of};
ghost use Rattle.paths.specs.Walks.{walk_of};
ghost use Rattle.checks.specs.Checks.{free_at, all_free, clear_of, check_in, check_of};

use grid::Grid;
use points::{Point, Refusal};

// Whether a list is clear, and its first bent leg, if any, clear or not.
#[derive(Clone, Copy)]
pub struct Checked {
    pub clear: bool,
    pub bent: Option<usize>,
}

// Whether a point is inside and free.
fn free_at(blocked: &[u8], w: usize, h: usize, p: Point) -> bool
    requires { (w ≤ most_side) × (h ≤ most_side) × (w * h ≤ length blocked.now) }
    ensures { result ≡ free_at w h blocked.now p }
{
    let c = cells::cell_of(w, h, p);
    c < w * h && blocked[c] == 0
}

// Whether every point of the walk from p to q after p is inside and free. A point outside ends the walk, so it takes no more steps than the longer side has cells.
fn leg_clear(blocked: &[u8], w: usize, h: usize, p: Point, q: Point) -> bool
    requires { (w ≤ most_side) × (h ≤ most_side) × (w * h ≤ length blocked.now) × T (legal p) × T (legal q) }
    ensures { result ≡ all_free w h blocked.now (walk_of (span_of p q) p q) }
{
    let Ok(heading) = headings::direction_between(p, q) else {
        return true;
    };
    let mut here = p;
    for _ in 0..heading.steps() {
        here = paths::onward(heading, here, q);
        if !free_at(blocked, w, h, here) {
            return false;
        }
    }
    true
}

// Whether every point of the path after the first is inside and free, leg by leg.
fn clear(blocked: &[u8], w: usize, h: usize, list: &[i32]) -> bool
    requires { (w ≤ most_side) × (h ≤ most_side) × (w * h ≤ length blocked.now) × Even (length list.now) × (1 ≤ length list.now) × (first_bad list.now ≡ None) }
    ensures { result ≡ clear_of w h blocked.now list.now }
{
    let mut p = pairs::point_at(list, 0);
    for k in 1..list.len() / 2 {
        let q = pairs::point_at(list, 2 * k);
        if !leg_clear(blocked, w, h, p, q) {
            return false;
        }
        p = q;
    }
    true
}

// The route check on cells whose sides are known: clear exactly if every cell of the expanded walk after the first point is inside and free,
// and the first bent leg whether clear or not. Refuses LIST, POINT.
pub fn check_list(blocked: &[u8], w: usize, h: usize, list: &[i32]) -> Result<Checked, Refusal>
    requires { (w ≤ most_side) × (h ≤ most_side) × (w * h ≤ length blocked.now) }
    ensures { result ≡ check_in w h blocked.now list.now }
{
    pairs::checked(list)?;
    Ok(Checked {
        clear: clear(blocked, w, h, list),
        bent: legs::first_bent(list),
    })
}

// The route check on a grid. Refuses STATE, LIST, POINT.
pub fn check_route(g: Grid, list: &[i32]) -> Result<Checked, Refusal>
    ensures { result ≡ check_of g list.now }
{
    if !grid::legal(g) {
        return Err(Refusal::State);
    }
    // Copied alone: lent as `&g.blocked`, the whole grid would be copied.
    let blocked = g.blocked;
    check_list(&blocked, g.width, g.height, list)
}
