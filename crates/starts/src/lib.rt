// The start's free neighbours, and one of them offered. The start may be outside the grid.
#![tactic(auto)]

ghost use Rattle.std.specs.Prelude.{◌≡◌, not, ◌+◌, ◌%◌, ◌^◌, ◌<◌, T, eqb, length};
ghost use Rattle.points.specs.Plane.{legal};
ghost use Rattle.goals.specs.Goals.{both};
ghost use Rattle.offers.specs.Search.{Lent, Stays, out_of, view};
ghost use Rattle.stops.specs.Stops.{Sized};
ghost use Rattle.starts.specs.Start.{side_of, free_cell, neighbour_of, toward_of};

use goals::Plan;
use offers::Work;
use points::{Direction, Refusal};
use stops::Cell;

// One more than a column or row, and 0 before the first.
fn side_of(v: i32) -> usize
    ensures { result ≡ side_of v }
{
    if v < 0 {
        return 0;
    }
    v as usize + 1
}

// A cell by its number, if it is inside and free.
fn free_cell(blocked: &[u8], w: usize, h: usize, c: Cell) -> Option<usize>
    requires { Sized blocked.now w h }
    ensures { result ≡ free_cell blocked.now w h c.x c.y }
{
    if c.is_free(blocked, w, h) {
        Some(c.number(w))
    } else {
        None
    }
}

// Whether a direction is not used: a diagonal one, with diagonals off.
fn barred(diagonal: bool, d: u8) -> bool
    ensures { result ≡ both (eqb (d % 2) 1) (not diagonal) }
{
    d % 2 == 1 && !diagonal
}

// The start's free neighbour in direction d.
fn neighbour_at(blocked: &[u8], p: Plan, d: u8) -> Option<usize>
    requires { Sized blocked.now p.w p.h × T (legal p.start) }
    ensures { result ≡ neighbour_of blocked.now p d }
{
    if barred(p.settings.diagonal, d) {
        return None;
    }
    let at = p.start.stepped(Direction { number: d });
    let c = Cell {
        x: side_of(at.x),
        y: side_of(at.y),
    };
    free_cell(blocked, p.w, p.h, c)
}

// Offers the start's free neighbour in direction d at its own price.
pub fn toward(
    blocked: &[u8],
    goals: &[i32],
    work: &mut Work<'_>,
    p: Plan,
    from: usize,
    k: u64,
    d: u8,
) -> Result<(), Refusal>
    requires { Lent goals.now p work.old × (Sized blocked.now p.w p.h × (T (legal p.start) × ((from < length work.old.number.now) × (k + 99 < 2 ^ 40)))) }
    ensures stays { Stays work.old work.new }
    ensures offered { out_of result work.new ≡ toward_of blocked.now goals.now p from k d (view work.old) }
{
    let Some(cell) = neighbour_at(blocked, p, d) else {
        return Ok(());
    };
    let price = stops::price_of(d);
    let at = goals::point_of(p.w, cell);
    work.offer(goals, p, from, cell, at, k + price)
}
