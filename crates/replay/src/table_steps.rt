// Blocks of runs of new, set, update and rebuild: all tables after every step, component numbers, masks and the four questions.
// Their form stands at the head of oracle/tools/src/bin/tables.rs.
ghost use Rattle.std.specs.Prelude.{◌≤◌};

use super::blocks::Unknown;
use super::tallies::{Place, Tally};
use super::{grids, tallies};
use grid::Grid;
use points::{Direction, Point, Refusal};

// What a step is: a call, the flag anew, or a grid that no calls made, which is the list's.
#[derive(Clone, Copy)]
enum Step {
    New,
    Set,
    Update,
    Rebuild,
    Flag,
    Given,
}

impl TryFrom<u8> for Step {
    type Error = Unknown;

    fn try_from(number: u8) -> Result<Step, Unknown> {
        match number {
            0 => Ok(Step::New),
            1 => Ok(Step::Set),
            2 => Ok(Step::Update),
            3 => Ok(Step::Rebuild),
            4 => Ok(Step::Flag),
            5 => Ok(Step::Given),
            _ => Err(Unknown),
        }
    }
}

// ---- the tables that the list tells

// What the changes start from: a new grid's tables, of which SIZE leaves one cell, or the tables before the step.
fn started(s: &[u8], before: Grid) -> Grid {
    let w = lists::u8_at(s, 1) as usize;
    let h = lists::u8_at(s, 2) as usize;
    match Step::try_from(lists::u8_at(s, 0)) {
        Ok(Step::New) if lists::u8_at(s, 4) == 1 => grids::blank(1, 1),
        Ok(Step::New | Step::Given) => grids::blank(w, h),
        _ => before,
    }
}

// The tables after a step: the changes, and the mark.
fn told(s: &[u8], before: Grid) -> Grid {
    let mut want = grids::with_changes(started(s, before), tallies::rest(s, 8));
    want.dirty = lists::u8_at(s, 5) == 1;
    want
}

// ---- the library's tables against them

// Whether the sides or the mark differ, and how many places of the tables' first n.
fn tables_unlike(a: &Grid, b: &Grid, n: usize) -> u64
    requires { n ≤ 4096 }
{
    u64::from((a.width, a.height, a.dirty) != (b.width, b.height, b.dirty))
        .wrapping_add(tallies::unlike(&a.blocked[..n], &b.blocked[..n]))
        .wrapping_add(tallies::unlike(&a.neighbours[..n], &b.neighbours[..n]))
        .wrapping_add(tallies::unlike(&a.forced[..n], &b.forced[..n]))
        .wrapping_add(tallies::unlike(&a.rank[..n], &b.rank[..n]))
        .wrapping_add(tallies::unlike(&a.parent[..n], &b.parent[..n]))
}

// ---- questions of cells

// A refusal as the list counts down from 65536: POINT, STATE, and any other.
fn refused_told(r: Refusal, p: Point) -> u64 {
    match tallies::number_of(r, p) {
        14 => 65535,
        2 => 65534,
        _ => 65533,
    }
}

// A component or a mask, or its refusal.
fn answer_told(answer: Result<u64, Refusal>, p: Point) -> u64 {
    answer.unwrap_or_else(|r| refused_told(r, p))
}

pub fn component_told(c: Result<usize, Refusal>, p: Point) -> u64 {
    answer_told(c.map(|n| n as u64), p)
}

// A mask against the one at a place of r, or against the refusal where the component's number is one.
fn mask_wrong(m: Result<u8, Refusal>, p: Point, number: u64, r: &[u8], at: usize) -> bool {
    let want = if number < 65534 {
        u64::from(lists::u8_at(r, at))
    } else {
        number
    };
    answer_told(m.map(u64::from), p) != want
}

// A question of ten bytes.
fn cell_wrong(g: Grid, diagonal: bool, r: &[u8]) -> bool {
    let p = tallies::point_at(r, 0);
    let number = u64::from(lists::u16_at(r, 4));
    let d = Direction {
        number: lists::u8_at(r, 8),
    };
    component_told(grid::get_component(g, p), p) != number
        || mask_wrong(grid::neighbour_mask(g, p), p, number, r, 6)
        || mask_wrong(grid::forced_mask(g, p), p, number, r, 7)
        || mask_wrong(grid::pruned_mask(g, diagonal, p, d), p, number, r, 9)
}

// ---- questions who can reach whom

// A bit of the answer, or the refusal: 254 for POINT with the start, 253 for POINT with the goal, 255 for STATE, 252 for any other.
fn verdict_told(v: Result<bool, Refusal>, bit: u8, start: Point, goal: Point) -> u8 {
    match v {
        Ok(true) => bit,
        Ok(false) => 0,
        Err(r) => match (tallies::number_of(r, start), tallies::number_of(r, goal)) {
            (14, _) => 254,
            (2, _) => 255,
            (_, 14) => 253,
            _ => 252,
        },
    }
}

// A bit of the answer against the one that the list has, or against the list's refusal.
fn verdict_wrong(v: Result<bool, Refusal>, bit: u8, bits: u8, start: Point, goal: Point) -> bool {
    let want = if 15 < bits { bits } else { bits & bit };
    verdict_told(v, bit, start, goal) != want
}

// A question of nine bytes.
fn reach_wrong(g: Grid, diagonal: bool, r: &[u8]) -> bool {
    let a = tallies::point_at(r, 0);
    let b = tallies::point_at(r, 4);
    let bits = lists::u8_at(r, 8);
    let near = grid::neighbours_reachable(g, diagonal, a, b);
    let far = grid::neighbours_unreachable(g, diagonal, a, b);
    verdict_wrong(grid::reachable(g, a, b), 1, bits, a, b)
        || verdict_wrong(grid::unreachable(g, a, b), 2, bits, a, b)
        || verdict_wrong(near, 4, bits, a, b)
        || verdict_wrong(far, 8, bits, a, b)
}

// ---- questions after a step

// The questions that s begins with: a count of two bytes, and then the questions, of this width. One is wrong by the test that is passed.
fn asked<F: Fn(&[u8]) -> bool>(place: Place, width: usize, s: &[u8], wrong: F) -> Tally
    requires width { width ≤ 10 }
    requires callable { F.IsAlwaysCallable wrong }
{
    let count = lists::u16_at(s, 0) as usize;
    let mut sum: u64 = 0;
    for k in 0..count {
        let differs = wrong(tallies::rest(s, 2 + width * k));
        sum = sum.wrapping_add(u64::from(differs));
    }
    Tally {
        place,
        count: count as u64,
        wrong: sum,
    }
}

// A step's questions of cells, after its changes.
fn after_changes<'a>(s: &'a [u8]) -> &'a [u8] {
    tallies::rest(s, 10 + 5 * lists::u16_at(s, 8) as usize)
}

// Its questions who can reach whom, after those of cells.
fn after_cells<'a>(cells: &'a [u8]) -> &'a [u8] {
    tallies::rest(cells, 2 + 10 * lists::u16_at(cells, 0) as usize)
}

// A step's questions of cells on the grid after it.
pub fn cells_asked(g: Grid, diagonal: bool, s: &[u8]) -> Tally {
    asked(
        Place::Cells,
        10,
        after_changes(s),
        |r| cell_wrong(g, diagonal, r),
    )
}

// A step's questions who can reach whom on the grid after it.
pub fn reaches_asked(g: Grid, diagonal: bool, s: &[u8]) -> Tally {
    asked(Place::Reaches, 9, after_cells(after_changes(s)), |r| {
        reach_wrong(g, diagonal, r)
    })
}

// ---- steps

// The call of a step on the grid, and how it came out. A grid that no calls made is the list's.
pub fn call(s: &[u8], g: &mut Grid, diagonal: bool) -> Result<(), Refusal> {
    match Step::try_from(lists::u8_at(s, 0)) {
        Ok(Step::New) => {
            let new = grid::new(lists::u8_at(s, 1) as usize, lists::u8_at(s, 2) as usize);
            *g = new.grid;
            new.outcome
        }
        Ok(Step::Set) => grids::edit(g, diagonal, tallies::rest(s, 1)),
        Ok(Step::Update) => grid::update(g, diagonal),
        Ok(Step::Rebuild) => grid::generate_components(g, diagonal),
        Ok(Step::Given) => {
            *g = told(s, *g);
            Ok(())
        }
        Ok(Step::Flag) | Err(_) => Ok(()),
    }
}

pub fn outcome_told(o: Result<(), Refusal>, p: Point) -> u8 {
    match o {
        Ok(()) => 0,
        Err(r) => tallies::number_of(r, p),
    }
}

// The flag from this step on: a new grid has diagonals.
pub fn turned(s: &[u8], diagonal: bool) -> bool {
    match Step::try_from(lists::u8_at(s, 0)) {
        Ok(Step::New | Step::Given) => true,
        Ok(Step::Flag) => lists::u8_at(s, 1) == 1,
        _ => diagonal,
    }
}

// The outcome of a step, and every table after it.
pub fn compare(s: &[u8], before: Grid, outcome: Result<(), Refusal>, after: Grid) -> Tally {
    let told_outcome = outcome_told(outcome, tallies::small_point(s, 1));
    let wrong = told_outcome != lists::u8_at(s, 4);
    let want = told(s, before);
    let n = tallies::count_at(s, 6, 4096);
    Tally::one(
        Place::Steps,
        tables_unlike(&after, &want, n).wrapping_add(u64::from(wrong)),
    )
}
