// The public calls on a grid: by value, or lent where they change it. Every grid value is legal input: each call tests what it rests on, and a refusal leaves a lent grid as it was.
// A call that lends tables of a grid by value copies those tables alone first: lent as `&g.parent`, the whole grid would be copied.
#![tactic(auto)]

ghost use Rattle.std.specs.Prelude.{◌≡◌, ◌*◌, ◌<◌, OnOk, IfOk};
ghost use Rattle.cells.specs.Cells.{Sides};
ghost use Rattle.grid.specs.Grids.{Fits, legal_of, cell_in, stated_of, located_of, asked_of, new_grid, rebuild_grid, new_outcome, set_outcome, rebuild_outcome, update_outcome};
ghost use Rattle.grid.specs.Questions.{component_at, neighbour_mask_at, forced_mask_at, pruned_mask_at, reachable_from, unreachable_from, neighbours_reachable_from, neighbours_unreachable_from};

use cells::{Size, Spot};
use points::{Direction, Point, Refusal};

// The cell (x, y) has the number y * width + x in each table. A blocked byte is 0 where the cell is free.
#[derive(Clone, Copy)]
pub struct Grid {
    pub width: usize,
    pub height: usize,
    pub dirty: bool,
    pub blocked: [u8; 4096],
    pub neighbours: [u8; 4096],
    pub forced: [u8; 4096],
    pub parent: [u16; 4096],
    pub rank: [u8; 4096],
}

// What a call that changes a grid answers: the grid afterwards, the same one where it is refused.
#[derive(Clone, Copy)]
pub struct Change {
    pub outcome: Result<(), Refusal>,
    pub grid: Grid,
}

// Whether a grid value is legal: STATE is refused exactly where it is not.
pub fn legal(g: Grid) -> bool
    ensures { result ≡ legal_of g }
{
    if cells::sized(g.width, g.height) {
        let parent = g.parent;
        let rank = g.rank;
        states::state_ok(&parent, &rank, g.width * g.height)
    } else {
        false
    }
}

// STATE.
fn stated(g: Grid) -> Result<(), Refusal>
    ensures is { result ≡ stated_of g }
    ensures fits { OnOk result (Fits g) }
{
    if legal(g) {
        Ok(())
    } else {
        Err(Refusal::State)
    }
}

// The number of the cell at a point: STATE, then POINT for a point that is no cell of the grid.
fn located(g: Grid, p: Point) -> Result<usize, Refusal>
    ensures is { result ≡ located_of g p }
    ensures fits { IfOk result (λ i. Fits g × ((i < g.width * g.height) × (i ≡ cell_in g p))) }
{
    stated(g)?;
    let i = cells::cell_of(g.width, g.height, p);
    if i < g.width * g.height {
        Ok(i)
    } else {
        Err(Refusal::BadPoint(p))
    }
}

// The numbers of the start's cell and the goal's, width * height for one outside: STATE, then POINT for coordinates out of range, the start's first.
fn asked(g: Grid, start: Point, goal: Point) -> Result<(usize, usize), Refusal>
    ensures is { result ≡ asked_of g start goal }
    ensures fits { IfOk result (λ q. Fits g × ((q.0 ≡ cell_in g start) × (q.1 ≡ cell_in g goal))) }
{
    stated(g)?;
    if !start.legal() {
        return Err(Refusal::BadPoint(start));
    }
    if !goal.legal() {
        return Err(Refusal::BadPoint(goal));
    }
    let a = cells::cell_of(g.width, g.height, start);
    let c = cells::cell_of(g.width, g.height, goal);
    Ok((a, c))
}

fn made(width: usize, height: usize) -> Grid
    requires { Sides width height }
    ensures { result ≡ new_grid width height }
{
    let mut g = Grid {
        width,
        height,
        dirty: false,
        blocked: [0; 4096],
        neighbours: [0; 4096],
        forced: [0; 4096],
        parent: [0; 4096],
        rank: [0; 4096],
    };
    let size = Size {
        w: width,
        h: height,
    };
    tables::new(
        size,
        &mut g.blocked,
        &mut g.neighbours,
        &mut g.forced,
        &mut g.parent,
        &mut g.rank,
    );
    g
}

// A new grid: all free, each cell its own component, not dirty. Refuses SIZE, with a new grid of 1 by 1.
pub fn new(width: usize, height: usize) -> Change
    ensures { result ≡ new_outcome width height }
{
    if !cells::sized(width, height) {
        return Change {
            outcome: Err(Refusal::Size),
            grid: made(1, 1),
        };
    }
    Change {
        outcome: Ok(()),
        grid: made(width, height),
    }
}

// Blocks or frees a cell. Refuses STATE, then POINT.
pub fn set(g: &mut Grid, diagonal: bool, p: Point, b: bool) -> Result<(), Refusal>
    ensures { record { outcome = result; grid = g.new } ≡ set_outcome g.old diagonal p b }
{
    located(*g, p)?;
    let x = cells::place(p.x, g.width);
    let y = cells::place(p.y, g.height);
    let at = Spot {
        w: g.width,
        h: g.height,
        x,
        y,
    };
    g.dirty = tables::edit(
        at,
        diagonal,
        g.dirty,
        &mut g.blocked,
        &mut g.neighbours,
        &mut g.forced,
        &mut g.parent,
        &mut g.rank,
        b,
    );
    Ok(())
}

fn rebuild(g: &mut Grid, diagonal: bool)
    requires { Sides g.old.width g.old.height }
    ensures { g.new ≡ rebuild_grid g.old diagonal }
{
    let size = Size {
        w: g.width,
        h: g.height,
    };
    rebuilds::rebuild(size, diagonal, &g.blocked, &mut g.parent, &mut g.rank);
    g.dirty = false;
}

// The components anew from the blocked cells alone; the dirty mark is cleared. Refuses STATE.
pub fn generate_components(g: &mut Grid, diagonal: bool) -> Result<(), Refusal>
    ensures { record { outcome = result; grid = g.new } ≡ rebuild_outcome g.old diagonal }
{
    stated(*g)?;
    rebuild(g, diagonal);
    Ok(())
}

// `generate_components` where the grid is dirty. Refuses STATE.
pub fn update(g: &mut Grid, diagonal: bool) -> Result<(), Refusal>
    ensures { record { outcome = result; grid = g.new } ≡ update_outcome g.old diagonal }
{
    stated(*g)?;
    if g.dirty {
        rebuild(g, diagonal);
    }
    Ok(())
}

// The component that a cell belongs to, as the Rust numbers it. Refuses STATE, then POINT.
pub fn get_component(g: Grid, p: Point) -> Result<usize, Refusal>
    ensures { result ≡ component_at g p }
{
    let i = located(g, p)?;
    let parent = g.parent;
    let rank = g.rank;
    Ok(components::find(&parent, &rank, g.width * g.height, i))
}

// Which neighbours of a cell are inside and free, a bit for each direction. Refuses STATE, then POINT.
pub fn neighbour_mask(g: Grid, p: Point) -> Result<u8, Refusal>
    ensures { result ≡ neighbour_mask_at g p }
{
    let i = located(g, p)?;
    Ok(g.neighbours[i])
}

// A cell's forced directions. Refuses STATE, then POINT.
pub fn forced_mask(g: Grid, p: Point) -> Result<u8, Refusal>
    ensures { result ≡ forced_mask_at g p }
{
    let i = located(g, p)?;
    Ok(g.forced[i])
}

// The directions that a search follows from a cell, having come to it in direction d. Refuses STATE, then POINT.
pub fn pruned_mask(g: Grid, diagonal: bool, p: Point, d: Direction) -> Result<u8, Refusal>
    ensures { result ≡ pruned_mask_at g diagonal p d.number }
{
    let m = neighbour_mask(g, p)?;
    Ok(masks::pruned_mask(diagonal, d.number, m))
}

// Whether two points share a component: no where one is outside. Refuses STATE, then POINT.
pub fn reachable(g: Grid, start: Point, goal: Point) -> Result<bool, Refusal>
    ensures { result ≡ reachable_from g start goal }
{
    let (a, c) = asked(g, start, goal)?;
    let n = g.width * g.height;
    let parent = g.parent;
    let rank = g.rank;
    Ok(questions::reachable(&parent, &rank, n, a, c))
}

// Whether they do not: yes where one is outside. Refuses STATE, then POINT.
pub fn unreachable(g: Grid, start: Point, goal: Point) -> Result<bool, Refusal>
    ensures { result ≡ unreachable_from g start goal }
{
    let yes = reachable(g, start, goal)?;
    Ok(!yes)
}

// Whether some inside neighbour of the goal shares the start's component: yes where one is outside. Refuses STATE, then POINT.
pub fn neighbours_reachable(
    g: Grid,
    diagonal: bool,
    start: Point,
    goal: Point,
) -> Result<bool, Refusal>
    ensures { result ≡ neighbours_reachable_from g diagonal start goal }
{
    let (a, c) = asked(g, start, goal)?;
    let parent = g.parent;
    let rank = g.rank;
    let yes = questions::neighbours_reachable(g.width, g.height, diagonal, &parent, &rank, a, c);
    Ok(yes)
}

// Whether none does: yes, too, where one is outside. Refuses STATE, then POINT.
pub fn neighbours_unreachable(
    g: Grid,
    diagonal: bool,
    start: Point,
    goal: Point,
) -> Result<bool, Refusal>
    ensures { result ≡ neighbours_unreachable_from g diagonal start goal }
{
    let (a, c) = asked(g, start, goal)?;
    let parent = g.parent;
    let rank = g.rank;
    let yes = questions::neighbours_unreachable(g.width, g.height, diagonal, &parent, &rank, a, c);
    Ok(yes)
}
