// Map texts as grids by value.
#![tactic(auto)]

ghost use Rattle.std.specs.Prelude.{◌≡◌, length};
ghost use Rattle.cells.specs.Cells.{Sides};
ghost use Rattle.floors.specs.Floors.{floor_grid, refused_map, read_of, shown_of, put_of, put_into};

use cells::Size;
use grid::Grid;
use maps::Header;
use points::{Point, Refusal};

// A map that was read: the grid, whose components are yet to be rebuilt, and what else the text says.
// A refused text comes with a new free grid of 1 by 1.
#[derive(Clone, Copy)]
pub struct MapRead {
    pub outcome: Result<(), Refusal>,
    pub grid: Grid,
    pub diagonal: bool,
    pub start: Point,
    pub goal: Point,
}

// The grid of a floor's cells: their masks, each cell its own component, marked dirty.
fn floor(w: usize, h: usize, blocked: [u8; 4096]) -> Grid
    requires { Sides w h }
    ensures { result ≡ floor_grid w h blocked }
{
    let n = w * h;
    let mut neighbours = [0u8; 4096];
    fills::fill_masks(Size { w, h }, &blocked, &mut neighbours);
    let mut forced = [0u8; 4096];
    fills::fill_forced(&neighbours, &mut forced, n);
    let mut parent = [0u16; 4096];
    fills::fill_ident(&mut parent, n);
    let rank = [0u8; 4096];
    Grid {
        width: w,
        height: h,
        dirty: true,
        blocked,
        neighbours,
        forced,
        parent,
        rank,
    }
}

// What comes with a refused text.
fn refused(line: usize) -> MapRead
    ensures { result ≡ refused_map line }
{
    let origin = Point { x: 0, y: 0 };
    MapRead {
        outcome: Err(Refusal::Map(line)),
        grid: grid::new(1, 1).grid,
        diagonal: true,
        start: origin,
        goal: origin,
    }
}

// The map of a text. Refuses MAP with the first bad or missing line, 0 if too long.
pub fn read_map(text: &[u8]) -> MapRead
    ensures { result ≡ read_of text.now }
{
    let mut blocked = [0u8; 4096];
    match maps::read(text, &mut blocked) {
        Err(bad) => refused(bad.line),
        Ok(m) => MapRead {
            outcome: Ok(()),
            grid: floor(m.width, m.height, blocked),
            diagonal: m.diagonal,
            start: m.start,
            goal: m.goal,
        },
    }
}

// Writes a grid's cells with an order to route as a map text, and answers how many bytes it is; the rest of the room is kept.
// Refuses STATE, POINT (start, then goal), and ROOM where the longest map text would not fit; then nothing is written.
pub fn write_map(
    buf: &mut [u8],
    g: Grid,
    diagonal: bool,
    start: Point,
    goal: Point,
) -> Result<usize, Refusal>
    ensures { (result ≡ put_of (length buf.old) g diagonal start goal) × (buf.new ≡ put_into result (shown_of g diagonal start goal) buf.old) }
{
    if !grid::legal(g) {
        return Err(Refusal::State);
    }
    if !start.legal() {
        return Err(Refusal::BadPoint(start));
    }
    if !goal.legal() {
        return Err(Refusal::BadPoint(goal));
    }
    if buf.len() < maps::TEXT {
        return Err(Refusal::Room);
    }
    let m = Header {
        width: g.width,
        height: g.height,
        diagonal,
        start,
        goal,
    };
    // Copied alone: lent as `&g.blocked`, the whole grid would be copied.
    let blocked = g.blocked;
    Ok(map_printing::put_map(buf, m, &blocked))
}
