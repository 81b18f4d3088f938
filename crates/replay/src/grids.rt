// Grids by calls, and grids by their tables.
ghost use Rattle.std.specs.Prelude.{◌<◌};

use super::tallies;
use grid::Grid;
use points::{Point, Refusal};

// What the tables are before the list tells them.
pub fn blank(width: usize, height: usize) -> Grid {
    let mut parent = [0u16; 4096];
    fills::fill_ident(&mut parent, 4096);
    Grid {
        width,
        height,
        dirty: false,
        blocked: [0; 4096],
        neighbours: [255; 4096],
        forced: [0; 4096],
        parent,
        rank: [0; 4096],
    }
}

// Sets one value of a table: 0 blocked, 1 neighbours, 2 forced, 3 parent, 4 rank. A table of bytes takes the lower byte.
fn put(g: &mut Grid, table: u8, cell: usize, value: u32) {
    let i = cell % 4096;
    let byte = (value % 256) as u8;
    match table {
        0 => g.blocked[i] = byte,
        1 => g.neighbours[i] = byte,
        2 => g.forced[i] = byte,
        3 => g.parent[i] = (value % 65536) as u16,
        _ => g.rank[i] = byte,
    }
}

// The kth cell of rows of this width.
fn cell_point(k: usize, width: usize) -> Point {
    if width == 0 {
        return Point { x: 0, y: 0 };
    }
    Point {
        x: (k % width % 65536) as i32,
        y: (k / width % 65536) as i32,
    }
}

// ---- records of a block: a count of two bytes, with which s begins, and then what each record is

// The grid with the cells set whose bits are 1, in turn.
fn with_bits(g: Grid, diagonal: bool, s: &[u8]) -> Grid {
    let count = lists::u16_at(s, 0) as usize;
    let mut out = g;
    for k in 0..count {
        if lists::u8_at(s, 2 + k / 8) >> ((k % 8) as u32) & 1 == 1 {
            let p = cell_point(k, out.width);
            let _ = grid::set(&mut out, diagonal, p, true);
        }
    }
    out
}

// A new grid, whose sides stand at 1 and 2, with the cells set whose bits stand from a place on.
pub fn blocked(s: &[u8], diagonal: bool, at: usize) -> Grid {
    let c = grid::new(lists::u8_at(s, 1) as usize, lists::u8_at(s, 2) as usize);
    with_bits(c.grid, diagonal, tallies::rest(s, at))
}

// An edit: the cell, and whether it is blocked, a byte each.
pub fn edit(g: &mut Grid, diagonal: bool, s: &[u8]) -> Result<(), Refusal> {
    grid::set(
        g,
        diagonal,
        tallies::small_point(s, 0),
        lists::u8_at(s, 2) == 1,
    )
}

// The grid after the edits.
pub fn with_edits(g: Grid, diagonal: bool, s: &[u8]) -> Grid {
    let mut out = g;
    for k in 0..lists::u16_at(s, 0) as usize {
        let _ = edit(&mut out, diagonal, tallies::rest(s, 2 + 3 * k));
    }
    out
}

// The grid after the changes: the table in a byte, the cell and the value in two bytes each.
pub fn with_changes(g: Grid, s: &[u8]) -> Grid {
    let mut out = g;
    for k in 0..lists::u16_at(s, 0) as usize {
        let r = tallies::rest(s, 2 + 5 * k);
        let cell = lists::u16_at(r, 1) as usize;
        put(&mut out, lists::u8_at(r, 0), cell, lists::u16_at(r, 3));
    }
    out
}

// The grid with every value of its first cells: six bytes to a cell, of which the parent has two.
pub fn with_values(g: Grid, s: &[u8]) -> Grid {
    let mut out = g;
    for cell in 0..tallies::count_at(s, 0, 4096) {
        let r = tallies::rest(s, 2 + 6 * cell);
        put(&mut out, 0, cell, lists::u16_at(r, 0));
        put(&mut out, 1, cell, lists::u16_at(r, 1));
        put(&mut out, 2, cell, lists::u16_at(r, 2));
        put(&mut out, 3, cell, lists::u16_at(r, 3));
        put(&mut out, 4, cell, lists::u16_at(r, 5));
    }
    out
}
