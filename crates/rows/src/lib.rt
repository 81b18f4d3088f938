// The rows of a map text: their reader, over a lent table of cells.
#![tactic(auto)]

ghost use Rattle.std.specs.Prelude.{◌≡◌, ◌+◌, ◌*◌, ◌≤◌, length, drop, map};
ghost use Rattle.std.specs.List.{list_all};
ghost use Rattle.std.proofs.lemmas.List.Edits.{sets};
ghost use Rattle.cells.specs.Cells.{most_side};
ghost use Rattle.rows.specs.Rows.{is_cell, mark_of, ReadsRow, rows_of, cells_of};

// The number of the first bad line.
#[derive(Clone, Copy, Debug, PartialEq, Eq)]
pub struct BadLine {
    pub line: usize,
}

// Whether a byte is a cell.
pub fn is_cell(b: u8) -> bool
    ensures { result ≡ is_cell b }
{
    b == b'.' || b == b'#'
}

// What a table holds of a cell: 1 where it is blocked.
fn mark(b: u8) -> u8
    ensures { result ≡ mark_of b }
{
    u8::from(b == b'#')
}

// Whether all bytes are cells.
fn are_cells(s: &[u8]) -> bool
    ensures { result ≡ list_all is_cell s.now }
{
    s.iter().all(|b| is_cell(*b))
}

// The w cells of the row that the text s begins with, and the text after the row.
fn row(s: &[u8], w: usize) -> Option<(&[u8], &[u8])>
    ensures { ReadsRow w s.now result }
{
    let (cells, rest) = s.strip_prefix(b"row=")?.split_at_checked(w)?;
    if !are_cells(cells) {
        return None;
    }
    Some((cells, rest.strip_prefix(b"\n")?))
}

// The marks of a row's cells, written from a place of the table on.
fn fill_row(cells: &[u8], blocked: &mut [u8], from: usize)
    requires { from + length cells.now ≤ length blocked.old }
    ensures { blocked.new ≡ sets blocked.old from (map mark_of cells.now) }
{
    for (i, b) in cells.iter().enumerate() {
        blocked[from + i] = mark(*b);
    }
}

// The rows, and nothing after them: the cells of the rows before the first bad line are written.
pub fn read_rows(s: &[u8], w: usize, h: usize, blocked: &mut [u8]) -> Result<(), BadLine>
    requires { (h ≤ most_side) × (h * w ≤ length blocked.old) }
    ensures { (result ≡ rows_of h w 6 s.now) × (blocked.new ≡ sets blocked.old 0 (cells_of h w s.now)) }
{
    let mut rest = s;
    for i in 0..h {
        let Some((cells, after)) = row(rest, w) else {
            return Err(BadLine { line: 6 + i });
        };
        fill_row(cells, blocked, i * w);
        rest = after;
    }
    if !rest.is_empty() {
        return Err(BadLine { line: 6 + h });
    }
    Ok(())
}
