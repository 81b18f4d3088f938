// The map text: the reader of its header and of the whole, over a lent table of cells.
#![tactic(auto)]

ghost use Rattle.std.specs.Prelude.{◌≡◌, ◌*◌, ◌≤◌, length};
ghost use Rattle.cells.specs.Cells.{most_side};
ghost use Rattle.text.specs.Grammar.{Reads};
ghost use Rattle.maps.specs.Maps.{size_line, flag_line, ReadsHead, head_of, map_of, cells_into};

use points::Point;
use rows::BadLine;

// The most bytes of a map text.
pub const TEXT: usize = 8192;

// What the lines before the rows say.
#[derive(Clone, Copy)]
pub struct Header {
    pub width: usize,
    pub height: usize,
    pub diagonal: bool,
    pub start: Point,
    pub goal: Point,
}

// A line with a side.
fn size_line<'a>(s: &'a [u8], word: &[u8]) -> Option<(usize, &'a [u8])>
    ensures { Reads s.now (size_line word.now s.now) result }
{
    let (v, rest) = lines::number_line(s, word, 1024)?;
    let side = v as usize;
    if !cells::sized(side, 1) {
        return None;
    }
    Some((side, rest))
}

// A line with 0 or 1.
fn flag_line<'a>(s: &'a [u8], word: &[u8]) -> Option<(u32, &'a [u8])>
    ensures { Reads s.now (flag_line word.now s.now) result }
{
    let (v, rest) = lines::number_line(s, word, 9)?;
    if 1 < v {
        return None;
    }
    Some((v, rest))
}

// The lines before the rows.
fn read_head(s: &[u8]) -> Result<(Header, &[u8]), BadLine>
    ensures { ReadsHead s.now (head_of s.now) result }
{
    let (width, s) = size_line(s, b"width=").ok_or(BadLine { line: 1 })?;
    let (height, s) = size_line(s, b"height=").ok_or(BadLine { line: 2 })?;
    let (flag, s) = flag_line(s, b"diagonal=").ok_or(BadLine { line: 3 })?;
    let (start, s) = lines::point_line(s, b"start=").ok_or(BadLine { line: 4 })?;
    let (goal, s) = lines::point_line(s, b"goal=").ok_or(BadLine { line: 5 })?;
    let header = Header {
        width,
        height,
        diagonal: flag == 1,
        start,
        goal,
    };
    Ok((header, s))
}

// The map of a text, with its cells in a lent table, or the first bad or missing line, 0 if too long.
pub fn read(s: &[u8], blocked: &mut [u8]) -> Result<Header, BadLine>
    requires { most_side * most_side ≤ length blocked.old }
    ensures { (result ≡ map_of s.now) × (blocked.new ≡ cells_into s.now blocked.old) }
{
    if TEXT < s.len() {
        return Err(BadLine { line: 0 });
    }
    let (m, rest) = read_head(s)?;
    rows::read_rows(rest, m.width, m.height, blocked)?;
    Ok(m)
}
