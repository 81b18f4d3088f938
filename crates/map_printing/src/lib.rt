// The map text: its writer. Each function writes at a place of a lent room.
#![tactic(auto)]

ghost use Rattle.std.specs.Prelude.{◌≡◌, ◌+◌, ◌*◌, ◌≤◌, length, map};
ghost use Rattle.std.proofs.lemmas.List.Edits.{sets};
ghost use Rattle.maps.specs.Maps.{Fair, most_text};
ghost use Rattle.map_printing.specs.Shown.{glyph_of, row_text, rows_text, map_text};

use maps::Header;
use printing::{put_number_line, put_point_line, put_word};

// `.` where a table has 0, else `#`.
fn glyph(b: u8) -> u8
    ensures { result ≡ glyph_of b }
{
    if b == 0 { b'.' } else { b'#' }
}

// The cells of a row.
fn put_cells(buf: &mut [u8], at: usize, cells: &[u8])
    requires { at + length cells.now ≤ length buf.old }
    ensures { buf.new ≡ sets buf.old at (map glyph_of cells.now) }
{
    for (i, b) in cells.iter().enumerate() {
        buf[at + i] = glyph(*b);
    }
}

// A row's line.
fn put_row(buf: &mut [u8], at: usize, cells: &[u8])
    requires { at + (length cells.now + 5) ≤ length buf.old }
    ensures { buf.new ≡ sets buf.old at (row_text (length cells.now) cells.now) }
{
    let from = put_word(buf, at, b"row=");
    put_cells(buf, from, cells);
    buf[from + cells.len()] = b'\n';
}

// The rows' lines.
fn put_rows(buf: &mut [u8], at: usize, blocked: &[u8], w: usize, h: usize) -> usize
    requires { (at + h * (w + 5) ≤ length buf.old) × (h * w ≤ length blocked.now) }
    ensures { (result ≡ at + h * (w + 5)) × (buf.new ≡ sets buf.old at (rows_text h w blocked.now)) }
{
    let mut end = at;
    for i in 0..h {
        let cell = i * w;
        put_row(buf, end, &blocked[cell..cell + w]);
        end += w + 5;
    }
    end
}

// The text of a map whose sides and points are in range, written from the first place on; how long it is.
pub fn put_map(buf: &mut [u8], m: Header, blocked: &[u8]) -> usize
    requires { Fair m × (most_text ≤ length buf.old) × (m.height * m.width ≤ length blocked.now) }
    ensures { (result ≡ length (map_text m blocked.now)) × (buf.new ≡ sets buf.old 0 (map_text m blocked.now)) }
{
    let w = m.width;
    let h = m.height;
    let a = put_number_line(buf, 0, b"width=", w as u32);
    let b = put_number_line(buf, a, b"height=", h as u32);
    let c = put_number_line(buf, b, b"diagonal=", u32::from(m.diagonal));
    let d = put_point_line(buf, c, b"start=", m.start);
    let e = put_point_line(buf, d, b"goal=", m.goal);
    put_rows(buf, e, blocked, w, h)
}
