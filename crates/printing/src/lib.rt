// Numbers, points and lines of text: the writer. Each function writes at a place and hands back the place after it.
#![tactic(auto)]

ghost use Rattle.std.specs.Prelude.{◌≡◌, ◌+◌, ◌≤◌, ◌<◌, T, length};
ghost use Rattle.std.proofs.lemmas.List.Edits.{sets};
ghost use Rattle.points.specs.Plane.{in_range, legal};
ghost use Rattle.printing.specs.Render.{digits_of, coord_text, number_text, point_text};

use points::Point;

// The decimal digits of a number.
fn put_number(buf: &mut [u8], at: usize, n: u32) -> usize
    requires { (n < 100000) × (at + 5 ≤ length buf.old) }
    ensures { (result ≡ at + length (digits_of n)) × (buf.new ≡ sets buf.old at (digits_of n)) }
{
    if n < 10 {
        buf[at] = n as u8 + b'0';
        return at + 1;
    }
    let end = put_number(buf, at, n / 10);
    buf[end] = (n % 10) as u8 + b'0';
    end + 1
}

// A coordinate, with a minus sign before a negative one.
fn put_coord(buf: &mut [u8], at: usize, z: i32) -> usize
    requires { T (in_range z) × (at + 6 ≤ length buf.old) }
    ensures { (result ≡ at + length (coord_text z)) × (buf.new ≡ sets buf.old at (coord_text z)) }
{
    if z < 0 {
        buf[at] = b'-';
        return put_number(buf, at + 1, z.unsigned_abs());
    }
    put_number(buf, at, z.unsigned_abs())
}

// A word as it stands.
pub fn put_word(buf: &mut [u8], at: usize, word: &[u8]) -> usize
    requires { at + length word.now ≤ length buf.old }
    ensures { (result ≡ at + length word.now) × (buf.new ≡ sets buf.old at word.now) }
{
    let end = at + word.len();
    buf[at..end].copy_from_slice(word);
    end
}

// A line: a word, a number, a newline.
pub fn put_number_line(buf: &mut [u8], at: usize, word: &[u8], n: u32) -> usize
    requires { (n < 100000) × (at + length word.now + 6 ≤ length buf.old) }
    ensures { (result ≡ at + length (number_text word.now n)) × (buf.new ≡ sets buf.old at (number_text word.now n)) }
{
    let a = put_word(buf, at, word);
    let b = put_number(buf, a, n);
    buf[b] = b'\n';
    b + 1
}

// A line: a word, two coordinates with a comma between them, a newline.
pub fn put_point_line(buf: &mut [u8], at: usize, word: &[u8], p: Point) -> usize
    requires { T (legal p) × (at + length word.now + 14 ≤ length buf.old) }
    ensures { (result ≡ at + length (point_text word.now p)) × (buf.new ≡ sets buf.old at (point_text word.now p)) }
{
    let a = put_word(buf, at, word);
    let b = put_coord(buf, a, p.x);
    buf[b] = b',';
    let c = put_coord(buf, b + 1, p.y);
    buf[c] = b'\n';
    c + 1
}
