// Numbers and points of a text: the reader. A text is a slice of bytes; what was read of its front comes with the text after it.
#![tactic(auto)]

ghost use Rattle.std.specs.Prelude.{◌≤◌, ◌<◌, length, drop};
ghost use Rattle.text.specs.Grammar.{Reads, more_of, number_of, coord_of, pair_of};

use points::Point;

// The digits after the first one of the text s, whose value is first.
fn more(s: &[u8], limit: u32, first: u32) -> Option<(u32, &[u8])>
    requires { (0 < length s.now) × (limit ≤ 1024) × (first ≤ limit) }
    ensures { Reads s.now (more_of limit first 1 (drop 1 s.now)) result }
{
    let mut value = first;
    for i in 1..s.len() {
        let b = s[i];
        if !b.is_ascii_digit() {
            return Some((value, &s[i..]));
        }
        value = value * 10 + u32::from(b - b'0');
        if limit < value {
            return None;
        }
    }
    Some((value, &s[s.len()..]))
}

// A decimal number with no leading zero, at most limit.
pub fn number(s: &[u8], limit: u32) -> Option<(u32, &[u8])>
    requires { (9 ≤ limit) × (limit ≤ 1024) }
    ensures { Reads s.now (number_of limit s.now) result }
{
    let (&b, rest) = s.split_first()?;
    if b == b'0' {
        return Some((0, rest));
    }
    if !b.is_ascii_digit() {
        return None;
    }
    more(s, limit, u32::from(b - b'0'))
}

// A coordinate.
fn coordinate(s: &[u8]) -> Option<(i32, &[u8])>
    ensures { Reads s.now (coord_of s.now) result }
{
    let Some(digits) = s.strip_prefix(b"-") else {
        let (v, rest) = number(s, 1023)?;
        return Some((v as i32, rest));
    };
    let (v, rest) = number(digits, 1024)?;
    if v == 0 {
        return None;
    }
    Some((-(v as i32), rest))
}

// Two coordinates with a comma between them.
pub fn pair(s: &[u8]) -> Option<(Point, &[u8])>
    ensures { Reads s.now (pair_of s.now) result }
{
    let (x, rest) = coordinate(s)?;
    let (y, rest) = coordinate(rest.strip_prefix(b",")?)?;
    Some((Point { x, y }, rest))
}
