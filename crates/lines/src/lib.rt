// Lines of a text: the reader. A line is a word, a number or a point, and a newline; what was read of it comes with the text after the line.
#![tactic(auto)]

ghost use Rattle.std.specs.Prelude.{◌≤◌};
ghost use Rattle.text.specs.Grammar.{Reads};
ghost use Rattle.lines.specs.Lines.{number_line, point_line};

use points::Point;

// A line: a word, a number of at most limit, a newline.
pub fn number_line<'a>(s: &'a [u8], word: &[u8], limit: u32) -> Option<(u32, &'a [u8])>
    requires { (9 ≤ limit) × (limit ≤ 1024) }
    ensures { Reads s.now (number_line word.now limit s.now) result }
{
    let (v, rest) = text::number(s.strip_prefix(word)?, limit)?;
    Some((v, rest.strip_prefix(b"\n")?))
}

// A line: a word, two coordinates, a newline.
pub fn point_line<'a>(s: &'a [u8], word: &[u8]) -> Option<(Point, &'a [u8])>
    ensures { Reads s.now (point_line word.now s.now) result }
{
    let (p, rest) = text::pair(s.strip_prefix(word)?)?;
    Some((p, rest.strip_prefix(b"\n")?))
}
