// What is wrong with a map text at the line that its reader refuses.
#![tactic(auto)]

ghost use Rattle.std.specs.Prelude.{◌≡◌};
ghost use Rattle.faults.specs.Faults.{from_line, said_in, line_fault, counted, cells_fault, row_fault, fault_of};

// What is wrong with a text at the line that is refused. TooLong and ByteOrderMark speak of the whole text, Missing of a text that ends before the line,
// TooMany of text after the last row, Form of a line that is not what its place asks. A letter that is no cell comes with its column, from 0, and its byte;
// a row that is too short or too long with the count of its cells and the width.
#[derive(Clone, Copy, Debug, PartialEq, Eq)]
pub enum Fault {
    TooLong,
    ByteOrderMark,
    Missing,
    CarriageReturn,
    NoNewline,
    Form,
    Letter(usize, u8),
    Short(usize, usize),
    Long(usize, usize),
    TooMany,
}

// The text s from a line on, the lines counted from 1: nothing where it has fewer.
fn from_line(s: &[u8], line: usize) -> &[u8]
    ensures { result.now ≡ from_line line s.now }
{
    let mut left = line;
    for (i, b) in s.iter().enumerate() {
        if left <= 1 {
            return &s[i..];
        }
        left -= usize::from(*b == b'\n');
    }
    &s[s.len()..]
}

// The number that a line of the text s says after its word, 0 where it says none.
fn said(s: &[u8], line: usize, word: &[u8]) -> usize
    ensures { result ≡ said_in word.now (from_line line s.now) }
{
    match lines::number_line(from_line(s, line), word, 1024) {
        Some((v, _)) => v as usize,
        None => 0,
    }
}

// What is wrong with the line that the text s begins with: a carriage return in it, no newline at its end, or else the other fault.
fn line_fault(s: &[u8], other: Fault) -> Fault
    ensures { result ≡ line_fault other s.now }
{
    for b in s {
        if *b == b'\n' {
            return other;
        }
        if *b == b'\r' {
            return Fault::CarriageReturn;
        }
    }
    Fault::NoNewline
}

// A row of k cells, where it is not w of them.
fn count_fault(k: usize, w: usize) -> Fault
    ensures { result ≡ counted w k }
{
    if k < w {
        Fault::Short(k, w)
    } else {
        Fault::Long(k, w)
    }
}

// What is wrong with the cells that the text s begins with: the first letter that is none, or how many they are.
fn cells_fault(s: &[u8], w: usize) -> Fault
    ensures { result ≡ cells_fault w 0 s.now }
{
    for (k, b) in s.iter().enumerate() {
        if *b == b'\n' {
            return count_fault(k, w);
        }
        if !rows::is_cell(*b) {
            return Fault::Letter(k, *b);
        }
    }
    count_fault(s.len(), w)
}

// What is wrong with the row that the text s begins with.
fn row_fault(s: &[u8], w: usize) -> Fault
    ensures { result ≡ row_fault w s.now }
{
    match s.strip_prefix(b"row=") {
        Some(cells) => cells_fault(cells, w),
        None => Fault::Form,
    }
}

// What is wrong with the text s at the line that its reader refused it with: the first bad or missing one from 1, or 0 where
// the text is too long.
pub fn fault_of(s: &[u8], line: usize) -> Fault
    ensures { result ≡ fault_of s.now line }
{
    if line == 0 {
        return Fault::TooLong;
    }
    if s.starts_with(b"\xEF\xBB\xBF") {
        return Fault::ByteOrderMark;
    }
    let rest = from_line(s, line);
    if rest.is_empty() {
        return Fault::Missing;
    }
    if line < 6 {
        return line_fault(rest, Fault::Form);
    }
    if said(s, 2, b"height=") <= line - 6 {
        return Fault::TooMany;
    }
    let w = said(s, 1, b"width=");
    line_fault(rest, row_fault(rest, w))
}
