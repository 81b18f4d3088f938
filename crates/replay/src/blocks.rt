// The blocks of the list, and what is printed.
ghost use Rattle.std.specs.Prelude.{◌<◌, ◌≤◌, length, IfSome};

use std::io;
use std::io::Read;

// What a block is of, by the program of oracle/tools that printed it.
#[derive(Clone, Copy)]
pub enum Kind {
    Ground,
    Tables,
    Searches,
    Paths,
    Checks,
    Texts,
}

// A number that no kind has.
#[derive(Drop)]
pub struct Unknown;

impl TryFrom<u8> for Kind {
    type Error = Unknown;

    fn try_from(number: u8) -> Result<Kind, Unknown> {
        match number {
            1 => Ok(Kind::Ground),
            2 => Ok(Kind::Tables),
            3 => Ok(Kind::Searches),
            4 => Ok(Kind::Paths),
            5 => Ok(Kind::Checks),
            6 => Ok(Kind::Texts),
            _ => Err(Unknown),
        }
    }
}

// A block's kind as the list numbers it, and the bytes after it.
#[derive(Clone, Copy)]
pub struct Block<'a> {
    pub kind: u8,
    pub bytes: &'a [u8],
}

// Reads the next block into the room that is lent. It begins with its length, of which the kind is one byte. None at the list's end, where the kind is 0,
// and where a block is cut short or longer than the room.
pub fn next_block<'a>(input: &mut impl Read, room: &'a mut [u8]) -> Option<Block<'a>>
    ensures within { IfSome result (λ block. length block.bytes.now ≤ length room.old) }
{
    let mut bytes = [0u8; 5];
    let head = prompt::read_full(input, &mut bytes);
    let kind = lists::u8_at(head, 4);
    let n = (lists::u32_at(head, 0) as usize).checked_sub(1)?;
    if room.len() < n {
        return None;
    }
    let bytes = prompt::read_full(input, &mut room[..n]);
    if bytes.len() < n || kind == 0 {
        return None;
    }
    Some(Block { kind, bytes })
}

// Writes a name, a number and the line's end to standard output. A write that fails can be told to nobody.
pub fn say(rt: &impl Print, name: &str, value: u64) {
    let _ = println!(rt; "{name}{value}");
}

fn said_counts(rt: &impl Print, names: &str, counts: &[u64]) -> io::Result<()> {
    print!(rt; "{names}")?;
    for count in counts {
        print!(rt; " {count}")?;
    }
    println!(rt)
}

// Writes a line of names and their counts. A write that fails can be told to nobody.
pub fn say_counts(rt: &impl Print, names: &str, counts: &[u64]) {
    let _ = said_counts(rt, names, counts);
}
