// What is compared, whatever the kind of a block: refusals, points, lists of numbers, and a lent output.
ghost use Rattle.std.specs.Prelude.{◌≡◌, ◌≤◌, length};

use points::{Point, Refusal};
use std::iter;

// What an output holds before a call: no coordinate, so that what was written shows.
pub const UNTOUCHED: i32 = 77777;

// What answers are of, by the place of their count in the totals.
#[derive(Clone, Copy)]
pub enum Place {
    Unknown,
    Forced,
    Pruned,
    PrunedStraight,
    Compass,
    Turns,
    Headings,
    Distances,
    Scaled,
    Steps,
    Cells,
    Reaches,
    Grids,
    Searches,
    Paths,
    Checks,
    Texts,
}

// Answers that were compared: what they are of, how many they are, and how many differ.
#[derive(Clone, Copy)]
pub struct Tally {
    pub place: Place,
    pub count: u64,
    pub wrong: u64,
}

impl Tally {
    // One answer, with its differences.
    pub fn one(place: Place, wrong: u64) -> Tally {
        Tally {
            place,
            count: 1,
            wrong,
        }
    }
}

// A refusal's number; where POINT carries another point than p, 200.
pub fn number_of(r: Refusal, p: Point) -> u8 {
    match r {
        Refusal::BadPoint(q) if q != p => 200,
        _ => r.number(),
    }
}

// How many places of two lists differ, as far as both go.
pub fn unlike<T: PartialEq>(have: &[T], want: &[T]) -> u64 {
    have.iter().zip(want).filter(|(a, b)| *a != *b).count() as u64
}

// ---- what stands in a block

// The bytes of s from a place on, none past its end.
pub fn rest<'a>(s: &'a [u8], at: usize) -> &'a [u8] {
    s.get(at..).unwrap_or(&[])
}

// The number of two bytes at a place, but no more than this.
pub fn count_at(s: &[u8], at: usize, most: usize) -> usize
    ensures { result ≤ most }
{
    (lists::u16_at(s, at) as usize).min(most)
}

// The number of four bytes at a place, but no more than this.
pub fn room_at(s: &[u8], at: usize, most: usize) -> usize
    ensures { result ≤ most }
{
    (lists::u32_at(s, at) as usize).min(most)
}

// The point of two numbers of two bytes each.
pub fn point_at(s: &[u8], at: usize) -> Point
    requires { at ≤ 100 }
{
    Point {
        x: lists::i16_at(s, at),
        y: lists::i16_at(s, at + 2),
    }
}

// The point of two bytes.
pub fn small_point(s: &[u8], at: usize) -> Point
    requires { at ≤ 100 }
{
    Point {
        x: i32::from(lists::u8_at(s, at)),
        y: i32::from(lists::u8_at(s, at + 1)),
    }
}

// Whether s begins with another result than a refusal's, or with another point than POINT carries.
pub fn refused_wrong(r: Refusal, s: &[u8]) -> bool {
    lists::u8_at(s, 0) != number_of(r, point_at(s, 1))
}

// ---- lists of numbers, each a count of two bytes and then two bytes for a number

// The first count numbers of a list, in the room that is lent.
pub fn numbers<'a>(s: &[u8], count: usize, room: &'a mut [i32; 200]) -> &'a [i32]
    requires { count ≤ 200 }
    ensures { length result.now ≡ count }
{
    for (k, number) in room[..count].iter_mut().enumerate() {
        *number = lists::i16_at(s, 2 + 2 * k);
    }
    &room[..count]
}

// An output before a call.
pub fn untouched<const N: usize>() -> [i32; N]
    ensures { length result ≡ N }
{
    [UNTOUCHED; N]
}

// How many places of an output differ from the list of points that s begins with, and UNTOUCHED after them.
pub fn unlike_points(s: &[u8], out: &[i32]) -> u64 {
    let count = 2 * lists::u16_at(s, 0) as usize;
    let want = (0..count)
        .map(|k| lists::i16_at(s, 2 + 2 * k))
        .chain(iter::repeat(UNTOUCHED));
    out.iter().zip(want).filter(|(v, w)| **v != *w).count() as u64
}
