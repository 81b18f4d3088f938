// Blocks of masks, directions and distances. Their form stands at the head of oracle/tools/src/bin/ground.rs.
ghost use Rattle.std.specs.Prelude.{◌<◌, ◌≤◌};

use super::blocks::Unknown;
use super::tallies;
use super::tallies::{Place, Tally};
use points::{Direction, Point, Refusal};

const REFUSED: u32 = 2147483648;

// What the records of a block are: masks, with diagonals and without, and what is asked of directions and of two points.
#[derive(Clone, Copy)]
enum Kind {
    Forced,
    Pruned,
    PrunedStraight,
    Compass,
    Turns,
    Headings,
    Distances,
    Scaled,
}

impl TryFrom<u8> for Kind {
    type Error = Unknown;

    fn try_from(number: u8) -> Result<Kind, Unknown> {
        match number {
            1 => Ok(Kind::Forced),
            2 => Ok(Kind::Pruned),
            3 => Ok(Kind::PrunedStraight),
            4 => Ok(Kind::Compass),
            5 => Ok(Kind::Turns),
            6 => Ok(Kind::Headings),
            7 => Ok(Kind::Distances),
            8 => Ok(Kind::Scaled),
            _ => Err(Unknown),
        }
    }
}

impl Kind {
    fn place(self) -> Place {
        match self {
            Kind::Forced => Place::Forced,
            Kind::Pruned => Place::Pruned,
            Kind::PrunedStraight => Place::PrunedStraight,
            Kind::Compass => Place::Compass,
            Kind::Turns => Place::Turns,
            Kind::Headings => Place::Headings,
            Kind::Distances => Place::Distances,
            Kind::Scaled => Place::Scaled,
        }
    }

    // The bytes of a record.
    fn width(self) -> usize
        ensures { 0 < result }
    {
        match self {
            Kind::Forced | Kind::Pruned | Kind::PrunedStraight => 1,
            Kind::Compass => 6,
            Kind::Turns => 2,
            Kind::Headings => 20,
            Kind::Distances => 24,
            Kind::Scaled => 28,
        }
    }

    // Whether the kth record of a block has another answer.
    fn wrong(self, k: usize, r: &[u8]) -> bool {
        match self {
            Kind::Forced => lists::u8_at(r, 0) != masks::forced_mask((k % 256) as u8),
            Kind::Pruned => pruned_wrong(true, k, r),
            Kind::PrunedStraight => pruned_wrong(false, k, r),
            Kind::Compass => direction_wrong(k, r),
            Kind::Turns => turns_wrong(k, r),
            Kind::Headings => heading_wrong(r),
            Kind::Distances => distance_wrong(true, r, 16) || distance_wrong(false, r, 20),
            Kind::Scaled => scaled_wrong(true, r, 20) || scaled_wrong(false, r, 24),
        }
    }
}

// ---- a record of each kind

fn pruned_wrong(diagonal: bool, k: usize, r: &[u8]) -> bool {
    let d = (k / 256 % 8) as u8;
    lists::u8_at(r, 0) != masks::pruned_mask(diagonal, d, (k % 256) as u8)
}

// A diagonal's cardinals along x and y; 255 for those of a cardinal.
fn cardinals(d: Direction) -> (u8, u8) {
    match d.split() {
        Some((x, y)) => (x.number, y.number),
        None => (255, 255),
    }
}

// The offsets, the opposite, whether it is a diagonal, and the cardinals.
fn compass_wrong(n: u8, r: &[u8]) -> bool {
    let d = Direction { number: n };
    let o = d.opposite();
    let (x, y) = cardinals(d);
    let told = [
        directions::off_x(n) as u8,
        directions::off_y(n) as u8,
        o.number,
        u8::from(d.diagonal()),
        x,
        y,
    ];
    told.iter()
        .enumerate()
        .any(|(i, v)| lists::u8_at(r, i) != *v)
}

// A number is read modulo 8.
fn direction_wrong(k: usize, r: &[u8]) -> bool {
    let n = (k % 8) as u8;
    compass_wrong(n, r) || compass_wrong(n + 248, r)
}

fn turns_wrong(k: usize, r: &[u8]) -> bool {
    let d = Direction {
        number: (k / 8 % 8) as u8,
    };
    let eighths = (k % 8) as u8;
    let cw = d.rotate_cw(eighths);
    let ccw = d.rotate_ccw(eighths);
    (cw.number, ccw.number) != (lists::u8_at(r, 0), lists::u8_at(r, 1))
}

fn far_point(r: &[u8], at: usize) -> Point
    requires { at ≤ 8 }
{
    Point {
        x: lists::i32_at(r, at),
        y: lists::i32_at(r, at + 4),
    }
}

// Which of two points a refusal carries: 1 the first, 2 the second, 3 neither; 0 for one that carries no point.
fn carried(r: Refusal, a: Point, b: Point) -> u32
    ensures { result ≤ 3 }
{
    let (Refusal::Same(p) | Refusal::BadPoint(p)) = r else {
        return 0;
    };
    if p == a {
        1
    } else if p == b {
        2
    } else {
        3
    }
}

// A refusal as the list has it.
fn refused(r: Refusal, a: Point, b: Point) -> u32 {
    REFUSED + u32::from(r.number()) + 256 * carried(r, a, b)
}

// A direction as the list has it: the number that hosts are told, or a refusal.
fn heading(a: Point, b: Point) -> u64 {
    match headings::direction_to(a, b) {
        Ok(_) => packing::direction(a, b),
        Err(r) => u64::from(refused(r, a, b)),
    }
}

// A distance as the list has it: the cost, or a refusal.
pub fn measured(m: Result<u32, Refusal>, a: Point, b: Point) -> u32 {
    m.unwrap_or_else(|r| refused(r, a, b))
}

fn heading_wrong(r: &[u8]) -> bool {
    heading(far_point(r, 0), far_point(r, 8)) != u64::from(lists::u32_at(r, 16))
}

// The distance between two points, against the number at a place.
fn distance_wrong(diagonal: bool, r: &[u8], at: usize) -> bool {
    let a = far_point(r, 0);
    let b = far_point(r, 8);
    measured(costs::distance(diagonal, a, b), a, b) != lists::u32_at(r, at)
}

// The same of the scaled distance.
fn scaled_wrong(diagonal: bool, r: &[u8], at: usize) -> bool {
    let a = far_point(r, 0);
    let b = far_point(r, 8);
    let m = costs::scaled_distance(diagonal, lists::f32_at(r, 16), a, b);
    measured(m, a, b) != lists::u32_at(r, at)
}

// ---- blocks

// A block of a kind; one of a kind that the list does not have is a difference.
pub fn replay(s: &[u8]) -> Tally {
    let Ok(kind) = Kind::try_from(lists::u8_at(s, 0)) else {
        return Tally::one(Place::Unknown, 1);
    };
    let records = tallies::rest(s, 1);
    let wrong = records
        .chunks(kind.width())
        .enumerate()
        .filter(|(k, r)| kind.wrong(*k, *r))
        .count();
    Tally {
        place: kind.place(),
        count: records.len().div_ceil(kind.width()) as u64,
        wrong: wrong as u64,
    }
}
