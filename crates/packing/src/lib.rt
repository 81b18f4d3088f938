// Numbers for C and Rust: flags, points and settings made of them, and answers packed into them.
// An answer of one number is below 2^32; a refusal is its number times 2^32. Of a call on two points, POINT has 256 more where it is about the first, 512 more where about the second.
#![tactic(auto)]

ghost use Rattle.std.specs.Prelude.{◌≡◌};
ghost use Rattle.headings.specs.Headings.{direction_of};
ghost use Rattle.costs.specs.Cost.{distance_of};
ghost use Rattle.costs.specs.Scale.{scaled_of};
ghost use Rattle.points.specs.Refusals.{told_of};
ghost use Rattle.packing.specs.Packing.{flag_of, point_of, refused_with, heading_packed, measure_packed, refused_as, mark_of, settings_of};

use bends::Heading;
use costs::Settings;
use points::{Point, Refusal};

// A flag is 0 or not.
pub fn flag(b: u8) -> bool
    ensures { result ≡ flag_of b }
{
    b != 0
}

// What a refusal's number is multiplied by.
const REFUSED: u64 = 4294967296;

// A refusal of a call on two points, of which a is the first: POINT says which of them it is about.
fn refused(r: Refusal, a: Point) -> u64
    ensures { result ≡ refused_with (told_of r) a }
{
    let about = match r {
        Refusal::BadPoint(_) if a.legal() => 512,
        Refusal::BadPoint(_) => 256,
        _ => 0,
    };
    REFUSED * (u64::from(r.number()) + about)
}

// A cost, or a refusal of a call on two points.
fn measured(m: Result<u32, Refusal>, a: Point) -> u64
    ensures { result ≡ measure_packed m a }
{
    match m {
        Ok(cost) => u64::from(cost),
        Err(r) => refused(r, a),
    }
}

// The point (x, y).
pub fn point(x: i32, y: i32) -> Point
    ensures { result ≡ point_of x y }
{
    Point { x, y }
}

// The direction from a to b in the lowest three bits, 8 more where it is bent, and 16 times how many steps lead there; or a refusal.
pub fn direction(a: Point, b: Point) -> u64
    ensures { result ≡ heading_packed (direction_of a b) a }
{
    match headings::direction_to(a, b) {
        Ok(Heading::Straight(d, n)) => 16 * n as u64 + d.number as u64,
        Ok(Heading::Bent(d, n)) => 16 * n as u64 + 8 + d.number as u64,
        Err(r) => refused(r, a),
    }
}

// The distance from a to b, below 2^32, or a refusal.
pub fn distance(diagonal: bool, a: Point, b: Point) -> u64
    ensures { result ≡ measure_packed (distance_of diagonal a b) a }
{
    measured(costs::distance(diagonal, a, b), a)
}

// The scaled distance from a to b, below 2^32, or a refusal.
pub fn scaled_distance(diagonal: bool, factor: f32, a: Point, b: Point) -> u64
    ensures { result ≡ measure_packed (scaled_of diagonal factor a b) a }
{
    measured(costs::scaled_distance(diagonal, factor, a, b), a)
}

// A refusal alone.
pub fn refused_as(r: Refusal) -> u64
    ensures { result ≡ refused_as r }
{
    REFUSED * u64::from(r.number())
}

// Yes and no: 1 and 0.
pub fn mark(b: bool) -> u64
    ensures { result ≡ mark_of b }
{
    u64::from(b)
}

// The settings of a search.
pub fn settings(
    factor: f32,
    diagonal: bool,
    improved: bool,
    depth: usize,
    pops: usize,
    fringe: usize,
) -> Settings
    ensures { result ≡ settings_of factor diagonal improved depth pops fringe }
{
    Settings {
        factor,
        diagonal,
        improved,
        depth,
        pops,
        fringe,
    }
}
