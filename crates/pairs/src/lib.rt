// Lists of points: a slice of numbers, x and y in turn.
#![tactic(auto)]

ghost use Rattle.std.specs.Prelude.{◌≡◌, ◌+◌, ◌<◌, Ok, length, set};
ghost use Rattle.pairs.specs.Pairs.{Even, point_at, first_bad, taken_of};

use points::{Point, Refusal};

// The point whose numbers stand at i and after it.
pub fn point_at(list: &[i32], i: usize) -> Point
    requires { i + 1 < length list.now }
    ensures { result ≡ point_at list.now i }
{
    Point {
        x: list[i],
        y: list[i + 1],
    }
}

// The first point of a list that is out of range.
pub fn bad_point(list: &[i32]) -> Option<Point>
    requires { Even (length list.now) }
    ensures { result ≡ first_bad list.now }
{
    for i in 0..list.len() / 2 {
        let p = point_at(list, 2 * i);
        if !p.legal() {
            return Some(p);
        }
    }
    None
}

// That a list of numbers is a list of points in range, and holds one. Refuses LIST, POINT.
pub fn checked(list: &[i32]) -> Result<(), Refusal>
    ensures { result ≡ taken_of list.now (Ok tt) }
{
    if list.is_empty() || list.len() % 2 == 1 {
        return Err(Refusal::List);
    }
    match bad_point(list) {
        Some(p) => Err(Refusal::BadPoint(p)),
        None => Ok(()),
    }
}

// A point's two numbers, written at a place.
pub fn put(out: &mut [i32], at: usize, p: Point)
    requires { at + 1 < length out.old }
    ensures { out.new ≡ set (set out.old at p.x) (at + 1) p.y }
{
    out[at] = p.x;
    out[at + 1] = p.y;
}
