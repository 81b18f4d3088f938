// Points, directions and refusals. Signed coordinates are worked on here alone.
#![tactic(auto)]

ghost use Rattle.std.specs.Prelude.{◌≡◌, ◌≤◌, ◌<◌, ◌+◌, ◌%◌, T, ◌-ℤ◌, nat_abs};
ghost use Rattle.points.specs.Plane.{in_range, legal};
ghost use Rattle.points.specs.Compass.{dx_of, dy_of, moved, sign_of, diagonal_of, split_of, clockwise, counterclockwise};
ghost use Rattle.points.specs.Refusals.{told_of, checked_of};

use std::cmp::Ordering;

// A place of the plane.
#[derive(Clone, Copy, PartialEq, Eq)]
pub struct Point {
    pub x: i32,
    pub y: i32,
}

// One of the eight directions; the number is read modulo 8.
#[derive(Clone, Copy, PartialEq, Eq)]
pub struct Direction {
    pub number: u8,
}

// Why a call of the library is refused.
#[derive(Clone, Copy, PartialEq, Eq)]
pub enum Refusal {
    Size,
    State,
    Setting,
    NoRoute,
    Goals,
    Exhausted,
    Depth,
    Fringe,
    Pops,
    Room,
    Same(Point),
    Map(usize),
    List,
    BadPoint(Point),
}

// Whether a coordinate is in -1024..=1023.
pub fn in_range(v: i32) -> bool
    ensures { result ≡ in_range v }
{
    (-1024..=1023).contains(&v)
}

// The sign of b - a: how it compares with 0.
pub fn sign_between(a: i32, b: i32) -> Ordering
    requires { T (in_range a) × T (in_range b) }
    ensures { result ≡ sign_of (b -ℤ a) }
{
    (b - a).cmp(&0)
}

// The absolute value of b - a.
pub fn gap(a: i32, b: i32) -> u32
    requires { T (in_range a) × T (in_range b) }
    ensures { (result ≡ nat_abs (b -ℤ a)) × (result ≤ 2047) }
{
    (b - a).unsigned_abs()
}

impl Point {
    // Whether both coordinates are in range.
    pub fn legal(self) -> bool
        ensures { result ≡ legal self }
    {
        in_range(self.x) && in_range(self.y)
    }

    // The point itself. Refuses POINT, where it is out of range.
    pub fn checked(self) -> Result<Point, Refusal>
        ensures { result ≡ checked_of self }
    {
        if self.legal() {
            Ok(self)
        } else {
            Err(Refusal::BadPoint(self))
        }
    }

    // The point one step away, wherever that is.
    pub fn stepped(self, d: Direction) -> Point
        requires { T (legal self) }
        ensures { result ≡ moved self d.number }
    {
        Point {
            x: self.x + d.dx(),
            y: self.y + d.dy(),
        }
    }
}

impl Direction {
    // Turned by eighths of a turn, clockwise on a printed map.
    pub fn rotate_cw(self, eighths: u8) -> Direction
        ensures { result ≡ clockwise self eighths }
    {
        let mut number = self.number % 8;
        for _ in 0..eighths % 8 {
            number = directions::right_of(number);
        }
        Direction { number }
    }

    // Turned by eighths of a turn, counter-clockwise on a printed map.
    pub fn rotate_ccw(self, eighths: u8) -> Direction
        ensures { result ≡ counterclockwise self eighths }
    {
        let mut number = self.number % 8;
        for _ in 0..eighths % 8 {
            number = directions::left_of(number);
        }
        Direction { number }
    }

    // The direction half a turn away.
    pub fn opposite(self) -> Direction
        ensures { result ≡ clockwise self 4 }
    {
        Direction {
            number: directions::back_of(self.number),
        }
    }

    // Whether the direction is a diagonal one.
    pub fn diagonal(self) -> bool
        ensures { result ≡ diagonal_of self.number }
    {
        self.number % 2 == 1
    }

    pub fn dx(self) -> i32
        ensures { result ≡ dx_of self.number }
    {
        directions::off_x(self.number) as i32 - 1
    }

    pub fn dy(self) -> i32
        ensures { result ≡ dy_of self.number }
    {
        directions::off_y(self.number) as i32 - 1
    }

    // A diagonal's cardinal along x and its cardinal along y; a cardinal splits into nothing.
    #[tactic(auto, unfolding(crate::specs::Compass::split_at))]
    pub fn split(self) -> Option<(Direction, Direction)>
        ensures { result ≡ split_of self.number }
    {
        let (x, y) = match self.number % 8 {
            1 => (2, 0),
            3 => (2, 4),
            5 => (6, 4),
            7 => (6, 0),
            _ => return None,
        };
        Some((Direction { number: x }, Direction { number: y }))
    }
}

impl Refusal {
    // The refusal's number in the scope's table.
    pub fn number(self) -> u8
        ensures { result ≡ (told_of self).number }
    {
        match self {
            Refusal::Size => 1,
            Refusal::State => 2,
            Refusal::Setting => 3,
            Refusal::NoRoute => 4,
            Refusal::Goals => 5,
            Refusal::Exhausted => 6,
            Refusal::Depth => 7,
            Refusal::Fringe => 8,
            Refusal::Pops => 9,
            Refusal::Room => 10,
            Refusal::Same(_) => 11,
            Refusal::Map(_) => 12,
            Refusal::List => 13,
            Refusal::BadPoint(_) => 14,
        }
    }

    // The line that MAP carries; 0 of any other.
    pub fn line(self) -> usize
        ensures { result ≡ (told_of self).line }
    {
        match self {
            Refusal::Map(line) => line,
            _ => 0,
        }
    }

    // The point that SAME and POINT carry; (0, 0) of any other.
    pub fn point(self) -> Point
        ensures { result ≡ (told_of self).point }
    {
        match self {
            Refusal::Same(p) | Refusal::BadPoint(p) => p,
            _ => Point { x: 0, y: 0 },
        }
    }
}
