// The cells that a jump passes, and where it stops: a cell's point, number and byte, whether it is free, a goal or forced, and the price of a step.
// A cell's x and y are one more than its column and row, so that a step off the grid is still a number.
#![tactic(auto)]

ghost use Rattle.std.specs.Prelude.{◌≡◌, ◌*◌, ◌<◌, ◌≤◌};
ghost use Rattle.goals.specs.Goals.{most_side, point_of, goal_at, Aimed};
ghost use Rattle.stops.specs.Stops.{Sized, Within, Placed, Held, Marked, spot_of, number_of, byte_at, within, free_at, stops_at, stops_in, target_in, price_of};

use goals::{Goal, Plan};
use points::Point;

// A cell, by one more than its column and row.
#[derive(Clone, Copy, PartialEq, Eq)]
pub struct Cell {
    pub x: usize,
    pub y: usize,
}

// What a jump finds: the cell where it stops, and its cost.
#[derive(Clone, Copy, PartialEq, Eq)]
pub struct Jump {
    pub cell: Cell,
    pub cost: u64,
}

impl Cell {
    // The point of a cell that is inside.
    pub fn spot(self) -> Point
        requires { Within most_side most_side self.x self.y }
        ensures { result ≡ spot_of self.x self.y }
    {
        Point {
            x: (self.x - 1) as i32,
            y: (self.y - 1) as i32,
        }
    }

    // The number of a cell that is inside a grid w wide.
    pub fn number(self, w: usize) -> usize
        requires { Placed w self.x self.y }
        ensures { result ≡ number_of w self.x self.y }
    {
        (self.y - 1) * w + (self.x - 1)
    }

    // The byte of a table at a cell that is inside a grid w wide.
    pub fn byte(self, t: &[u8], w: usize) -> u8
        requires { Held t.now w self.x self.y }
        ensures { result ≡ byte_at t.now w self.x self.y }
    {
        t[self.number(w)]
    }

    // Whether a cell is inside.
    #[tactic(auto, unfolding(crate::specs::Stops::within))]
    fn inside(self, w: usize, h: usize) -> bool
        ensures { result ≡ within w h self.x self.y }
    {
        1 <= self.x && self.x <= w && 1 <= self.y && self.y <= h
    }

    // Whether a cell is inside and free.
    pub fn is_free(self, blocked: &[u8], w: usize, h: usize) -> bool
        requires { Sized blocked.now w h }
        ensures { result ≡ free_at blocked.now w h self.x self.y }
    {
        self.inside(w, h) && self.byte(blocked, w) == 0
    }
}

// The price of a step in direction d.
pub fn price_of(d: u8) -> u64
    ensures { result ≡ price_of d }
{
    70 + 29 * u64::from(d % 2)
}

// The number of the one cell that is the goal, w * h where that one is outside; one more where the goal is not one point.
pub fn goal_cell(w: usize, h: usize, goal: Goal) -> usize
    requires { (w ≤ most_side) × (h ≤ most_side) }
    ensures { result ≡ target_in w h goal }
{
    match goal {
        Goal::Exact(q) => cells::cell_of(w, h, q),
        Goal::Near(_) | Goal::Several(_) => w * h + 1,
    }
}

// Whether the cell of a number is a goal: one exact goal is known by its number.
pub fn hits(goals: &[i32], p: &Plan, i: usize) -> bool
    requires { (p.now.w ≤ most_side) × ((p.now.h ≤ most_side) × (Aimed goals.now p.now × (Marked p.now × (i < p.now.h * p.now.w)))) }
    ensures { result ≡ goal_at goals.now p.now (point_of p.now.w i) }
{
    if p.target <= p.w * p.h {
        return i == p.target;
    }
    goals::is_goal(goals, *p, goals::point_of(p.w, i))
}

// Whether the cell of a number is a goal or forced for direction d.
pub fn stops_in(forced: &[u8], goals: &[i32], p: &Plan, d: u8, i: usize) -> bool
    requires { Sized forced.now p.now.w p.now.h × (Aimed goals.now p.now × (Marked p.now × (i < p.now.h * p.now.w))) }
    ensures { result ≡ stops_in forced.now goals.now p.now d i }
{
    hits(goals, p, i) || masks::bit(forced[i], d)
}

// Whether an inside cell is a goal or forced for direction d.
pub fn stops(forced: &[u8], goals: &[i32], p: &Plan, d: u8, c: Cell) -> bool
    requires { Sized forced.now p.now.w p.now.h × (Aimed goals.now p.now × (Marked p.now × Within p.now.w p.now.h c.x c.y)) }
    ensures { result ≡ stops_at forced.now goals.now p.now d c.x c.y }
{
    stops_in(forced, goals, p, d, c.number(p.w))
}
