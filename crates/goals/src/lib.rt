// The goals of a search: their kinds, the goal test, and the estimate of what is left from a point.
#![tactic(auto)]

ghost use Rattle.std.specs.Prelude.{◌≡◌, ℕ, ◌+◌, ◌*◌, ◌^◌, ◌<◌, ◌≤◌, min, T, length};
ghost use Rattle.points.specs.Plane.{legal};
ghost use Rattle.costs.specs.Cost.{farthest};
ghost use Rattle.goals.specs.Goals.{Numbered, Aimed, Legals, most_goals, point_of, least_to, among_to, goal_at, left_of, guess_of, count_of};

use costs::Settings;
use points::{Point, Refusal};

const MOST_GOALS: usize = 64;

// What a search looks for: one point, the neighbourhood of one point, or one of the first n points of a lent list of pairs.
// The n of Several lies where the other kinds have their point's x, so that there is a number to be read there for each kind.
#[derive(Clone, Copy)]
pub enum Goal {
    Exact(Point),
    Near(Point),
    Several(u32),
}

// What stays the same in one search: the start, the goal, the sides, the number of the goal's cell (stops::goal_cell) and the settings. In this order no copy splits what is read after it.
#[derive(Clone, Copy)]
pub struct Plan {
    pub start: Point,
    pub goal: Goal,
    pub w: usize,
    pub h: usize,
    pub target: usize,
    pub settings: Settings,
}

// The point of a cell number.
pub fn point_of(w: usize, cell: usize) -> Point
    requires { Numbered w cell }
    ensures { result ≡ point_of w cell }
{
    Point {
        x: (cell % w) as i32,
        y: (cell / w) as i32,
    }
}

// How many goals a list of pairs holds. Refuses GOALS: none, more than 64, or an odd count of numbers.
pub fn count_goals(goals: &[i32]) -> Result<u32, Refusal>
    ensures { result ≡ count_of (length goals.now) }
{
    let n = goals.len();
    if n == 0 || n % 2 == 1 || MOST_GOALS < n / 2 {
        return Err(Refusal::Goals);
    }
    Ok((n / 2) as u32)
}

// The least distance from a point to one of the first n goals.
pub fn least(goals: &[i32], diagonal: bool, n: usize, at: Point) -> u32
    requires { (1 ≤ n) × (Legals goals.now n × T (legal at)) }
    ensures { (result ≡ least_to goals.now diagonal at n) × (result ≤ farthest) }
{
    let mut best = costs::distance_between(diagonal, at, pairs::point_at(goals, 0));
    for i in 1..n {
        best = best.min(costs::distance_between(diagonal, at, pairs::point_at(goals, 2 * i)));
    }
    best
}

// Whether a point is one of the first n goals.
fn among(goals: &[i32], n: usize, at: Point) -> bool
    requires { 2 * n ≤ length goals.now }
    ensures { result ≡ among_to goals.now at n 0 }
{
    for i in 0..n {
        if at == pairs::point_at(goals, 2 * i) {
            return true;
        }
    }
    false
}

// Whether a point is a goal.
#[tactic(auto, using(crate::proofs::Points::point_eq), unfolding(crate::specs::Goals::goal_at))]
pub fn is_goal(goals: &[i32], p: Plan, at: Point) -> bool
    requires { Aimed goals.now p × T (legal at) }
    ensures { result ≡ goal_at goals.now p at }
{
    match p.goal {
        Goal::Exact(q) => at == q,
        Goal::Near(q) => costs::distance_between(p.settings.diagonal, at, q) <= 99,
        Goal::Several(n) => among(goals, n as usize, at),
    }
}

// The unscaled distance from a point to the goal.
#[tactic(auto, unfolding(crate::specs::Goals::left_of))]
fn left(goals: &[i32], p: Plan, at: Point) -> u32
    requires { Aimed goals.now p × T (legal at) }
    ensures { (result ≡ left_of goals.now p at) × (result ≤ farthest) }
{
    match p.goal {
        Goal::Exact(q) | Goal::Near(q) => costs::distance_between(p.settings.diagonal, at, q),
        Goal::Several(n) => least(goals, p.settings.diagonal, n as usize, at),
    }
}

// The estimate of what is left from a point: the least unscaled distance to a goal, scaled.
pub fn guess(goals: &[i32], p: Plan, at: Point) -> u64
    requires { Aimed goals.now p × T (legal at) }
    ensures { (result ≡ guess_of goals.now p at) × (result < 2 ^ 23) }
{
    costs::scale_by(left(goals, p, at), p.settings.factor) as u64
}
