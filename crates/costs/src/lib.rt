// Distances in the costs of moves, scaling by the heuristic's factor, and the settings of a search.
#![tactic(auto)]

ghost use Rattle.std.specs.Prelude.{◌≡◌, ◌*◌, ◌≤◌, T};
ghost use Rattle.points.specs.Plane.{legal};
ghost use Rattle.costs.specs.Cost.{farthest, cost_of, dist_of, distance_of};
ghost use Rattle.costs.specs.Scale.{in_bounds, scale_of, scaled_of};
ghost use Rattle.costs.specs.Limits.{new_settings, settings_ok};

use points::{Point, Refusal};

const MOST_DEPTH: usize = 64;

const MOST_POPS: usize = 65535;

const MOST_FRINGE: usize = 8192;

// How a search is run: the heuristic's factor, the two flags and the three limits. The widest come first, the flags last: then no copy splits them.
#[derive(Clone, Copy)]
pub struct Settings {
    pub depth: usize,
    pub pops: usize,
    pub fringe: usize,
    pub factor: f32,
    pub diagonal: bool,
    pub improved: bool,
}

// The distance of two absolute differences: 99 for a diagonal step, 70 for a straight one.
fn cost(diagonal: bool, dx: u32, dy: u32) -> u32
    requires { (dx ≤ 2047) × (dy ≤ 2047) }
    ensures { result ≡ cost_of diagonal dx dy }
{
    if !diagonal {
        return 70 * (dx + dy);
    }
    (41 * dx.abs_diff(dy) + 99 * (dx + dy)) / 2
}

// The distance between two points that are known to be in range.
pub fn distance_between(diagonal: bool, a: Point, b: Point) -> u32
    requires { T (legal a) × T (legal b) }
    ensures { (result ≡ dist_of diagonal a b) × (result ≤ farthest) }
{
    let dx = points::gap(a.x, b.x);
    let dy = points::gap(a.y, b.y);
    cost(diagonal, dx, dy)
}

// The distance from a to b. Refuses POINT (a, then b).
#[tactic(auto, using(points::proofs::Range::checked_ok))]
pub fn distance(diagonal: bool, a: Point, b: Point) -> Result<u32, Refusal>
    ensures { result ≡ distance_of diagonal a b }
{
    Ok(distance_between(diagonal, a.checked()?, b.checked()?))
}

// Whether a factor is from 0 to 16: negative zero is, NaN and infinity are not.
pub fn in_bounds(factor: f32) -> bool
    ensures { result ≡ in_bounds factor }
{
    0.0 <= factor && factor <= 16.0
}

// A distance as f32 times the factor, rounded once, then cut towards zero. A factor of 1 changes nothing: it is told apart, being the usual one.
pub fn scale_by(distance: u32, factor: f32) -> u32
    requires { (distance ≤ farthest) × T (in_bounds factor) }
    ensures { (result ≡ scale_of distance factor) × (result ≤ distance * 16) }
{
    if factor == 1.0 {
        return distance;
    }
    let product = (distance as f32) * factor;
    std::num::truncating_f32_to_u64(product) as u32
}

// The scaled distance from a to b. Refuses SETTING, then POINT (a, then b).
#[tactic(auto, using(crate::proofs::Bounds::distance_ok))]
pub fn scaled_distance(diagonal: bool, factor: f32, a: Point, b: Point) -> Result<u32, Refusal>
    ensures { result ≡ scaled_of diagonal factor a b }
{
    if !in_bounds(factor) {
        return Err(Refusal::Setting);
    }
    Ok(scale_by(distance(diagonal, a, b)?, factor))
}

impl Settings {
    // The settings of a new grid.
    pub fn new() -> Settings
        ensures { result ≡ new_settings }
    {
        Settings {
            factor: 1.0,
            diagonal: true,
            improved: true,
            depth: MOST_DEPTH,
            pops: MOST_POPS,
            fringe: MOST_FRINGE,
        }
    }

    // Whether the factor and the three limits are in their ranges.
    pub fn legal(self) -> bool
        ensures { result ≡ settings_ok self }
    {
        in_bounds(self.factor)
            && self.depth <= MOST_DEPTH
            && (1..=MOST_POPS).contains(&self.pops)
            && (1..=MOST_FRINGE).contains(&self.fringe)
    }
}
