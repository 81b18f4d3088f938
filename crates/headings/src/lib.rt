// The direction from one point to another, by the sign of each coordinate difference, and how many steps lead there.
#![tactic(auto)]

ghost use Rattle.std.specs.Prelude.{◌≡◌, T};
ghost use Rattle.points.specs.Plane.{legal};
ghost use Rattle.headings.specs.Headings.{towards_of, heading_of, direction_of};

use bends::Heading;
use points::{Direction, Point, Refusal};
use std::cmp::Ordering;

// The direction that two signs give; none where both differences are 0.
fn towards(across: Ordering, down: Ordering) -> Option<Direction>
    ensures { result ≡ towards_of across down }
{
    let number = match (across, down) {
        (Ordering::Equal, Ordering::Less) => 0,
        (Ordering::Greater, Ordering::Less) => 1,
        (Ordering::Greater, Ordering::Equal) => 2,
        (Ordering::Greater, Ordering::Greater) => 3,
        (Ordering::Equal, Ordering::Greater) => 4,
        (Ordering::Less, Ordering::Greater) => 5,
        (Ordering::Less, Ordering::Equal) => 6,
        (Ordering::Less, Ordering::Less) => 7,
        (Ordering::Equal, Ordering::Equal) => return None,
    };
    Some(Direction { number })
}

// The direction from a to b, for points that are known to be in range. Refuses SAME.
pub fn direction_between(a: Point, b: Point) -> Result<Heading, Refusal>
    requires { T (legal a) × T (legal b) }
    ensures { result ≡ heading_of a b }
{
    let sx = points::sign_between(a.x, b.x);
    let sy = points::sign_between(a.y, b.y);
    let Some(direction) = towards(sx, sy) else {
        return Err(Refusal::Same(a));
    };
    let across = points::gap(a.x, b.x);
    let down = points::gap(a.y, b.y);
    let steps = bends::larger(across, down) as usize;
    if bends::in_line(across, down) {
        Ok(Heading::Straight(direction, steps))
    } else {
        Ok(Heading::Bent(direction, steps))
    }
}

// The direction from a to b: straight with its length, or bent with the larger difference. Refuses POINT (a, then b), then SAME.
#[tactic(auto, using(points::proofs::Range::checked_ok))]
pub fn direction_to(a: Point, b: Point) -> Result<Heading, Refusal>
    ensures { result ≡ direction_of a b }
{
    direction_between(a.checked()?, b.checked()?)
}
