// What the direction from one point to another is answered as: straight or bent, and by how many steps.
#![tactic(auto)]

ghost use Rattle.std.specs.Prelude.{◌≡◌, max, Ok, Some};
ghost use Rattle.bends.specs.Bends.{way_of, steps_of, bent_of, in_line};

use points::{Direction, Refusal};

// The direction from one point to another: straight with its length, where steps of that direction lead all the way;
// else bent, with the larger of the two differences.
#[derive(Clone, Copy, PartialEq, Eq)]
pub enum Heading {
    Straight(Direction, usize),
    Bent(Direction, usize),
}

impl Heading {
    // The direction, straight or bent.
    pub fn way(self) -> Direction
        ensures { Some result ≡ way_of (Ok self) }
    {
        match self {
            Heading::Straight(d, _) | Heading::Bent(d, _) => d,
        }
    }

    // How many steps lead there, straight or bent.
    pub fn steps(self) -> usize
        ensures { result ≡ steps_of (Ok self) }
    {
        match self {
            Heading::Straight(_, n) | Heading::Bent(_, n) => n,
        }
    }
}

// Whether two points are not in line, by the direction between them; a point, which has none to itself, is in line with itself.
pub fn bent(heading: Result<Heading, Refusal>) -> bool
    ensures { result ≡ bent_of heading }
{
    matches!(heading, Ok(Heading::Bent(_, _)))
}

// Whether points that are so far apart are in line: one difference is 0, or both are equal in size.
pub fn in_line(across: u32, down: u32) -> bool
    ensures { result ≡ in_line across down }
{
    across == 0 || down == 0 || across == down
}

// The larger of two differences: how many steps lead between points that are so far apart.
pub fn larger(across: u32, down: u32) -> u32
    ensures { result ≡ max across down }
{
    across.max(down)
}
