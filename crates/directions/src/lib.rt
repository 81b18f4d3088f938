// The eight directions by their numbers, each by a match: the pinned offsets, and turns.
#![tactic(auto)]

ghost use Rattle.std.specs.Prelude.{◌≡◌, ◌≤◌, ◌<◌, ◌+◌, ◌%◌};
ghost use Rattle.directions.specs.Offsets.{off_x, off_y};

// The column offset of a direction, one more than it is: with off_y the one table of the pinned offsets.
#[tactic(auto, unfolding(crate::specs::Offsets::off_x))]
pub fn off_x(d: u8) -> usize
    ensures { (result ≡ off_x (d % 8)) × (result ≤ 2) }
{
    match d % 8 {
        0 => 1,
        1 => 2,
        2 => 2,
        3 => 2,
        4 => 1,
        5 => 0,
        6 => 0,
        _ => 0,
    }
}

// The row offset of a direction, one more than it is.
#[tactic(auto, unfolding(crate::specs::Offsets::off_y))]
pub fn off_y(d: u8) -> usize
    ensures { (result ≡ off_y (d % 8)) × (result ≤ 2) }
{
    match d % 8 {
        0 => 0,
        1 => 0,
        2 => 1,
        3 => 2,
        4 => 2,
        5 => 2,
        6 => 1,
        _ => 0,
    }
}

// The direction an eighth of a turn to the right: the next one, clockwise on a printed map.
pub fn right_of(d: u8) -> u8
    ensures { (result ≡ (d + 1) % 8) × (result < 8) }
{
    match d % 8 {
        0 => 1,
        1 => 2,
        2 => 3,
        3 => 4,
        4 => 5,
        5 => 6,
        6 => 7,
        _ => 0,
    }
}

// The direction an eighth of a turn to the left.
pub fn left_of(d: u8) -> u8
    ensures { (result ≡ (d + 7) % 8) × (result < 8) }
{
    match d % 8 {
        0 => 7,
        1 => 0,
        2 => 1,
        3 => 2,
        4 => 3,
        5 => 4,
        6 => 5,
        _ => 6,
    }
}

// The direction half a turn away.
pub fn back_of(d: u8) -> u8
    ensures { (result ≡ (d + 4) % 8) × (result < 8) }
{
    match d % 8 {
        0 => 4,
        1 => 5,
        2 => 6,
        3 => 7,
        4 => 0,
        5 => 1,
        6 => 2,
        _ => 3,
    }
}
