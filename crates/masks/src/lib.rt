// Masks of a cell's eight neighbours: a bit, the forced mask, and the pruned mask of a direction of travel.
#![tactic(auto)]

ghost use Rattle.std.specs.Prelude.{◌≡◌, ◌%◌};
ghost use Rattle.masks.specs.Masks.{has_bit, forced_of, straight_of, pruned_in};

mod forced;
mod table;

// Whether bit d of a mask is set, d modulo 8.
#[tactic(auto, unfolding(crate::specs::Masks::has_bit))]
pub fn bit(m: u8, d: u8) -> bool
    ensures { result ≡ has_bit m (d % 8) }
{
    (m >> (d % 8)) % 2 == 1
}

// The forced mask of a neighbour mask.
pub fn forced_mask(m: u8) -> u8
    ensures { result ≡ forced_of m }
{
    forced::forced_of(m)
}

// The pruned mask with diagonals off.
fn straight(d: u8, m: u8) -> u8
    ensures { result ≡ straight_of (d % 8) m }
{
    match d % 8 {
        0 => m & 69,
        2 => m & 21,
        4 => m & 84,
        6 => m & 81,
        _ => 0,
    }
}

// The pruned mask for travel d, read modulo 8, at neighbour mask m.
pub fn pruned_mask(diagonal: bool, d: u8, m: u8) -> u8
    ensures { result ≡ pruned_in diagonal (d % 8) m }
{
    if diagonal {
        table::pruned(d, m)
    } else {
        straight(d, m)
    }
}
