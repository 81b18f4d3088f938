// The forced mask of a neighbour mask, worked out for all directions at once.
ghost use Rattle.std.specs.Prelude.{◌≡◌};
ghost use Rattle.masks.specs.Masks.{forced_of};

// The clear bits stand twice in a row, so that a shift turns them.
pub fn forced_of(m: u8) -> u8
    ensures { result ≡ forced_of m }
{
    let clear = (255 - m) as u32 * 257;
    let odd = (clear / 8 | clear / 32) & 170;
    let even = (clear / 4 | clear / 64) & 85;
    ((odd | even) % 256) as u8
}
