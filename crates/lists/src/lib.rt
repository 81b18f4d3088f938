// Numbers in a list of bytes, least byte first. Past the list's end every byte reads as 0, so no place in it is out of bounds.
#![tactic(auto)]

ghost use Rattle.std.specs.Prelude.{◌≡◌, ◌<◌};
ghost use Rattle.std.specs.Float.Ieee.{of_bits};
ghost use Rattle.std.specs.Float.{binary32};
ghost use Rattle.lists.specs.Numbers.{byte_at, pair_at, word_at, signed_of};

// The byte at a place.
pub fn u8_at(s: &[u8], at: usize) -> u8
    ensures { result ≡ byte_at s.now at }
{
    s.get(at).copied().unwrap_or(0)
}

// The number of two bytes.
pub fn u16_at(s: &[u8], at: usize) -> u32
    ensures { (result ≡ pair_at s.now at) × (result < 65536) }
{
    if s.len() <= at {
        return 0;
    }
    u32::from(u8_at(s, at)) + 256 * u32::from(u8_at(s, at + 1))
}

// The number of four bytes.
pub fn u32_at(s: &[u8], at: usize) -> u32
    ensures { result ≡ word_at s.now at }
{
    if s.len() <= at {
        return 0;
    }
    u16_at(s, at) + 65536 * u16_at(s, at + 2)
}

// The signed number of two bytes.
pub fn i16_at(s: &[u8], at: usize) -> i32
    ensures { result ≡ signed_of 32768 (pair_at s.now at) }
{
    i32::from((u16_at(s, at) as u16).cast_signed())
}

// The signed number of four bytes.
pub fn i32_at(s: &[u8], at: usize) -> i32
    ensures { result ≡ signed_of 2147483648 (word_at s.now at) }
{
    u32_at(s, at).cast_signed()
}

// The float of four bytes; every NaN's pattern is a NaN.
pub fn f32_at(s: &[u8], at: usize) -> f32
    ensures { result ≡ of_bits binary32 (word_at s.now at) }
{
    let v = u32_at(s, at);
    if 2139095040 < v % 2147483648 {
        return 0.0 / 0.0;
    }
    f32::from_bits(v)
}
