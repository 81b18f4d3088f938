// The tables of a grid filled by the cells alone, in lent slices: zeros, each its own number, neighbour masks and forced masks.
#![tactic(auto)]

ghost use Rattle.std.specs.Prelude.{ℕ, ◌≡◌, ◌*◌, ◌^◌, ◌≤◌, ◌<◌, length, get_or};
ghost use Rattle.masks.specs.Masks.{forced_of};
ghost use Rattle.fills.specs.Fills.{free_bit, mask_of, mask_at, fill_to};

use cells::{Size, Spot};

// Whether the cell next to a cell in direction d is inside and free: 1 or 0.
#[tactic(auto, using(crate::proofs::Fills::free_at, crate::proofs::Fills::free_out))]
fn free_bit(at: Spot, blocked: &[u8], d: u8) -> u8
    requires d_bound { d < 8 }
    requires in_bounds { at.w * at.h ≤ length blocked.now }
    ensures { result ≡ free_bit at.w at.h blocked.now at.x at.y d }
{
    match at.next(d) {
        Some(i) => u8::from(blocked[i] == 0),
        None => 0,
    }
}

// A cell's neighbour mask, by the cells alone.
#[tactic(auto, unfolding(crate::specs::Fills::mask_of))]
fn mask_of(at: Spot, blocked: &[u8]) -> u8
    requires { at.w * at.h ≤ length blocked.now }
    ensures { result ≡ mask_of at.w at.h blocked.now at.x at.y }
{
    let mut m: u8 = 0;
    for d in 0..8 {
        m += free_bit(at, blocked, d) << d;
    }
    m
}

// Each of the first n places of a table gets what f gives for its number: where that can only be g k, the place k holds g k.
fn fill<T: Copy, F: Fn(usize) -> T>(t: &mut [T], n: usize, f: F)
    requires in_bounds { n ≤ length t.old }
    requires callable { (k : ℕ) → k < n → F.pre f k }
    ensures len { length t.new ≡ length t.old }
    ensures filled { (g : ℕ → T) → ((k : ℕ) (r : T) → k < n → F.post f k r → r ≡ g k) → (k : ℕ) (d : T) → k < n → get_or t.new k d ≡ g k }
    ensures rest { (k : ℕ) (d : T) → n ≤ k → get_or t.new k d ≡ get_or t.old k d }
{
    for (i, e) in t[..n].iter_mut().enumerate() {
        *e = f(i);
    }
}

// Zeros in the first n places.
pub fn fill_zero(t: &mut [u8], n: usize)
    requires { n ≤ length t.old }
    ensures { t.new ≡ fill_to (λ i. 0) t.old n }
{
    t[..n].fill(0);
}

// Each of the first n places holds its own number.
pub fn fill_ident(t: &mut [u16], n: usize)
    requires n_in_bounds { n ≤ length t.old }
    requires n_bound { n ≤ 2 ^ 16 }
    ensures { t.new ≡ fill_to (λ i. i) t.old n }
{
    fill(t, n, |i| i as u16);
}

// The neighbour masks, by the cells alone.
pub fn fill_masks(size: Size, blocked: &[u8], neighbours: &mut [u8])
    requires n_in_bounds { size.w * size.h ≤ length blocked.now }
    requires n_in_bounds_2 { size.w * size.h ≤ length neighbours.old }
    ensures { neighbours.new ≡ fill_to (mask_at size.w size.h blocked.now) neighbours.old (size.w * size.h) }
{
    fill(neighbours, size.area(), |i| mask_of(size.cell(i), blocked));
}

// The forced masks of the neighbour masks.
pub fn fill_forced(neighbours: &[u8], forced: &mut [u8], n: usize)
    requires n_in_bounds { n ≤ length neighbours.now }
    requires n_in_bounds_2 { n ≤ length forced.old }
    ensures { forced.new ≡ fill_to (λ i. forced_of (get_or neighbours.now i 0)) forced.old n }
{
    fill(forced, n, |i| masks::forced_mask(neighbours[i]));
}
