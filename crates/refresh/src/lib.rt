// An edit of a cell in lent tables: the cell, the neighbour masks around it, and the forced masks of the neighbourhood.
#![tactic(auto)]

ghost use Rattle.std.specs.Prelude.{◌≡◌, ◌+◌, ◌*◌, ◌≤◌, ◌<◌, length, get_or, set, eqb, not, cond, ◌&&◌};
ghost use Rattle.masks.specs.Masks.{forced_of};
ghost use Rattle.refresh.specs.Refresh.{with_bit, touched, allowed_of, fixed, fixed_all, masks_after, forced_after};

use cells::Spot;

// Whether an edit blocks a free cell.
pub fn blocks_free(blocked: &[u8], i: usize, b: bool) -> bool
    requires { i < length blocked.now }
    ensures { result ≡ (b && (eqb (get_or blocked.now i 0) 0)) }
{
    b && blocked[i] == 0
}

// The mask with its bit d set or cleared.
#[tactic(auto, using(crate::proofs::Bits::set_is, crate::proofs::Bits::clear_is))]
fn with_bit(m: u8, d: u8, on: bool) -> u8
    requires { d < 8 }
    ensures { result ≡ with_bit m d on }
{
    if on { m | 1 << d } else { m & !(1 << d) }
}

// One neighbour is told.
#[tactic(auto, unfolding(crate::specs::Refresh::touched))]
fn touch(at: Spot, neighbours: &mut [u8], on: bool, d: u8)
    requires d_bound { d < 8 }
    requires in_bounds { at.w * at.h ≤ length neighbours.old }
    ensures { neighbours.new ≡ touched at.w at.h neighbours.old at.x at.y on d }
{
    if let Some(i) = at.next(d) {
        let m = neighbours[i];
        stores::store_byte(neighbours, i, with_bit(m, directions::back_of(d), on));
    }
}

// Every neighbour is told.
#[tactic(auto, unfolding(crate::specs::Refresh::masks_after))]
fn touch_all(at: Spot, neighbours: &mut [u8], on: bool)
    requires { at.w * at.h ≤ length neighbours.old }
    ensures { neighbours.new ≡ masks_after at.w at.h neighbours.old at.x at.y on }
{
    for d in 0..8 {
        touch(at, neighbours, on, d);
    }
}

// Whether a direction is of the neighbourhood: any with diagonals, a cardinal one without.
fn allowed(diagonal: bool, d: u8) -> bool
    ensures { result ≡ allowed_of diagonal d }
{
    diagonal || d % 2 == 0
}

// The forced mask of cell i, worked out again.
fn fix_cell(neighbours: &[u8], forced: &mut [u8], i: usize)
    requires in_bounds { (i < length neighbours.now) × (i < length forced.old) }
    ensures { forced.new ≡ set forced.old i (forced_of (get_or neighbours.now i 0)) }
{
    stores::store_byte(forced, i, masks::forced_mask(neighbours[i]));
}

// The forced mask of one neighbour, worked out again.
#[tactic(auto, unfolding(crate::specs::Refresh::fixed))]
fn fix(at: Spot, diagonal: bool, neighbours: &[u8], forced: &mut [u8], d: u8)
    requires d_bound { d < 8 }
    requires in_bounds { (at.w * at.h ≤ length neighbours.now) × (at.w * at.h ≤ length forced.old) }
    ensures { forced.new ≡ fixed at.w at.h diagonal neighbours.now forced.old at.x at.y d }
{
    if !allowed(diagonal, d) {
        return;
    }
    if let Some(i) = at.next(d) {
        fix_cell(neighbours, forced, i);
    }
}

// The forced masks of the cell and of its neighbourhood, worked out again.
#[tactic(auto, unfolding(crate::specs::Refresh::fixed_all))]
fn fix_all(at: Spot, diagonal: bool, neighbours: &[u8], forced: &mut [u8])
    requires in_bounds { (at.w * at.h ≤ length neighbours.now) × (at.w * at.h ≤ length forced.old) }
    ensures { forced.new ≡ fixed_all at.w at.h diagonal neighbours.now forced.old at.x at.y }
{
    fix_cell(neighbours, forced, at.number());
    for d in 0..8 {
        fix(at, diagonal, neighbours, forced, d);
    }
}

// The masks around an edited cell.
fn refresh(at: Spot, diagonal: bool, neighbours: &mut [u8], forced: &mut [u8], on: bool)
    requires in_bounds { (at.w * at.h ≤ length neighbours.old) × (at.w * at.h ≤ length forced.old) }
    ensures neighbours_after { neighbours.new ≡ masks_after at.w at.h neighbours.old at.x at.y on }
    ensures forced_after { forced.new ≡ forced_after at.w at.h diagonal neighbours.old forced.old at.x at.y on }
{
    touch_all(at, neighbours, on);
    fix_all(at, diagonal, neighbours, forced);
}

// The cell itself and the masks around it, after an edit.
pub fn edit_cell(
    at: Spot,
    diagonal: bool,
    blocked: &mut [u8],
    neighbours: &mut [u8],
    forced: &mut [u8],
    b: bool,
)
    requires h_in_bounds { at.w * at.h ≤ length blocked.old }
    requires h_in_bounds_2 { at.w * at.h ≤ length neighbours.old }
    requires h_in_bounds_3 { at.w * at.h ≤ length forced.old }
    ensures blocked_after { blocked.new ≡ set blocked.old (at.y * at.w + at.x) (cond b 1 0) }
    ensures neighbours_after { neighbours.new ≡ masks_after at.w at.h neighbours.old at.x at.y (not b) }
    ensures forced_after { forced.new ≡ forced_after at.w at.h diagonal neighbours.old forced.old at.x at.y (not b) }
{
    let i = at.number();
    stores::store_byte(blocked, i, u8::from(b));
    refresh(at, diagonal, neighbours, forced, !b);
}
