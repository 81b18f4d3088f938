// The tables of a grid over lent slices: a new one, an edit. The state is legal where it is asked for, and is not tested.
#![tactic(auto)]

ghost use Rattle.std.specs.Prelude.{◌≡◌, false, ◌*◌};
ghost use Rattle.components.specs.Components.{Forest};
ghost use Rattle.tables.specs.Tables.{Room, new_of, edit_of};

use cells::{Size, Spot};

// A new grid: all free, its masks, singletons.
#[tactic(auto, unfolding(crate::specs::Tables::new_of))]
pub fn new(
    size: Size,
    blocked: &mut [u8],
    neighbours: &mut [u8],
    forced: &mut [u8],
    parent: &mut [u16],
    rank: &mut [u8],
)
    requires { Room size.w size.h (record { blocked = blocked.old; masks = neighbours.old; forced = forced.old; parent = parent.old; rank = rank.old; dirty = false }) }
    ensures { record { blocked = blocked.new; masks = neighbours.new; forced = forced.new; parent = parent.new; rank = rank.new; dirty = false }
        ≡ new_of size.w size.h (record { blocked = blocked.old; masks = neighbours.old; forced = forced.old; parent = parent.old; rank = rank.old; dirty = false }) }
{
    let n = size.area();
    fills::fill_zero(blocked, n);
    fills::fill_masks(size, blocked, neighbours);
    fills::fill_forced(neighbours, forced, n);
    fills::fill_ident(parent, n);
    fills::fill_zero(rank, n);
}

// `set`, of a grid in lent tables: the answer is the mark afterwards.
#[tactic(auto, unfolding(crate::specs::Tables::edit_of))]
pub fn edit(
    at: Spot,
    diagonal: bool,
    dirty: bool,
    blocked: &mut [u8],
    neighbours: &mut [u8],
    forced: &mut [u8],
    parent: &mut [u16],
    rank: &mut [u8],
    b: bool,
) -> bool
    requires { Room at.w at.h (record { blocked = blocked.old; masks = neighbours.old; forced = forced.old; parent = parent.old; rank = rank.old; dirty = dirty }) × Forest 200 (at.w * at.h) parent.old rank.old }
    ensures { record { blocked = blocked.new; masks = neighbours.new; forced = forced.new; parent = parent.new; rank = rank.new; dirty = result }
        ≡ edit_of at.w at.h diagonal (record { blocked = blocked.old; masks = neighbours.old; forced = forced.old; parent = parent.old; rank = rank.old; dirty = dirty }) at.x at.y b }
{
    let marks = refresh::blocks_free(blocked, at.number(), b);
    if !marks {
        joins::join(at, blocked, parent, rank, joins::around(diagonal));
    }
    refresh::edit_cell(at, diagonal, blocked, neighbours, forced, b);
    marks || dirty
}
