// The joins of a cell with its free neighbours, over lent slices. The state is legal, and is not tested.
#![tactic(auto)]

ghost use Rattle.std.specs.Prelude.{◌≡◌, ◌+◌, ◌*◌, ◌≤◌, ◌<◌, length};
ghost use Rattle.components.specs.Components.{Forest};
ghost use Rattle.cells.specs.Cells.{cell_to};
ghost use Rattle.joins.specs.Joins.{Ways, around, ahead, join_cell, joined_to};

use cells::Spot;

// The directions of an edit's joins: the neighbourhood, in its order.
#[tactic(auto, using(crate::proofs::Joins::ways_around), unfolding(crate::specs::Joins::around))]
pub fn around(diagonal: bool) -> &'static [u8]
    ensures order { result.now ≡ around diagonal }
    ensures ways { Ways result.now }
{
    if diagonal {
        &[0, 1, 2, 3, 4, 5, 6, 7]
    } else {
        &[0, 2, 4, 6]
    }
}

// The directions of a rebuild's joins: below, above and to the right.
#[tactic(auto, using(crate::proofs::Joins::ways_ahead), unfolding(crate::specs::Joins::ahead))]
pub fn ahead(diagonal: bool) -> &'static [u8]
    ensures order { result.now ≡ ahead diagonal }
    ensures ways { Ways result.now }
{
    if diagonal {
        &[4, 0, 2, 1, 2, 3]
    } else {
        &[4, 0, 2]
    }
}

// A cell is joined with its neighbour in direction d, where that is inside and free.
#[tactic(auto, unfolding(crate::specs::Joins::join_cell))]
fn join_next(at: Spot, blocked: &[u8], parent: &mut [u16], rank: &mut [u8], d: u8)
    requires { Forest 254 (at.w * at.h) parent.old rank.old × (at.w * at.h ≤ length blocked.now) × (d < 8) }
    ensures { record { parent = parent.new; rank = rank.new }
        ≡ join_cell (at.w * at.h) blocked.now (at.y * at.w + at.x) (cell_to at.w at.h at.x at.y d) (record { parent = parent.old; rank = rank.old }) }
{
    if let Some(c) = at.next(d) {
        if blocked[c] == 0 {
            components::union(parent, rank, at.w * at.h, at.number(), c);
        }
    }
}

// A cell is joined with its free neighbours in the directions ds, in order.
pub fn join(at: Spot, blocked: &[u8], parent: &mut [u16], rank: &mut [u8], ds: &[u8])
    requires { Ways ds.now × (at.w * at.h ≤ length blocked.now) × Forest 200 (at.w * at.h) parent.old rank.old }
    ensures { record { parent = parent.new; rank = rank.new } ≡ joined_to at.w at.h blocked.now at.x at.y ds.now (record { parent = parent.old; rank = rank.old }) }
{
    for d in ds {
        join_next(at, blocked, parent, rank, *d);
    }
}
