// The rebuild of a grid's components over lent slices, and the update, which rebuilds if dirty. The state is legal where it is asked for, and is not tested.
#![tactic(auto)]

ghost use Rattle.std.specs.Prelude.{◌≡◌, false, cond, ◌*◌, ◌≤◌, ◌<◌, length};
ghost use Rattle.components.specs.Components.{Forest, Light};
ghost use Rattle.rebuilds.specs.Rebuilds.{most_rank, cell_joined, column_to, rebuilt_links};

use cells::{Size, Spot};

// A rebuild at one cell.
#[tactic(auto, unfolding(crate::specs::Rebuilds::cell_joined))]
fn rebuild_cell(at: Spot, diagonal: bool, blocked: &[u8], parent: &mut [u16], rank: &mut [u8])
    requires { (at.w * at.h ≤ length blocked.now) × Forest 200 (at.w * at.h) parent.old rank.old }
    ensures { record { parent = parent.new; rank = rank.new } ≡ cell_joined at.w at.h diagonal blocked.now at.x at.y (record { parent = parent.old; rank = rank.old }) }
{
    if blocked[at.number()] == 0 {
        joins::join(at, blocked, parent, rank, joins::ahead(diagonal));
    }
}

// A rebuild at one column.
fn rebuild_column(
    size: Size,
    diagonal: bool,
    blocked: &[u8],
    parent: &mut [u16],
    rank: &mut [u8],
    x: usize,
)
    requires { (x < size.w) × (size.w * size.h ≤ length blocked.now) × Light most_rank (size.w * size.h) parent.old rank.old }
    ensures { record { parent = parent.new; rank = rank.new } ≡ column_to size.w size.h diagonal blocked.now x size.h (record { parent = parent.old; rank = rank.old }) }
{
    for y in 0..size.h {
        let at = Spot {
            w: size.w,
            h: size.h,
            x,
            y,
        };
        rebuild_cell(at, diagonal, blocked, parent, rank);
    }
}

// The components from the blocked cells alone: singletons, joined column by column.
pub fn rebuild(size: Size, diagonal: bool, blocked: &[u8], parent: &mut [u16], rank: &mut [u8])
    requires { (size.w * size.h ≤ length blocked.now) × (size.w * size.h ≤ length parent.old) × (size.w * size.h ≤ length rank.old) }
    ensures { record { parent = parent.new; rank = rank.new } ≡ rebuilt_links size.w size.h diagonal blocked.now parent.old rank.old }
{
    let n = size.area();
    fills::fill_ident(parent, n);
    fills::fill_zero(rank, n);
    for x in 0..size.w {
        rebuild_column(size, diagonal, blocked, parent, rank, x);
    }
}

// `update`: a rebuild if dirty. The answer is the mark afterwards.
pub fn update(
    size: Size,
    diagonal: bool,
    dirty: bool,
    blocked: &[u8],
    parent: &mut [u16],
    rank: &mut [u8],
) -> bool
    requires { (size.w * size.h ≤ length blocked.now) × (size.w * size.h ≤ length parent.old) × (size.w * size.h ≤ length rank.old) }
    ensures { (result ≡ false) × (record { parent = parent.new; rank = rank.new }
        ≡ cond dirty (rebuilt_links size.w size.h diagonal blocked.now parent.old rank.old) (record { parent = parent.old; rank = rank.old })) }
{
    if dirty {
        rebuild(size, diagonal, blocked, parent, rank);
    }
    false
}
