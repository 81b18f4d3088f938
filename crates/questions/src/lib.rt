// The questions about components, over the cells' numbers: w * h stands for a point outside. The state is legal, and is not tested.
#![tactic(auto)]

ghost use Rattle.std.specs.Prelude.{◌≡◌, not, ◌*◌, ◌<◌};
ghost use Rattle.components.specs.Components.{Forest};
ghost use Rattle.cells.specs.Cells.{cell_to, Sides};
ghost use Rattle.joins.specs.Joins.{Ways};
ghost use Rattle.questions.specs.Questions.{rooted_of, reachable_of, near_along, near_of, neighbours_reachable_of, neighbours_unreachable_of};

use cells::{Size, Spot};

// Whether c is a cell whose root is r.
fn rooted(parent: &[u16], rank: &[u8], n: usize, r: usize, c: usize) -> bool
    requires { Forest 200 n parent.now rank.now }
    ensures { result ≡ rooted_of n parent.now r c }
{
    c < n && r == components::find(parent, rank, n, c)
}

// Whether two cells share a component. No where one is outside. Two with one parent do: the usual case after a rebuild, and no walk.
pub fn reachable(parent: &[u16], rank: &[u8], n: usize, a: usize, c: usize) -> bool
    requires { Forest 200 n parent.now rank.now }
    ensures { result ≡ reachable_of n parent.now a c }
{
    if n <= a || n <= c {
        return false;
    }
    parent[a] == parent[c] || rooted(parent, rank, n, components::find(parent, rank, n, a), c)
}

// Whether they do not. Yes where one is outside.
pub fn unreachable(parent: &[u16], rank: &[u8], n: usize, a: usize, c: usize) -> bool
    requires { Forest 200 n parent.now rank.now }
    ensures { result ≡ not (reachable_of n parent.now a c) }
{
    !reachable(parent, rank, n, a, c)
}

// Whether the neighbour of a cell in direction d is inside and has the root r.
#[tactic(auto, using(crate::proofs::Answers::next_in, crate::proofs::Answers::next_out))]
fn next_rooted(at: Spot, parent: &[u16], rank: &[u8], r: usize, d: u8) -> bool
    requires { (d < 8) × Forest 200 (at.w * at.h) parent.now rank.now }
    ensures { result ≡ rooted_of (at.w * at.h) parent.now r (cell_to at.w at.h at.x at.y d) }
{
    match at.next(d) {
        Some(c) => r == components::find(parent, rank, at.w * at.h, c),
        None => false,
    }
}

// Whether a neighbour of a cell in one of the directions ds is inside and has the root r.
fn near_along(at: Spot, parent: &[u16], rank: &[u8], r: usize, ds: &[u8]) -> bool
    requires { Ways ds.now × Forest 200 (at.w * at.h) parent.now rank.now }
    ensures { result ≡ near_along at.w at.h parent.now r at.x at.y ds.now }
{
    ds.iter().any(|d| next_rooted(at, parent, rank, r, *d))
}

// Whether some inside neighbour of c, of eight or four, free or not, shares a's component.
fn near(size: Size, diagonal: bool, parent: &[u16], rank: &[u8], a: usize, c: usize) -> bool
    requires { Forest 200 (size.w * size.h) parent.now rank.now × (a < size.w * size.h) × (c < size.w * size.h) }
    ensures { result ≡ near_of size.w size.h diagonal parent.now a c }
{
    let root = components::find(parent, rank, size.area(), a);
    near_along(size.cell(c), parent, rank, root, joins::around(diagonal))
}

// Whether some inside neighbour of the goal c shares the component of the start a. Yes where one is outside.
pub fn neighbours_reachable(
    w: usize,
    h: usize,
    diagonal: bool,
    parent: &[u16],
    rank: &[u8],
    a: usize,
    c: usize,
) -> bool
    requires { Sides w h × Forest 200 (w * h) parent.now rank.now }
    ensures { result ≡ neighbours_reachable_of w h diagonal parent.now a c }
{
    let n = w * h;
    n <= a || n <= c || near(Size { w, h }, diagonal, parent, rank, a, c)
}

// Whether none does. Yes, too, where one is outside.
pub fn neighbours_unreachable(
    w: usize,
    h: usize,
    diagonal: bool,
    parent: &[u16],
    rank: &[u8],
    a: usize,
    c: usize,
) -> bool
    requires { Sides w h × Forest 200 (w * h) parent.now rank.now }
    ensures { result ≡ neighbours_unreachable_of w h diagonal parent.now a c }
{
    let n = w * h;
    n <= a || n <= c || !near(Size { w, h }, diagonal, parent, rank, a, c)
}
