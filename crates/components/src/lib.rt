// The union-find of the components, over lent slices: a cell's parent, and its rank.
#![tactic(auto)]

ghost use Rattle.std.specs.Prelude.{◌≡◌, not, ◌≤◌, ◌<◌, ◌^◌, length, get_or, eqb};
ghost use Rattle.components.specs.Components.{Forest, root_of, halve, linked, united};

// The root of a cell. The ranks only say that the walk ends.
pub fn find(parent: &[u16], rank: &[u8], n: usize, start: usize) -> usize
    requires { Forest 255 n parent.now rank.now × (start < n) }
    ensures { result ≡ root_of parent.now start }
{
    let mut x = start;
    let mut up = parent[x] as usize;
    while up != x {
        x = up;
        up = parent[x] as usize;
    }
    x
}

// The root of a cell, with the way to it halved.
pub fn find_mut(parent: &mut [u16], rank: &[u8], n: usize, start: usize) -> usize
    requires { Forest 255 n parent.old rank.now × (start < n) }
    ensures { (result ≡ root_of parent.old start) × (parent.new ≡ halve parent.old start) }
{
    let mut x = start;
    let mut up = parent[x] as usize;
    while up != x {
        let grand = parent[up] as usize;
        stores::store_parent(parent, x, up, grand);
        x = up;
        up = grand;
    }
    x
}

// The lower of two roots goes below the higher. The caller's roots differ, so each store changes its entry: a root is its own parent, and a rank rises.
#[tactic(auto, unfolding(crate::specs::Components::linked))]
fn link(parent: &mut [u16], rank: &mut [u8], a: usize, b: usize)
    requires a_in_bounds { (a < length parent.old) × (b < length parent.old) × (a < length rank.old) × (b < length rank.old) }
    requires a_bound { (a < 2 ^ 16) × (b < 2 ^ 16) × (get_or rank.old a 0 < 255) }
    ensures { (parent.new ≡ (linked parent.old rank.old a b).parent)
        × (rank.new ≡ (linked parent.old rank.old a b).rank) }
{
    let ra = rank[a];
    let rb = rank[b];
    if ra < rb {
        parent[a] = b as u16;
    } else {
        parent[b] = a as u16;
        if ra == rb {
            rank[a] = ra + 1;
        }
    }
}

// Joins the components of two cells, and says whether they were two.
pub fn union(parent: &mut [u16], rank: &mut [u8], n: usize, x: usize, y: usize) -> bool
    requires { Forest 254 n parent.old rank.old × (n ≤ 2 ^ 16) × (x < n) × (y < n) }
    ensures { (parent.new ≡ (united parent.old rank.old x y).parent)
        × (rank.new ≡ (united parent.old rank.old x y).rank)
        × (result ≡ not (eqb (root_of parent.old x) (root_of parent.old y))) }
{
    if x == y {
        return false;
    }
    let a = find_mut(parent, rank, n, x);
    let b = find_mut(parent, rank, n, y);
    if a == b {
        return false;
    }
    link(parent, rank, a, b);
    true
}
