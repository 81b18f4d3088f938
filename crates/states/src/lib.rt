// The test behind STATE, over lent slices: a cell's parent, and its rank.
#![tactic(auto)]

ghost use Rattle.std.specs.Prelude.{◌≡◌, ℕ, true, ◌+◌, ◌≤◌, ◌<◌, ◌^◌, length, get_or};
ghost use Rattle.states.specs.States.{all_to, cell_ok, state_ok};
ghost use Rattle.states.specs.Blocks.{Each, Near, NextRoot};

// Whether cell i has a rank of at most 200, and is its own parent or has one of higher rank.
fn cell_ok(parent: &[u16], rank: &[u8], n: usize, i: usize) -> bool
    requires { (i < n) × (n ≤ length parent.now) × (n ≤ length rank.now) }
    ensures { result ≡ cell_ok n parent.now rank.now i }
{
    let low = rank[i];
    let up = usize::from(parent[i]);
    low <= 200 && (up == i || up < n && low < rank[up])
}

// The highest rank of some cells: sixteen at once, once compiled.
fn highest(rank: &[u8]) -> u8
    ensures { (i : ℕ) → i < length rank.now → get_or rank.now i 0 ≤ result }
{
    let mut top = 0;
    for low in rank {
        top = top.max(*low);
    }
    top
}

// Whether each of the 64 cells from `from` on is its own parent or, where `tied`, has the parent `root`. No early exit: eight cells at once, once compiled.
fn near(parent: &[u16], from: usize, root: u16, tied: bool) -> bool
    requires { (from + 64 ≤ length parent.now) × (from + 64 ≤ 2 ^ 16) }
    ensures { result ≡ true → Each from 64 (Near parent.now root tied) }
{
    let mut ok = true;
    for j in 0..64 {
        let i = from + j;
        let up = parent[i];
        ok &= up == i as u16 || up == root && tied;
    }
    ok
}

// Whether a glance shows the 64 cells from `from` on to be legal: no rank is above 200, and each is its own parent or a child of `root`, a cell of higher rank than them all. False says nothing; a first cell that is neither saves the look at the others.
fn plain(parent: &[u16], rank: &[u8], n: usize, from: usize, root: usize) -> bool
    requires { (n ≤ length parent.now) × (n ≤ length rank.now) × (from + 64 ≤ n) × (from + 64 ≤ 2 ^ 16) × (root < n) × (root < 2 ^ 16) }
    ensures { result ≡ true → Each from 64 (λ i. cell_ok n parent.now rank.now i ≡ true) }
{
    let first = usize::from(parent[from]);
    if first != from && first != root {
        return false;
    }
    let top = highest(&rank[from..from + 64]);
    top <= 200 && near(parent, from, root as u16, top < rank[root])
}

// Whether the cells up to `to` are legal, where those up to `from` are.
fn cells_ok(parent: &[u16], rank: &[u8], n: usize, from: usize, to: usize) -> bool
    requires { (n ≤ length parent.now) × (n ≤ length rank.now) × (from ≤ to) × (to ≤ n) × (all_to (cell_ok n parent.now rank.now) from ≡ true) }
    ensures { result ≡ all_to (cell_ok n parent.now rank.now) to }
{
    (from..to).all(|i| cell_ok(parent, rank, n, i))
}

// The root to guess after the 64 cells from `from` on, or none where one of them is illegal. A block that is not plain is tested cell by cell, and its last parent is the new guess.
fn next_root(parent: &[u16], rank: &[u8], n: usize, from: usize, root: usize) -> Option<usize>
    requires { (n ≤ length parent.now) × (n ≤ length rank.now) × (from + 64 ≤ n) × (from + 64 ≤ 2 ^ 16) × (root < n) × (root < 2 ^ 16)
        × (all_to (cell_ok n parent.now rank.now) from ≡ true) }
    ensures { NextRoot n parent.now rank.now (from + 64) result }
{
    if plain(parent, rank, n, from, root) {
        return Some(root);
    }
    if cells_ok(parent, rank, n, from, from + 64) {
        return Some(usize::from(parent[from + 63]));
    }
    None
}

// Whether the first n cells are a legal state: the test behind STATE. In blocks of 64 below 65536, where a cell's number is a u16 as its parent is.
pub fn state_ok(parent: &[u16], rank: &[u8], n: usize) -> bool
    requires { (n ≤ length parent.now) × (n ≤ length rank.now) }
    ensures { result ≡ state_ok n parent.now rank.now }
{
    let blocks = n.min(65536) / 64;
    let mut root = 0;
    for b in 0..blocks {
        let Some(next) = next_root(parent, rank, n, 64 * b, root) else {
            return false;
        };
        root = next;
    }
    cells_ok(parent, rank, n, 64 * blocks, n)
}
