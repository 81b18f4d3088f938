// The search fringe: Rust's BinaryHeap over two lent slices, keys and indexes.
#![tactic(auto)]

ghost use Rattle.std.specs.Prelude.{◌≡◌, ◌+◌, ◌-◌, ◌<◌, ◌≤◌, length, take, drop};
ghost use Rattle.sifts.specs.Sifts.{entry, entries, down};
ghost use Rattle.fringe.specs.Fringe.{push, top, rest};

use sifts::Entry;

// BinaryHeap's sift_down_to_bottom(0) on the first `n` entries: the hole at 0 sinks to a leaf, and the entry rises from there.
fn sink(keys: &mut [u64], idx: &mut [u32], n: usize, key: u64, index: u32)
    requires { (0 < n) × (n ≤ length keys.old) × (n ≤ length idx.old) }
    ensures { (entries keys.new idx.new ≡ down n n (entries keys.old idx.old) 0 (entry key index)) × (drop n keys.new ≡ drop n keys.old) × (drop n idx.new ≡ drop n idx.old) }
{
    let mut pos = 0;
    let mut child = 1;
    while child + 1 < n {
        let best = sifts::larger(keys, child);
        sifts::shift(keys, idx, best, pos);
        pos = best;
        child = 2 * best + 1;
    }
    if child < n {
        sifts::shift(keys, idx, child, pos);
        sifts::rise(keys, idx, child, key, index);
        return;
    }
    sifts::rise(keys, idx, pos, key, index);
}

// Adds an entry to the heap of the first `n` entries.
pub fn push(keys: &mut [u64], idx: &mut [u32], n: usize, key: u64, index: u32)
    requires { (n < length keys.old) × (n < length idx.old) }
    ensures { (take (n + 1) (entries keys.new idx.new) ≡ push (take n (entries keys.old idx.old)) (entry key index)) × (drop (n + 1) keys.new ≡ drop (n + 1) keys.old) × (drop (n + 1) idx.new ≡ drop (n + 1) idx.old) }
{
    sifts::rise(keys, idx, n, key, index)
}

// Takes the largest entry out of the heap of the first `n` entries; the first `n - 1` are the heap then.
pub fn pop(keys: &mut [u64], idx: &mut [u32], n: usize) -> Entry
    requires { (0 < n) × (n ≤ length keys.old) × (n ≤ length idx.old) }
    ensures { (result ≡ top (take n (entries keys.old idx.old))) × (take (n - 1) (entries keys.new idx.new) ≡ rest (take n (entries keys.old idx.old))) × (drop (n - 1) keys.new ≡ drop (n - 1) keys.old) × (drop (n - 1) idx.new ≡ drop (n - 1) idx.old) }
{
    let last = n - 1;
    let key = keys[last];
    let index = idx[last];
    if last == 0 {
        return Entry { key, index };
    }
    let head = keys[0];
    let first = idx[0];
    sink(keys, idx, last, key, index);
    Entry {
        key: head,
        index: first,
    }
}
