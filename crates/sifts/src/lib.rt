// The entries of Rust's BinaryHeap over two lent slices, keys and indexes: a copy, the larger child, and sift_up.
#![tactic(auto)]

ghost use Rattle.std.specs.Prelude.{◌≡◌, ◌+◌, ◌<◌, ◌≤◌, length, drop, set, get_or};
ghost use Rattle.sifts.specs.Sifts.{entry, entries, up, larger_of};

// What the heap orders: the largest key is popped first; the index rides along.
#[repr(C)]
#[derive(Clone, Copy, PartialEq, Eq)]
pub struct Entry {
    pub key: u64,
    pub index: u32,
}

// Stores an entry.
fn put(keys: &mut [u64], idx: &mut [u32], at: usize, key: u64, index: u32)
    requires { (at < length keys.old) × (at < length idx.old) }
    ensures { (keys.new ≡ set keys.old at key) × (idx.new ≡ set idx.old at index) }
{
    keys[at] = key;
    idx[at] = index;
}

// Copies the entry at `from` to the hole at `to`.
pub fn shift(keys: &mut [u64], idx: &mut [u32], from: usize, to: usize)
    requires { (from < length keys.old) × (from < length idx.old) × (to < length keys.old) × (to < length idx.old) }
    ensures { (keys.new ≡ set keys.old to (get_or keys.old from 0)) × (idx.new ≡ set idx.old to (get_or idx.old from 0)) }
{
    keys[to] = keys[from];
    idx[to] = idx[from];
}

// BinaryHeap's sift_up with start 0: the hole at `at` rises until `key` is in place.
pub fn rise(keys: &mut [u64], idx: &mut [u32], at: usize, key: u64, index: u32)
    requires { (at < length keys.old) × (at < length idx.old) }
    ensures { (entries keys.new idx.new ≡ up at (entries keys.old idx.old) at (entry key index)) × (drop (at + 1) keys.new ≡ drop (at + 1) keys.old) × (drop (at + 1) idx.new ≡ drop (at + 1) idx.old) }
{
    let mut pos = at;
    while 0 < pos {
        let parent = (pos - 1) / 2;
        if key <= keys[parent] {
            put(keys, idx, pos, key, index);
            return;
        }
        shift(keys, idx, parent, pos);
        pos = parent;
    }
    put(keys, idx, pos, key, index);
}

// The child that has the larger key, the second on a tie.
pub fn larger(keys: &[u64], child: usize) -> usize
    requires { child + 1 < length keys.now }
    ensures { (result ≡ larger_of keys.now child) × (child ≤ result) × (result ≤ child + 1) }
{
    child + (keys[child] <= keys[child + 1]) as usize
}
