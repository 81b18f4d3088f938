// One entry of a lent table, stored only where its value differs: a host may copy every byte that is stored to.
#![tactic(auto)]

ghost use Rattle.std.specs.Prelude.{◌≡◌, ◌^◌, ◌<◌, length, get_or, set};

// Entry i of a table of bytes becomes v.
pub fn store_byte(table: &mut [u8], i: usize, v: u8)
    requires { i < length table.old }
    ensures { table.new ≡ set table.old i v }
{
    if table[i] != v {
        table[i] = v;
    }
}

// The parent of cell i, which is old, becomes v: its two bytes are stored together, or neither is. A walk has old in hand, so it is not read again.
pub fn store_parent(parent: &mut [u16], i: usize, old: usize, v: usize)
    requires { (i < length parent.old) × (get_or parent.old i 0 ≡ old) × (v < 2 ^ 16) }
    ensures { parent.new ≡ set parent.old i v }
{
    if old != v {
        parent[i] = v as u16;
    }
}
