// The nodes of a search: a table from cell to insertion number, with one extra place for an outside start, and by insertion number the place, the parent and the cost.
#![tactic(auto)]

ghost use Rattle.std.specs.Prelude.{◌≡◌, ◌<◌};
ghost use Rattle.nodes.specs.Nodes.{Able, nodes, note, note_of};

// What recording a successor did: whether it was taken, its insertion number, and how many nodes there are now.
#[repr(C)]
#[derive(Clone, Copy, PartialEq, Eq)]
pub struct Noted {
    pub kept: bool,
    pub index: usize,
    pub count: usize,
}

// Records a cell with its cost and its parent if it is new or strictly cheaper; it keeps its first number.
pub fn note(
    number: &mut [u32],
    place: &mut [u32],
    parent: &mut [u32],
    cost: &mut [u64],
    count: usize,
    cell: usize,
    from: usize,
    k: u64,
) -> Noted
    requires { Able number.old place.old parent.old cost.old count cell from }
    ensures { note result.kept result.index (nodes number.new place.new parent.new cost.new result.count) ≡ note_of cell from k (nodes number.old place.old parent.old cost.old count) }
{
    let have = number[cell] as usize;
    if have == 0 {
        let next = count + 1;
        number[cell] = next as u32;
        place[count] = cell as u32;
        parent[count] = from as u32;
        cost[count] = k;
        return Noted {
            kept: true,
            index: count,
            count: next,
        };
    }
    let index = have - 1;
    if k < cost[index] {
        parent[index] = from as u32;
        cost[index] = k;
        return Noted {
            kept: true,
            index,
            count,
        };
    }
    Noted {
        kept: false,
        index,
        count,
    }
}
