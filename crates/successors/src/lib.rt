// What an expansion is made of: a node's parent, the next direction of a mask, whether a cell is expanded again, and a successor that is offered.
#![tactic(auto)]

ghost use Rattle.std.specs.Prelude.{◌≡◌, true, ◌%◌, ◌^◌, ◌<◌, ◌≤◌, length};
ghost use Rattle.masks.specs.Masks.{has_bit};
ghost use Rattle.goals.specs.Goals.{Aimed};
ghost use Rattle.offers.specs.Search.{Lent, Stays, out_of, view};
ghost use Rattle.stops.specs.Stops.{Sized, Marked, Inside};
ghost use Rattle.successors.specs.Successors.{parent_of, Clear, again_at, give_of};

use goals::Plan;
use offers::Work;
use points::Refusal;
use stops::Cell;

// The recorded parent of a node, by its number. The start, which is node 0, has none.
pub fn parent_of(work: &Work<'_>, from: usize) -> Option<usize>
    requires { from < length work.now.parent.now }
    ensures { result ≡ parent_of work.now.parent.now from }
{
    if from == 0 {
        return None;
    }
    Some(work.parent[from] as usize)
}

// The next direction that a mask has, of those at or after the given one; 8 where there is none.
pub fn next_of(mask: u8, from: u8) -> u8
    requires { from ≤ 8 }
    ensures { Clear mask from result × (result < 8 → has_bit mask (result % 8) ≡ true) }
{
    for e in from..8 {
        if masks::bit(mask, e) {
            return e;
        }
    }
    8
}

// Whether a cell that was reached in direction e is expanded again.
pub fn again(forced: &[u8], goals: &[i32], p: Plan, e: u8, c: Cell) -> bool
    requires { Sized forced.now p.w p.h × (Aimed goals.now p × (Marked p × Inside p c)) }
    ensures { result ≡ again_at forced.now goals.now p e c }
{
    p.settings.improved && e % 2 == 1 && !stops::stops(forced, goals, &p, e, c)
}

// Offers a cell to the search at the cost k, with the node `from` as its parent.
pub fn give(
    goals: &[i32],
    work: &mut Work<'_>,
    p: Plan,
    from: usize,
    c: Cell,
    k: u64,
) -> Result<(), Refusal>
    requires { Lent goals.now p work.old × (Inside p c × ((from < length work.old.number.now) × (k < 2 ^ 40))) }
    ensures stays { Stays work.old work.new }
    ensures given { out_of result work.new ≡ give_of goals.now p from c k (view work.old) }
{
    let cell = c.number(p.w);
    let at = c.spot();
    work.offer(goals, p, from, cell, at, k)
}
