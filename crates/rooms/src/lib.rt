// The lent working room of a search: cleared, and with the start in it. What it held before is lost.
#![tactic(auto)]

ghost use Rattle.std.specs.Prelude.{◌≡◌, ◌+◌, ◌≤◌};
ghost use Rattle.offers.specs.Search.{Sides, Stays, area_of, view, begin};
ghost use Rattle.rooms.specs.Rooms.{Room};

use goals::Plan;
use offers::Work;

// The start's place is the only node, and has estimate 0.
pub fn start_at(work: &mut Work<'_>, p: Plan, start: usize)
    requires { Room p work.old × (Sides p × ((1 ≤ p.settings.fringe) × (start ≤ area_of p))) }
    ensures stays { Stays work.old work.new }
    ensures begun { view work.new ≡ begin (area_of p + 1) start }
{
    work.number.fill(0);
    let r = nodes::note(
        work.number,
        work.place,
        work.parent,
        work.cost,
        0,
        start,
        0,
        0,
    );
    let key = keys::key_of(0, 0);
    fringe::push(work.keys, work.idx, 0, key, 0);
    work.count = r.count;
    work.heap = 1;
}
