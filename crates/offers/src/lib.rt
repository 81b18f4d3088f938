// Offering a successor to a search: it is recorded if it is new or strictly cheaper, and then pushed onto the fringe.
#![tactic(auto)]

ghost use Rattle.std.specs.Prelude.{◌≡◌, ◌^◌, ◌<◌, ◌≤◌, length};
ghost use Rattle.goals.specs.Goals.{point_of};
ghost use Rattle.offers.specs.Search.{Sides, Lent, Stays, area_of, place_point, guess_at, out_of, view, offer_of};

use goals::Plan;
use points::{Point, Refusal};

// The lent working room of a search: its nodes and its fringe, and how many there are of each.
#[derive(Drop)]
pub struct Work<'a> {
    pub number: &'a mut [u32],
    pub place: &'a mut [u32],
    pub parent: &'a mut [u32],
    pub cost: &'a mut [u64],
    pub keys: &'a mut [u64],
    pub idx: &'a mut [u32],
    pub count: usize,
    pub heap: usize,
}

// The point of a place: a cell, or after the last cell the start.
pub fn place_point(p: Plan, place: usize) -> Point
    requires { Sides p × (place ≤ area_of p) }
    ensures { result ≡ place_point p place }
{
    if place == p.h * p.w {
        return p.start;
    }
    goals::point_of(p.w, place)
}

impl Work<'_> {
    // Offers a cell, whose point is `at`, that is reached from node `from` at the cost k. Refuses FRINGE.
    pub fn offer(
        &mut self,
        goals: &[i32],
        p: Plan,
        from: usize,
        cell: usize,
        at: Point,
        k: u64,
    ) -> Result<(), Refusal>
        requires { Lent goals.now p self.old × ((cell < area_of p) × ((at ≡ point_of p.w cell) × ((from < length self.old.number.now) × (k < 2 ^ 40)))) }
        ensures stays { Stays self.old self.new }
        ensures offered { out_of result self.new ≡ offer_of p.settings.fringe (guess_at goals.now p cell) from cell k (view self.old) }
    {
        let r = nodes::note(
            self.number,
            self.place,
            self.parent,
            self.cost,
            self.count,
            cell,
            from,
            k,
        );
        self.count = r.count;
        if r.kept {
            if p.settings.fringe <= self.heap {
                return Err(Refusal::Fringe);
            }
            let h = goals::guess(goals, p, at);
            let key = keys::key_of(k + h, h);
            fringe::push(self.keys, self.idx, self.heap, key, r.index as u32);
            self.heap += 1;
        }
        Ok(())
    }
}
