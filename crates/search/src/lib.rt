// The search's loop over lent tables and lent working room.
#![tactic(auto)]

ghost use Rattle.std.specs.Prelude.{◌≡◌, ◌+◌, ◌^◌, ◌<◌, ◌≤◌, T};
ghost use Rattle.points.specs.Plane.{legal};
ghost use Rattle.fringe.specs.Fringe.{top};
ghost use Rattle.offers.specs.Search.{Lent, Stays, area_of, out_of, view, visit_of, turn_of, popped};
ghost use Rattle.rooms.specs.Rooms.{Room};
ghost use Rattle.expansion.specs.Expand.{tables, Floors, Backed};
ghost use Rattle.expansion.specs.Start.{yield_of};
ghost use Rattle.search.specs.Loop.{edge_in, Legal, GoodIn, goal_of, search_for, turn_as, reply_of};

use goals::Plan;
use offers::Work;
use points::Refusal;

// A popped goal: its node and its cost.
#[derive(Clone, Copy, PartialEq, Eq)]
pub struct Hit {
    pub node: usize,
    pub cost: u64,
}

// What a search comes to: its pops, and the popped goal or a refusal.
#[derive(Clone, Copy)]
pub struct Reply {
    pub pops: usize,
    pub outcome: Result<Hit, Refusal>,
}

// Expands a popped node, unless its cost is above the recorded one.
fn visit(
    blocked: &[u8],
    neighbours: &[u8],
    forced: &[u8],
    goals: &[i32],
    work: &mut Work<'_>,
    p: Plan,
    from: usize,
    k: u64,
) -> Result<(), Refusal>
    requires { Lent goals.now p work.old × (Floors (tables blocked.now neighbours.now forced.now goals.now) p × (T (legal p.start) × ((from < work.old.count) × ((0 < from → Backed p work.old from) × (k + edge_in p < 2 ^ 40))))) }
    ensures stays { Stays work.old work.new }
    ensures visited { out_of result work.new ≡ visit_of (yield_of (tables blocked.now neighbours.now forced.now goals.now) p) from k (view work.old) }
{
    if work.cost[from] < k {
        return Ok(());
    }
    expansion::expand_node(blocked, neighbours, forced, goals, work, p, from, k)
}

// Whether the point of a place is a goal.
fn at_goal(goals: &[i32], p: Plan, place: usize) -> bool
    requires { Legal goals.now p × (place ≤ area_of p) }
    ensures { result ≡ goal_of goals.now p place }
{
    if place < p.h * p.w {
        return stops::hits(goals, &p, place);
    }
    goals::is_goal(goals, p, p.start)
}

// One pop: a goal, which is returned, ends the search; any other node is visited. Refuses what the visit refuses.
fn pop_one(
    blocked: &[u8],
    neighbours: &[u8],
    forced: &[u8],
    goals: &[i32],
    work: &mut Work<'_>,
    p: Plan,
) -> Result<Option<Hit>, Refusal>
    requires { Lent goals.now p work.old × (Floors (tables blocked.now neighbours.now forced.now goals.now) p × (Legal goals.now p × ((0 < work.old.heap) × GoodIn p (view work.old)))) }
    ensures stays { Stays work.old work.new }
    ensures popped { turn_as result work.new ≡ turn_of (yield_of (tables blocked.now neighbours.now forced.now goals.now) p) (goal_of goals.now p) (top (view work.old).heap) (popped (view work.old)) }
{
    let e = fringe::pop(work.keys, work.idx, work.heap);
    work.heap -= 1;
    let node = e.index as usize;
    let cost = keys::cost_of(e.key);
    if at_goal(goals, p, work.place[node] as usize) {
        return Ok(Some(Hit { node, cost }));
    }
    visit(blocked, neighbours, forced, goals, work, p, node, cost)?;
    Ok(None)
}

// Searches from the start's place until a goal is popped, or refuses. No answer depends on what the room held.
pub fn search(
    blocked: &[u8],
    neighbours: &[u8],
    forced: &[u8],
    goals: &[i32],
    work: &mut Work<'_>,
    p: Plan,
    start: usize,
) -> Reply
    requires { Room p work.old × (Legal goals.now p × (Floors (tables blocked.now neighbours.now forced.now goals.now) p × (start ≤ area_of p))) }
    ensures stays { Stays work.old work.new }
    ensures searched { reply_of result work.new ≡ search_for (tables blocked.now neighbours.now forced.now goals.now) p start }
{
    rooms::start_at(work, p, start);
    let limit = p.settings.pops;
    let mut pops = 0;
    while 0 < work.heap {
        if limit <= pops {
            return Reply {
                pops,
                outcome: Err(Refusal::Pops),
            };
        }
        pops += 1;
        match pop_one(blocked, neighbours, forced, goals, work, p) {
            Ok(None) => {}
            Ok(Some(hit)) => {
                return Reply {
                    pops,
                    outcome: Ok(hit),
                };
            }
            Err(w) => {
                return Reply {
                    pops,
                    outcome: Err(w),
                };
            }
        }
    }
    Reply {
        pops,
        outcome: Err(Refusal::Exhausted),
    }
}
