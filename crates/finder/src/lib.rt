// The searches over lent tables, whose state is legal and is not tested, with their refusals in order and their waypoints.
#![tactic(auto)]

ghost use Rattle.std.specs.Prelude.{◌≡◌, ◌+◌, ◌*◌, length, take};
ghost use Rattle.components.specs.Components.{Forest};
ghost use Rattle.cells.specs.Cells.{Sides};
ghost use Rattle.search.specs.Loop.{Legal};
ghost use Rattle.trails.specs.Trail.{wrote_of, left_in};
ghost use Rattle.finder.specs.Find.{Covered, Roomy, lent_ground, lengths_of, early, answer_of, out_after, started_of, told_of, hit_route, Traceable, single_plan, single_of, several_plan, several_of};

use costs::Settings;
use goals::{Goal, Plan};
use offers::Work;
use plans::Lengths;
use points::{Point, Refusal};
use search::{Hit, Reply};

// What was found: how many waypoints were written, and the cost at the goal's pop.
#[derive(Clone, Copy, PartialEq, Eq)]
pub struct Found {
    pub length: usize,
    pub cost: u64,
}

// What a search answers: its pops, 0 if it was refused before searching, and what was found, or a refusal.
#[derive(Clone, Copy)]
pub struct Answer {
    pub pops: usize,
    pub outcome: Result<Found, Refusal>,
}

// A refusal before searching.
pub fn refused(w: Refusal) -> Answer
    ensures { result ≡ early w }
{
    Answer {
        pops: 0,
        outcome: Err(w),
    }
}

// Writes the waypoints to a popped goal, or ROOM.
fn traced(
    place: &[u32],
    parent: &[u32],
    cost: &[u64],
    out: &mut [i32],
    p: Plan,
    count: usize,
    hit: Hit,
) -> Result<Found, Refusal>
    requires { Traceable p place.now parent.now cost.now count hit }
    ensures { (result ≡ told_of hit.cost (wrote_of (length out.old) (hit_route parent.now cost.now count hit))) × (out.new ≡ left_in out.old p (take count place.now) (hit_route parent.now cost.now count hit)) }
{
    let length = trails::write_route(
        &place[..count],
        &parent[..count],
        &cost[..count],
        p,
        count,
        hit.node,
        out,
    )?;
    Ok(Found {
        length,
        cost: hit.cost,
    })
}

// Searches from the plan's start and writes the waypoints, or ROOM.
fn find(
    blocked: &[u8],
    neighbours: &[u8],
    forced: &[u8],
    goals: &[i32],
    number: &mut [u32],
    place: &mut [u32],
    parent: &mut [u32],
    cost: &mut [u64],
    keys: &mut [u64],
    idx: &mut [u32],
    out: &mut [i32],
    p: Plan,
) -> Answer
    requires { Legal goals.now p × (Covered (p.w * p.h) blocked.now neighbours.now forced.now × Roomy (p.w * p.h + 1) p.settings.fringe number.old place.old parent.old cost.old keys.old idx.old) }
    ensures { (result ≡ answer_of (length out.old) (started_of blocked.now neighbours.now forced.now goals.now p)) × (out.new ≡ out_after out.old p (started_of blocked.now neighbours.now forced.now goals.now p)) }
{
    let n = p.w * p.h;
    let start = cells::cell_of(p.w, p.h, p.start);
    let mut work = Work {
        number: &mut number[..n + 1],
        place,
        parent,
        cost,
        keys,
        idx,
        count: 0,
        heap: 0,
    };
    let Reply { pops, outcome } = search::search(
        &blocked[..n],
        &neighbours[..n],
        &forced[..n],
        goals,
        &mut work,
        p,
        start,
    );
    match outcome {
        Ok(hit) => {
            let Work {
                place,
                parent,
                cost,
                count,
                ..
            } = work;
            Answer {
                pops,
                outcome: traced(place, parent, cost, out, p, count, hit),
            }
        }
        Err(w) => Answer {
            pops,
            outcome: Err(w),
        },
    }
}

// The search for one goal, exact or approximate. Refuses SETTING, POINT, NO_ROUTE, what the search meets, ROOM.
pub fn single_goal(
    blocked: &[u8],
    neighbours: &[u8],
    forced: &[u8],
    links: &[u16],
    ranks: &[u8],
    number: &mut [u32],
    place: &mut [u32],
    parent: &mut [u32],
    cost: &mut [u64],
    keys: &mut [u64],
    idx: &mut [u32],
    out: &mut [i32],
    w: usize,
    h: usize,
    s: Settings,
    start: Point,
    goal: Point,
    approximate: bool,
) -> Answer
    requires { Sides w h × (Covered (w * h) blocked.now neighbours.now forced.now × Forest 200 (w * h) links.now ranks.now) }
    ensures { (result ≡ answer_of (length out.old) (single_of (lent_ground w h blocked.now neighbours.now forced.now) links.now s (lengths_of number.old place.old parent.old cost.old keys.old idx.old) approximate start goal)) × (out.new ≡ out_after out.old (single_plan w h s approximate start goal) (single_of (lent_ground w h blocked.now neighbours.now forced.now) links.now s (lengths_of number.old place.old parent.old cost.old keys.old idx.old) approximate start goal)) }
{
    let l = Lengths {
        number: number.len(),
        place: place.len(),
        parent: parent.len(),
        cost: cost.len(),
        keys: keys.len(),
        idx: idx.len(),
    };
    if !plans::ready(s, l, w * h + 1) {
        return refused(Refusal::Setting);
    }
    if !start.legal() {
        return refused(Refusal::BadPoint(start));
    }
    if !goal.legal() {
        return refused(Refusal::BadPoint(goal));
    }
    if plans::barred(links, ranks, w, h, s.diagonal, approximate, start, goal) {
        return refused(Refusal::NoRoute);
    }
    let kind = plans::kind_of(approximate, goal);
    let p = plans::plan(w, h, s, kind, start);
    let goals = [goal.x, goal.y];
    find(
        blocked, neighbours, forced, &goals, number, place, parent, cost, keys, idx, out, p,
    )
}

// The search for one of several goals, given as pairs. Refuses SETTING, GOALS, POINT, what the search meets, ROOM.
pub fn multiple_goals(
    blocked: &[u8],
    neighbours: &[u8],
    forced: &[u8],
    goals: &[i32],
    number: &mut [u32],
    place: &mut [u32],
    parent: &mut [u32],
    cost: &mut [u64],
    keys: &mut [u64],
    idx: &mut [u32],
    out: &mut [i32],
    w: usize,
    h: usize,
    s: Settings,
    start: Point,
) -> Answer
    requires { Sides w h × Covered (w * h) blocked.now neighbours.now forced.now }
    ensures { (result ≡ answer_of (length out.old) (several_of (lent_ground w h blocked.now neighbours.now forced.now) s (lengths_of number.old place.old parent.old cost.old keys.old idx.old) start goals.now)) × (out.new ≡ out_after out.old (several_plan w h s start goals.now) (several_of (lent_ground w h blocked.now neighbours.now forced.now) s (lengths_of number.old place.old parent.old cost.old keys.old idx.old) start goals.now)) }
{
    let l = Lengths {
        number: number.len(),
        place: place.len(),
        parent: parent.len(),
        cost: cost.len(),
        keys: keys.len(),
        idx: idx.len(),
    };
    if !plans::ready(s, l, w * h + 1) {
        return refused(Refusal::Setting);
    }
    let Ok(n) = goals::count_goals(goals) else {
        return refused(Refusal::Goals);
    };
    if !start.legal() {
        return refused(Refusal::BadPoint(start));
    }
    if let Some(bad) = pairs::bad_point(goals) {
        return refused(Refusal::BadPoint(bad));
    }
    let p = plans::plan(w, h, s, Goal::Several(n), start);
    find(
        blocked, neighbours, forced, goals, number, place, parent, cost, keys, idx, out, p,
    )
}
