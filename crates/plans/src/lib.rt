// What is tested before a search, and its plan.
#![tactic(auto)]

ghost use Rattle.std.specs.Prelude.{◌≡◌, ◌*◌};
ghost use Rattle.components.specs.Components.{Forest};
ghost use Rattle.cells.specs.Cells.{Sides};
ghost use Rattle.plans.specs.Plans.{ready_of, barred_of, kind_of, plan_of};

use costs::Settings;
use goals::{Goal, Plan};
use points::Point;

// The lengths of the lent working room.
#[derive(Clone, Copy, PartialEq, Eq)]
pub struct Lengths {
    pub number: usize,
    pub place: usize,
    pub parent: usize,
    pub cost: usize,
    pub keys: usize,
    pub idx: usize,
}

// Whether the settings are in range, and the working room is long enough for them and for so many places.
pub fn ready(s: Settings, l: Lengths, places: usize) -> bool
    ensures { result ≡ ready_of s l places }
{
    s.legal()
        && places <= l.number
        && places <= l.place
        && places <= l.parent
        && places <= l.cost
        && s.fringe <= l.keys
        && s.fringe <= l.idx
}

// Whether the component test of a single-goal search says no.
pub fn barred(
    links: &[u16],
    ranks: &[u8],
    w: usize,
    h: usize,
    diagonal: bool,
    approximate: bool,
    start: Point,
    goal: Point,
) -> bool
    requires { Sides w h × Forest 200 (w * h) links.now ranks.now }
    ensures { result ≡ barred_of w h links.now diagonal approximate start goal }
{
    let a = cells::cell_of(w, h, start);
    let c = cells::cell_of(w, h, goal);
    if approximate {
        return questions::neighbours_unreachable(w, h, diagonal, links, ranks, a, c);
    }
    questions::unreachable(links, ranks, w * h, a, c)
}

// The kind of a single goal.
pub fn kind_of(approximate: bool, goal: Point) -> Goal
    ensures { result ≡ kind_of approximate goal }
{
    if approximate {
        return Goal::Near(goal);
    }
    Goal::Exact(goal)
}

// What stays the same in a search.
pub fn plan(w: usize, h: usize, s: Settings, goal: Goal, start: Point) -> Plan
    requires { Sides w h }
    ensures { result ≡ plan_of w h s goal start }
{
    Plan {
        start,
        goal,
        w,
        h,
        target: stops::goal_cell(w, h, goal),
        settings: s,
    }
}
