// The searches on a grid by value, with lent working room and lent output. Every grid, every setting and all room is legal input.
#![tactic(auto)]

ghost use Rattle.std.specs.Prelude.{◌≡◌, length};
ghost use Rattle.finder.specs.Find.{lengths_of, answer_of, out_after};
ghost use Rattle.waypoints.specs.Waypoints.{single_of, several_of, single_plan, several_plan};

use costs::Settings;
use finder::Answer;
use grid::Grid;
use points::{Point, Refusal};

// The waypoints from a start to a goal, or approximately to it, written as pairs; the rest of the output is kept.
// Refuses STATE, SETTING, POINT, NO_ROUTE, then EXHAUSTED, DEPTH, FRINGE, POPS or SAME as met, ROOM last; a refusal writes nothing.
pub fn get_waypoints_single_goal(
    number: &mut [u32],
    place: &mut [u32],
    parent: &mut [u32],
    cost: &mut [u64],
    keys: &mut [u64],
    idx: &mut [u32],
    out: &mut [i32],
    g: Grid,
    s: Settings,
    start: Point,
    goal: Point,
    approximate: bool,
) -> Answer
    ensures { (result ≡ answer_of (length out.old) (single_of g s (lengths_of number.old place.old parent.old cost.old keys.old idx.old) approximate start goal)) × (out.new ≡ out_after out.old (single_plan g s approximate start goal) (single_of g s (lengths_of number.old place.old parent.old cost.old keys.old idx.old) approximate start goal)) }
{
    if !grid::legal(g) {
        return finder::refused(Refusal::State);
    }
    // Copied alone: lent as `&g.blocked`, the whole grid would be copied.
    let blocked = g.blocked;
    let neighbours = g.neighbours;
    let forced = g.forced;
    let links = g.parent;
    let ranks = g.rank;
    finder::single_goal(
        &blocked,
        &neighbours,
        &forced,
        &links,
        &ranks,
        number,
        place,
        parent,
        cost,
        keys,
        idx,
        out,
        g.width,
        g.height,
        s,
        start,
        goal,
        approximate,
    )
}

// The waypoints from a start to one of several goals, given as pairs. It asks no component, so a start outside the grid may search.
// Refuses STATE, SETTING, GOALS, POINT, then as the single-goal search does, but never NO_ROUTE.
pub fn get_waypoints_multiple_goals(
    number: &mut [u32],
    place: &mut [u32],
    parent: &mut [u32],
    cost: &mut [u64],
    keys: &mut [u64],
    idx: &mut [u32],
    goals: &[i32],
    out: &mut [i32],
    g: Grid,
    s: Settings,
    start: Point,
) -> Answer
    ensures { (result ≡ answer_of (length out.old) (several_of g s (lengths_of number.old place.old parent.old cost.old keys.old idx.old) start goals.now)) × (out.new ≡ out_after out.old (several_plan g s start goals.now) (several_of g s (lengths_of number.old place.old parent.old cost.old keys.old idx.old) start goals.now)) }
{
    if !grid::legal(g) {
        return finder::refused(Refusal::State);
    }
    // Copied alone: lent as `&g.blocked`, the whole grid would be copied.
    let blocked = g.blocked;
    let neighbours = g.neighbours;
    let forced = g.forced;
    finder::multiple_goals(
        &blocked,
        &neighbours,
        &forced,
        goals,
        number,
        place,
        parent,
        cost,
        keys,
        idx,
        out,
        g.width,
        g.height,
        s,
        start,
    )
}
