// Straight jumps from a cell, and whether one finds something: what a jump looks for at each cell that it passes.
#![tactic(auto)]

ghost use Rattle.std.specs.Prelude.{◌≡◌, not, ◌+◌, ◌*◌, ◌%◌, ◌<◌, ◌≤◌};
ghost use Rattle.goals.specs.Goals.{both, either};
ghost use Rattle.stops.specs.Stops.{Within, stops_in};
ghost use Rattle.looks.specs.Props.{props};
ghost use Rattle.looks.specs.Looks.{Floor, ahead_of, reach_of, sees_on, sees_either, turns_at};

use goals::Plan;
use stops::Cell;

// How many cells of a side lie ahead of a place.
fn ahead(o: usize, side: usize, at: usize) -> usize
    requires { (1 ≤ at) × (at ≤ side) }
    ensures { result ≡ ahead_of o side at }
{
    if o == 0 {
        return at - 1;
    }
    side - at
}

// How many cells lie inside in the direction of an offset.
pub fn reach(ox: usize, oy: usize, w: usize, h: usize, c: Cell) -> usize
    requires { Within w h c.x c.y }
    ensures { result ≡ reach_of ox oy w h c.x c.y }
{
    if ox == 1 {
        return ahead(oy, h, c.y);
    }
    let across = ahead(ox, w, c.x);
    if oy == 1 {
        return across;
    }
    let down = ahead(oy, h, c.y);
    across.min(down)
}

// What a jump looks at: a byte for each cell that says blocked, one of forced directions, the list of goals, and the plan.
#[derive(Clone, Copy)]
pub struct Scene<'a> {
    pub blocked: &'a [u8],
    pub forced: &'a [u8],
    pub goals: &'a [i32],
    pub plan: &'a Plan,
    ghost floor: { Floor blocked.now forced.now goals.now plan.now } by { Prim.hlevel props },
}

impl<'a> Scene<'a> {
    // Whether a jump in direction d stops at the cell of a number: a goal or a forced cell.
    pub fn stops_in(&self, d: u8, i: usize) -> bool
        requires { i < self.now.plan.now.h * self.now.plan.now.w }
        ensures { result ≡ stops_in self.now.forced.now self.now.goals.now self.now.plan.now d i }
    {
        stops::stops_in(self.forced, self.goals, self.plan, d, i)
    }

    // Whether a straight jump from an inside cell finds something. It steps by cell numbers: as many as lie ahead.
    // What each step reads is copied once, so that it need not be read behind references.
    fn sees_on(&self, d: u8, c: Cell) -> bool
        requires { Within self.now.plan.now.w self.now.plan.now.h c.x c.y }
        ensures { result ≡ sees_on self.now.blocked.now self.now.forced.now self.now.goals.now self.now.plan.now d c.x c.y }
    {
        let blocked = self.blocked;
        let forced = self.forced;
        let goals = self.goals;
        let plan = *self.plan;
        let w = plan.w;
        let ox = directions::off_x(d);
        let oy = directions::off_y(d);
        let step = oy * w + ox;
        let mut i = c.number(w);
        for _ in 0..reach(ox, oy, w, plan.h, c) {
            i = i + step - (w + 1);
            if blocked[i] != 0 {
                return false;
            }
            if stops::stops_in(forced, goals, &plan, d, i) {
                return true;
            }
        }
        false
    }

    // Whether a straight jump in one of two directions finds something.
    fn sees_either(&self, d: u8, e: u8, c: Cell) -> bool
        requires { Within self.now.plan.now.w self.now.plan.now.h c.x c.y }
        ensures { result ≡ sees_either self.now.blocked.now self.now.forced.now self.now.goals.now self.now.plan.now d e c.x c.y }
    {
        self.sees_on(d, c) || self.sees_on(e, c)
    }

    // Whether d is diagonal, and a straight jump along x or y finds something. It looks to the right first, as `sees_across` does.
    fn sees_beside(&self, d: u8, c: Cell) -> bool
        requires { Within self.now.plan.now.w self.now.plan.now.h c.x c.y }
        ensures { result ≡ turns_at self.now.blocked.now self.now.forced.now self.now.goals.now self.now.plan.now d c.x c.y }
    {
        let left = directions::left_of(d);
        let right = directions::right_of(d);
        d % 2 == 1 && self.sees_either(right, left, c)
    }

    // Whether diagonals are off, and a perpendicular straight jump finds something.
    fn sees_across(&self, d: u8, c: Cell) -> bool
        requires { Within self.now.plan.now.w self.now.plan.now.h c.x c.y }
        ensures { result ≡ both (not self.now.plan.now.settings.diagonal) (sees_either self.now.blocked.now self.now.forced.now self.now.goals.now self.now.plan.now ((d + 2) % 8) ((d + 6) % 8) c.x c.y) }
    {
        let right = directions::right_of(directions::right_of(d));
        let left = directions::left_of(directions::left_of(d));
        !self.plan.settings.diagonal && self.sees_either(right, left, c)
    }

    // Whether a straight jump to a side finds something: along x or y where d is diagonal, and, diagonals off, a perpendicular one.
    pub fn sees_aside(&self, d: u8, c: Cell) -> bool
        requires { (d < 8) × Within self.now.plan.now.w self.now.plan.now.h c.x c.y }
        ensures { result ≡ either (turns_at self.now.blocked.now self.now.forced.now self.now.goals.now self.now.plan.now d c.x c.y) (both (not self.now.plan.now.settings.diagonal) (sees_either self.now.blocked.now self.now.forced.now self.now.goals.now self.now.plan.now ((d + 2) % 8) ((d + 6) % 8) c.x c.y)) }
    {
        self.sees_beside(d, c) || self.sees_across(d, c)
    }
}
