// Jumps over the cells of a grid.
#![tactic(auto)]

ghost use Rattle.std.specs.Prelude.{◌≡◌, ◌<◌, ◌≤◌};
ghost use Rattle.stops.specs.Stops.{Inside, number_of};
ghost use Rattle.jumps.specs.Jumps.{halts_at, jump_of};

use looks::Scene;
use stops::{Cell, Jump};

// Whether a jump in direction d stops at an inside cell, whose number is i.
fn halts(scene: &Scene, d: u8, c: Cell, i: usize) -> bool
    requires { (d < 8) × (Inside scene.now.plan.now c × (i ≡ number_of scene.now.plan.now.w c.x c.y)) }
    ensures { result ≡ halts_at scene.now.blocked.now scene.now.forced.now scene.now.goals.now scene.now.plan.now d c.x c.y }
{
    scene.stops_in(d, i) || scene.sees_aside(d, c)
}

// A jump in direction d from a cell, its first step at the caller's price, later ones at their own. It finds nothing on leaving free cells.
pub fn jump_along(scene: &Scene, d: u8, from: Cell, price: u64) -> Option<Jump>
    requires { (d < 8) × (Inside scene.now.plan.now from × (price ≤ 99)) }
    ensures { result ≡ jump_of scene.now.blocked.now scene.now.forced.now scene.now.goals.now scene.now.plan.now d from price }
{
    let w = scene.plan.w;
    let ox = directions::off_x(d);
    let oy = directions::off_y(d);
    let by = oy * w + ox;
    let step = stops::price_of(d);
    let mut at = from;
    let mut i = from.number(w);
    let mut cost = price;
    for _ in 0..looks::reach(ox, oy, w, scene.plan.h, from) {
        at = Cell {
            x: at.x + ox - 1,
            y: at.y + oy - 1,
        };
        i = i + by - (w + 1);
        if scene.blocked[i] != 0 {
            return None;
        }
        if halts(scene, d, at, i) {
            return Some(Jump { cell: at, cost });
        }
        cost += step;
    }
    None
}
