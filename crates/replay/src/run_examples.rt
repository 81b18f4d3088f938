// Document 01's "Run" paragraph: each example is run, and what it gives is printed beside its name.
use super::searches::Kind;
use super::{blocks, ground, searches, table_steps};
use costs::Settings;
use grid::Grid;
use points::Point;

// The place (x, 0).
fn at(x: i32) -> Point {
    Point { x, y: 0 }
}

// A search in lines: result number, pops, waypoints.
fn say(rt: &impl Print, name: &str, number: u64, pops: u64, waypoints: u64) {
    blocks::say(rt, name, number);
    blocks::say(rt, "  pops=", pops);
    blocks::say(rt, "  waypoints=", waypoints);
}

// A search from (0,0) to (x,0), of a kind.
fn search(rt: &impl Print, name: &str, kind: Kind, g: Grid, s: Settings, x: i32) {
    let goals = [0i32; 2];
    let mut out = [0i32; 8194];
    let a = searches::search(kind, g, s, at(0), at(x), &goals, &mut out);
    match a.outcome {
        Ok(found) => say(rt, name, 0, a.pops as u64, found.length as u64),
        Err(r) => say(rt, name, u64::from(r.number()), a.pops as u64, 0),
    }
}

fn scaled(rt: &impl Print) {
    let a = at(0);
    let b = Point { x: 1, y: 1 };
    let m = costs::scaled_distance(true, 0.5, a, b);
    blocks::say(
        rt,
        "99 at factor 0.5=",
        u64::from(ground::measured(m, a, b)),
    );
}

fn two_by_one(rt: &impl Print) {
    let s = Settings::new();
    let new = grid::new(2, 1).grid;
    search(rt, "new 2x1, (0,0) to (1,0)=", Kind::Exact, new, s, 1);
    let mut rebuilt = new;
    let _ = grid::generate_components(&mut rebuilt, true);
    search(rt, "rebuilt=", Kind::Exact, rebuilt, s, 1);
    search(rt, "new 2x1, start is goal=", Kind::Exact, new, s, 0);
    search(rt, "approximate=", Kind::Approximate, new, s, 0);
    let mut cut = new;
    let _ = grid::set(&mut cut, true, at(0), true);
    search(rt, "blocked=", Kind::Exact, cut, s, 0);
}

// Three cells, the middle one blocked, rebuilt, and blocked once more.
fn parted() -> Grid {
    let mut g = grid::new(3, 1).grid;
    let _ = grid::set(&mut g, true, at(1), true);
    let _ = grid::generate_components(&mut g, true);
    let _ = grid::set(&mut g, true, at(1), true);
    g
}

fn say_component(rt: &impl Print, name: &str, g: Grid, p: Point) {
    blocks::say(
        rt,
        name,
        table_steps::component_told(grid::get_component(g, p), p),
    );
}

fn blocked_again(rt: &impl Print) {
    let mut s = Settings::new();
    let g = parted();
    say_component(
        rt,
        "rebuilt 3x1 .#., (1,0) blocked again: component of (0,0)=",
        g,
        at(0),
    );
    say_component(rt, "  component of (2,0)=", g, at(2));
    blocks::say(rt, "  dirty=", u64::from(g.dirty));
    search(rt, "  (0,0) to (2,0)=", Kind::Exact, g, s, 2);
    s.factor = 16.0;
    search(rt, "factor 16=", Kind::Exact, g, s, 0);
}

fn size(rt: &impl Print, name: &str, width: usize) {
    let made = grid::new(width, 1);
    let told = table_steps::outcome_told(made.outcome, at(0));
    blocks::say(rt, name, u64::from(told));
}

fn sizes(rt: &impl Print) {
    size(rt, "width 64=", 64);
    size(rt, "width 65=", 65);
    size(rt, "width 0=", 0);
}

pub fn run(rt: &impl Print) {
    scaled(rt);
    two_by_one(rt);
    blocked_again(rt);
    sizes(rt);
}
