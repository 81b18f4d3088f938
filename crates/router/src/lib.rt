// From a map text to what `route` prints.
#![tactic(auto)]

ghost use Rattle.std.specs.Prelude.{◌≡◌, false, ◌+◌, ◌*◌, ◌≤◌, ◌<◌, length};
ghost use Rattle.std.proofs.lemmas.List.Edits.{sets};
ghost use Rattle.finder.specs.Find.{answer_of, out_after};
ghost use Rattle.waypoints.specs.Waypoints.{single_plan};
ghost use Rattle.checks.specs.Checks.{check_of};
ghost use Rattle.router.specs.Route.{settings_for, exact_of, refused_text, checked_text, outcome_text, Within, most_print, route_text};

use costs::Settings;
use finder::Answer;
use grid::Grid;
use points::{Point, Refusal};

// The most bytes that are printed.
pub const PRINT: usize = 82100;

// The exact search with a new grid's other settings; the waypoints stand in the list.
pub fn searched(list: &mut [i32], g: Grid, diagonal: bool, start: Point, goal: Point) -> Answer
    ensures { (result ≡ answer_of (length list.old) (exact_of g diagonal start goal)) × (list.new ≡ out_after list.old (single_plan g (settings_for diagonal) false start goal) (exact_of g diagonal start goal)) }
{
    let mut number = [0u32; 4097];
    let mut place = [0u32; 4097];
    let mut parent = [0u32; 4097];
    let mut cost = [0u64; 4097];
    let mut keys = [0u64; 8192];
    let mut idx = [0u32; 8192];
    let mut s = Settings::new();
    s.diagonal = diagonal;
    waypoints::get_waypoints_single_goal(
        &mut number,
        &mut place,
        &mut parent,
        &mut cost,
        &mut keys,
        &mut idx,
        list,
        g,
        s,
        start,
        goal,
        false,
    )
}

// A refusal printed, with the pops before it.
fn put_refused(buf: &mut [u8], r: Refusal, pops: usize) -> usize
    requires { (pops < 100000) × (100 ≤ length buf.old) }
    ensures { (result ≡ length (refused_text r pops)) × (buf.new ≡ sets buf.old 0 (refused_text r pops)) }
{
    let none = [0i32; 0];
    answers::put_answer(buf, u32::from(r.number()), pops as u32, &none, false)
}

// A route printed, with its check.
fn put_found(buf: &mut [u8], list: &[i32], g: Grid, pops: usize) -> usize
    requires { (pops < 100000) × (length list.now < 100000) × (100 + 10 * length list.now ≤ length buf.old) }
    ensures { (result ≡ length (checked_text (check_of g list.now) pops list.now)) × (buf.new ≡ sets buf.old 0 (checked_text (check_of g list.now) pops list.now)) }
{
    match checks::check_route(g, list) {
        Ok(checked) => answers::put_answer(buf, 0, pops as u32, list, checked.clear),
        Err(r) => put_refused(buf, r, pops),
    }
}

// What is printed of a search's answer, its waypoints at the front of the list.
fn put_outcome(buf: &mut [u8], list: &[i32], g: Grid, a: Answer) -> usize
    requires { (a.pops < 100000) × Within (length list.now) a.outcome × (length list.now < 100000) × (100 + 10 * length list.now ≤ length buf.old) }
    ensures { (result ≡ length (outcome_text g list.now a)) × (buf.new ≡ sets buf.old 0 (outcome_text g list.now a)) }
{
    match a.outcome {
        Ok(found) => put_found(buf, &list[..2 * found.length], g, a.pops),
        Err(r) => put_refused(buf, r, a.pops),
    }
}

// Writes what `route` prints of a text, in room for the most that is printed; how many bytes it is.
pub fn route(text: &[u8], out: &mut [u8]) -> usize
    requires { most_print ≤ length out.old }
    ensures { (result ≡ length (route_text text.now)) × (out.new ≡ sets out.old 0 (route_text text.now)) }
{
    let m = floors::read_map(text);
    if let Err(r) = m.outcome {
        return answers::put_bad(out, r.line() as u32);
    }
    let mut built = m.grid;
    let _ = grid::generate_components(&mut built, m.diagonal);
    // Named anew, since a grid that was lent to be changed is copied at each call that takes it by value.
    let g = built;
    let mut list = [0i32; 8194];
    let a = searched(&mut list, g, m.diagonal, m.start, m.goal);
    put_outcome(out, &list, g, a)
}

// From a map text to what `route` prints: how many bytes it is; the rest of the room is kept.
pub fn route_text(text: &[u8], out: &mut [u8; PRINT]) -> usize
    ensures { (result ≡ length (route_text text.now)) × (out.new ≡ sets out.old 0 (route_text text.now)) }
{
    route(text, out)
}
