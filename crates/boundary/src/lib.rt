// Barnsling for C and Rust: numbers and lent slices. A flag is 0 or not; no call trusts what it is passed.
#![tactic(auto)]

ghost use Rattle.std.specs.Prelude.{◌≡◌, false, ◌%◌, length};
ghost use Rattle.headings.specs.Headings.{direction_of};
ghost use Rattle.costs.specs.Cost.{distance_of};
ghost use Rattle.costs.specs.Scale.{scaled_of};
ghost use Rattle.masks.specs.Masks.{forced_of, pruned_in};
ghost use Rattle.finder.specs.Find.{lent_ground, lengths_of, answer_of, out_after, single_plan, several_plan};
ghost use Rattle.packing.specs.Packing.{flag_of, point_of, heading_packed, measure_packed, settings_of};
ghost use Rattle.replies.specs.Replies.{route_of};
ghost use Rattle.boundary.specs.Searches.{single_lent, several_lent};
ghost use Rattle.cells.specs.Cells.{Sides};
ghost use Rattle.boundary.specs.Lent.{links_ok, ground_ok, covers_ok, held_of, roomy_of, tables, left, left_links, new_lent, set_lent, rebuild_lent, update_lent, component_lent, inside_of, located_of, blocked_lent, mask_lent, pruned_lent, asked_of, reachable_lent, unreachable_lent, near_lent, far_lent};

use cells::{Size, Spot};
use costs::Settings;
use finder::Answer;
use packing::{direction, distance, flag, mark, point, refused_as, scaled_distance, settings};
use points::{Point, Refusal};
use replies::{Route, routed};

pub mod texts;
pub mod walks;

// The number of this interface, which the header and the Rust crate name too: it rises where a declaration, what an answer says or its form, or a refusal's number changes.
pub fn barnsling_version() -> u32
    ensures { result ≡ 4 }
{
    4
}

// The forced mask of a neighbour mask.
pub fn barnsling_forced_mask(neighbours: u8) -> u8
    ensures { result ≡ forced_of neighbours }
{
    masks::forced_mask(neighbours)
}

// The pruned mask for travel in a direction, read modulo 8.
pub fn barnsling_pruned_mask(diagonal: u8, direction: u8, neighbours: u8) -> u8
    ensures { result ≡ pruned_in (flag_of diagonal) (direction % 8) neighbours }
{
    masks::pruned_mask(flag(diagonal), direction, neighbours)
}

// The direction from a to b, 8 more where it is bent, and 16 times how many steps lead there; or 2^32 * refusal, where POINT has 256 more for the
// first point and 512 more for the second. Refuses POINT, SAME.
pub fn barnsling_direction(ax: i32, ay: i32, bx: i32, by: i32) -> u64
    ensures { result ≡ heading_packed (direction_of (point_of ax ay) (point_of bx by)) (point_of ax ay) }
{
    direction(point(ax, ay), point(bx, by))
}

// The distance from a to b: below 2^32, or a refusal as above. Refuses POINT.
pub fn barnsling_distance(diagonal: u8, ax: i32, ay: i32, bx: i32, by: i32) -> u64
    ensures { result ≡ measure_packed (distance_of (flag_of diagonal) (point_of ax ay) (point_of bx by)) (point_of ax ay) }
{
    distance(flag(diagonal), point(ax, ay), point(bx, by))
}

// The scaled distance from a to b: below 2^32, or a refusal as above. Refuses SETTING, POINT.
pub fn barnsling_scaled_distance(
    factor: f32,
    diagonal: u8,
    ax: i32,
    ay: i32,
    bx: i32,
    by: i32,
) -> u64
    ensures { result ≡ measure_packed (scaled_of (flag_of diagonal) factor (point_of ax ay) (point_of bx by)) (point_of ax ay) }
{
    scaled_distance(flag(diagonal), factor, point(ax, ay), point(bx, by))
}

// Whether the sides are in range, parents and ranks have a place for each cell, and the state is legal.
#[tactic(auto, using(std::proofs::Common::tests), unfolding(crate::specs::Lent::links_ok))]
fn linked(parent: &[u16], rank: &[u8], w: usize, h: usize) -> bool
    ensures { result ≡ links_ok w h parent.now rank.now }
{
    cells::sized(w, h)
        && w * h <= parent.len()
        && w * h <= rank.len()
        && states::state_ok(parent, rank, w * h)
}

// `linked`, and whether a table has a place for each cell.
#[tactic(auto, using(std::proofs::Common::tests), unfolding(crate::specs::Lent::ground_ok))]
fn grounded(table: &[u8], parent: &[u16], rank: &[u8], w: usize, h: usize) -> bool
    ensures { result ≡ ground_ok w h table.now parent.now rank.now }
{
    linked(parent, rank, w, h) && w * h <= table.len()
}

// Whether the tables of the cells have a place for each of n cells.
#[tactic(auto, using(std::proofs::Common::tests), unfolding(crate::specs::Lent::covers_ok))]
fn covered(blocked: &[u8], neighbours: &[u8], forced: &[u8], n: usize) -> bool
    ensures { result ≡ covers_ok n blocked.now neighbours.now forced.now }
{
    n <= blocked.len() && n <= neighbours.len() && n <= forced.len()
}

// Whether five lent tables are a grid: STATE is refused exactly where they are not.
#[tactic(auto, using(std::proofs::Common::tests), unfolding(crate::specs::Lent::held_of))]
fn held(
    blocked: &[u8],
    neighbours: &[u8],
    forced: &[u8],
    parent: &[u16],
    rank: &[u8],
    w: usize,
    h: usize,
) -> bool
    ensures { result ≡ held_of w h blocked.now neighbours.now forced.now parent.now rank.now }
{
    linked(parent, rank, w, h) && covered(blocked, neighbours, forced, w * h)
}

// Whether five lent tables have a place for each of n cells.
#[tactic(auto, using(std::proofs::Common::tests), unfolding(crate::specs::Lent::roomy_of))]
fn roomy(
    blocked: &[u8],
    neighbours: &[u8],
    forced: &[u8],
    parent: &[u16],
    rank: &[u8],
    n: usize,
) -> bool
    ensures { result ≡ roomy_of n blocked.now neighbours.now forced.now parent.now rank.now }
{
    n <= parent.len() && n <= rank.len() && covered(blocked, neighbours, forced, n)
}

// A new grid in lent tables: 0. Refuses SIZE, then STATE where a table is too short.
#[tactic(auto, using(std::proofs::Common::tests), unfolding(crate::specs::Lent::new_lent))]
pub fn barnsling_new(
    blocked: &mut [u8],
    neighbours: &mut [u8],
    forced: &mut [u8],
    parent: &mut [u16],
    rank: &mut [u8],
    w: usize,
    h: usize,
) -> u64
    ensures { left result blocked.new neighbours.new forced.new parent.new rank.new
        ≡ new_lent w h (tables false blocked.old neighbours.old forced.old parent.old rank.old) }
{
    if !cells::sized(w, h) {
        return refused_as(Refusal::Size);
    }
    if !roomy(blocked, neighbours, forced, parent, rank, w * h) {
        return refused_as(Refusal::State);
    }
    tables::new(Size { w, h }, blocked, neighbours, forced, parent, rank);
    0
}

// Blocks or frees the cell (x, y): the dirty mark afterwards, 0 or 1. Refuses STATE, then POINT.
#[tactic(auto, using(std::proofs::Common::tests), unfolding(crate::specs::Lent::set_lent))]
pub fn barnsling_set(
    blocked: &mut [u8],
    neighbours: &mut [u8],
    forced: &mut [u8],
    parent: &mut [u16],
    rank: &mut [u8],
    w: usize,
    h: usize,
    diagonal: u8,
    dirty: u8,
    x: i32,
    y: i32,
    b: u8,
) -> u64
    ensures { left result blocked.new neighbours.new forced.new parent.new rank.new
        ≡ set_lent w h (flag_of diagonal) (tables (flag_of dirty) blocked.old neighbours.old forced.old parent.old rank.old) (point_of x y) (flag_of b) }
{
    if !held(blocked, neighbours, forced, parent, rank, w, h) {
        return refused_as(Refusal::State);
    }
    if let Err(r) = inside(w, h, point(x, y)) {
        return refused_as(r);
    }
    let cx = cells::place(x, w);
    let cy = cells::place(y, h);
    let at = Spot { w, h, x: cx, y: cy };
    let d = tables::edit(
        at,
        flag(diagonal),
        flag(dirty),
        blocked,
        neighbours,
        forced,
        parent,
        rank,
        flag(b),
    );
    mark(d)
}

// The components anew from the blocked cells alone: 0, the dirty mark afterwards. Refuses STATE.
#[tactic(auto, using(std::proofs::Common::tests), unfolding(crate::specs::Lent::rebuild_lent))]
pub fn barnsling_rebuild(
    blocked: &[u8],
    parent: &mut [u16],
    rank: &mut [u8],
    w: usize,
    h: usize,
    diagonal: u8,
) -> u64
    ensures { left_links result parent.new rank.new ≡ rebuild_lent w h (flag_of diagonal) blocked.now parent.old rank.old }
{
    if !grounded(blocked, parent, rank, w, h) {
        return refused_as(Refusal::State);
    }
    rebuilds::rebuild(Size { w, h }, flag(diagonal), blocked, parent, rank);
    0
}

// `barnsling_rebuild` where the grid is dirty: 0, the dirty mark afterwards. Refuses STATE.
#[tactic(auto, using(std::proofs::Common::tests), unfolding(crate::specs::Lent::update_lent))]
pub fn barnsling_update(
    blocked: &[u8],
    parent: &mut [u16],
    rank: &mut [u8],
    w: usize,
    h: usize,
    diagonal: u8,
    dirty: u8,
) -> u64
    ensures { left_links result parent.new rank.new ≡ update_lent w h (flag_of diagonal) (flag_of dirty) blocked.now parent.old rank.old }
{
    if !grounded(blocked, parent, rank, w, h) {
        return refused_as(Refusal::State);
    }
    rebuilds::update(
        Size { w, h },
        flag(diagonal),
        flag(dirty),
        blocked,
        parent,
        rank,
    );
    0
}

// The component of the cell (x, y), as the Rust numbers it. Refuses STATE, then POINT.
#[tactic(auto, using(std::proofs::Common::tests), unfolding(crate::specs::Lent::component_lent))]
pub fn barnsling_component(parent: &[u16], rank: &[u8], w: usize, h: usize, x: i32, y: i32) -> u64
    ensures { result ≡ component_lent w h parent.now rank.now (point_of x y) }
{
    if !linked(parent, rank, w, h) {
        return refused_as(Refusal::State);
    }
    match inside(w, h, point(x, y)) {
        Ok(i) => components::find(parent, rank, w * h, i) as u64,
        Err(r) => refused_as(r),
    }
}

// The cell of a point. Refuses POINT for a point that is no cell.
#[tactic(auto, using(std::proofs::Common::tests))]
fn inside(w: usize, h: usize, p: Point) -> Result<usize, Refusal>
    requires { Sides w h }
    ensures { result ≡ inside_of w h p }
{
    let i = cells::cell_of(w, h, p);
    if i < w * h {
        Ok(i)
    } else {
        Err(Refusal::BadPoint(p))
    }
}

// The cell of a point of a lent grid. Refuses STATE, also of a table that is too short, then POINT for a point that is no cell.
#[tactic(auto, using(std::proofs::Common::tests), unfolding(crate::specs::Lent::located_of))]
fn located(
    table: &[u8],
    parent: &[u16],
    rank: &[u8],
    w: usize,
    h: usize,
    p: Point,
) -> Result<usize, Refusal>
    ensures { result ≡ located_of w h table.now parent.now rank.now p }
{
    if !grounded(table, parent, rank, w, h) {
        return Err(Refusal::State);
    }
    inside(w, h, p)
}

// What a table holds of a cell. Refuses STATE, then POINT.
#[tactic(auto, using(std::proofs::Common::tests), unfolding(crate::specs::Lent::mask_lent))]
fn mask_at(table: &[u8], parent: &[u16], rank: &[u8], w: usize, h: usize, p: Point) -> u64
    ensures { result ≡ mask_lent w h table.now parent.now rank.now p }
{
    match located(table, parent, rank, w, h, p) {
        Ok(i) => u64::from(table[i]),
        Err(r) => refused_as(r),
    }
}

// Whether the cell (x, y) is blocked: 1 or 0. Refuses STATE, then POINT.
#[tactic(auto, using(std::proofs::Common::tests), unfolding(crate::specs::Lent::blocked_lent))]
pub fn barnsling_blocked_at(
    blocked: &[u8],
    parent: &[u16],
    rank: &[u8],
    w: usize,
    h: usize,
    x: i32,
    y: i32,
) -> u64
    ensures { result ≡ blocked_lent w h blocked.now parent.now rank.now (point_of x y) }
{
    match located(blocked, parent, rank, w, h, point(x, y)) {
        Ok(i) => mark(flag(blocked[i])),
        Err(r) => refused_as(r),
    }
}

// Which neighbours of the cell (x, y) are inside and free, a bit for each direction: below 256. Refuses STATE, then POINT.
pub fn barnsling_neighbours_at(
    neighbours: &[u8],
    parent: &[u16],
    rank: &[u8],
    w: usize,
    h: usize,
    x: i32,
    y: i32,
) -> u64
    ensures { result ≡ mask_lent w h neighbours.now parent.now rank.now (point_of x y) }
{
    mask_at(neighbours, parent, rank, w, h, point(x, y))
}

// The forced directions of the cell (x, y): below 256. Refuses STATE, then POINT.
pub fn barnsling_forced_at(
    forced: &[u8],
    parent: &[u16],
    rank: &[u8],
    w: usize,
    h: usize,
    x: i32,
    y: i32,
) -> u64
    ensures { result ≡ mask_lent w h forced.now parent.now rank.now (point_of x y) }
{
    mask_at(forced, parent, rank, w, h, point(x, y))
}

// The directions that a search follows from the cell (x, y), having come to it in a direction, read modulo 8: below 256.
// Refuses STATE, then POINT.
#[tactic(auto, using(std::proofs::Common::tests), unfolding(crate::specs::Lent::pruned_lent))]
pub fn barnsling_pruned_at(
    neighbours: &[u8],
    parent: &[u16],
    rank: &[u8],
    w: usize,
    h: usize,
    diagonal: u8,
    x: i32,
    y: i32,
    direction: u8,
) -> u64
    ensures { result ≡ pruned_lent w h (flag_of diagonal) neighbours.now parent.now rank.now (point_of x y) direction }
{
    match located(neighbours, parent, rank, w, h, point(x, y)) {
        Ok(i) => u64::from(masks::pruned_mask(flag(diagonal), direction, neighbours[i])),
        Err(r) => refused_as(r),
    }
}

// The cells of the start and the goal of a question. Refuses STATE, then POINT for coordinates out of range, the start's first; each as it is answered.
#[tactic(auto, using(std::proofs::Common::tests), unfolding(crate::specs::Lent::asked_of))]
fn asked(
    parent: &[u16],
    rank: &[u8],
    w: usize,
    h: usize,
    start: Point,
    goal: Point,
) -> Result<(usize, usize), u64>
    ensures { result ≡ asked_of w h parent.now rank.now start goal }
{
    if !linked(parent, rank, w, h) {
        return Err(refused_as(Refusal::State));
    }
    if !start.legal() {
        return Err(4294967296 * 270);
    }
    if !goal.legal() {
        return Err(4294967296 * 526);
    }
    Ok((cells::cell_of(w, h, start), cells::cell_of(w, h, goal)))
}

// Whether two points share a component, 0 or 1: no where one is outside. Refuses STATE, then POINT.
#[tactic(auto, using(std::proofs::Common::tests), unfolding(crate::specs::Lent::reachable_lent))]
pub fn barnsling_reachable(
    parent: &[u16],
    rank: &[u8],
    w: usize,
    h: usize,
    sx: i32,
    sy: i32,
    gx: i32,
    gy: i32,
) -> u64
    ensures { result ≡ reachable_lent w h parent.now rank.now (point_of sx sy) (point_of gx gy) }
{
    match asked(parent, rank, w, h, point(sx, sy), point(gx, gy)) {
        Ok((a, c)) => mark(questions::reachable(parent, rank, w * h, a, c)),
        Err(refused) => refused,
    }
}

// Whether they do not: yes where one is outside. Refuses STATE, then POINT.
#[tactic(auto, using(std::proofs::Common::tests), unfolding(crate::specs::Lent::unreachable_lent))]
pub fn barnsling_unreachable(
    parent: &[u16],
    rank: &[u8],
    w: usize,
    h: usize,
    sx: i32,
    sy: i32,
    gx: i32,
    gy: i32,
) -> u64
    ensures { result ≡ unreachable_lent w h parent.now rank.now (point_of sx sy) (point_of gx gy) }
{
    match asked(parent, rank, w, h, point(sx, sy), point(gx, gy)) {
        Ok((a, c)) => mark(questions::unreachable(parent, rank, w * h, a, c)),
        Err(refused) => refused,
    }
}

// Whether some inside neighbour of the goal shares the start's component: yes where one is outside. Refuses STATE, then POINT.
#[tactic(auto, using(std::proofs::Common::tests), unfolding(crate::specs::Lent::near_lent))]
pub fn barnsling_neighbours_reachable(
    parent: &[u16],
    rank: &[u8],
    w: usize,
    h: usize,
    diagonal: u8,
    sx: i32,
    sy: i32,
    gx: i32,
    gy: i32,
) -> u64
    ensures { result ≡ near_lent w h (flag_of diagonal) parent.now rank.now (point_of sx sy) (point_of gx gy) }
{
    match asked(parent, rank, w, h, point(sx, sy), point(gx, gy)) {
        Ok((a, c)) => mark(questions::neighbours_reachable(
            w,
            h,
            flag(diagonal),
            parent,
            rank,
            a,
            c,
        )),
        Err(refused) => refused,
    }
}

// Whether none does: yes, too, where one is outside. Refuses STATE, then POINT.
#[tactic(auto, using(std::proofs::Common::tests), unfolding(crate::specs::Lent::far_lent))]
pub fn barnsling_neighbours_unreachable(
    parent: &[u16],
    rank: &[u8],
    w: usize,
    h: usize,
    diagonal: u8,
    sx: i32,
    sy: i32,
    gx: i32,
    gy: i32,
) -> u64
    ensures { result ≡ far_lent w h (flag_of diagonal) parent.now rank.now (point_of sx sy) (point_of gx gy) }
{
    match asked(parent, rank, w, h, point(sx, sy), point(gx, gy)) {
        Ok((a, c)) => mark(questions::neighbours_unreachable(
            w,
            h,
            flag(diagonal),
            parent,
            rank,
            a,
            c,
        )),
        Err(refused) => refused,
    }
}

#[tactic(auto, using(std::proofs::Common::tests), unfolding(crate::specs::Searches::single_lent))]
fn single(
    blocked: &[u8],
    neighbours: &[u8],
    forced: &[u8],
    links: &[u16],
    ranks: &[u8],
    number: &mut [u32],
    place: &mut [u32],
    parent: &mut [u32],
    cost: &mut [u64],
    keys: &mut [u64],
    idx: &mut [u32],
    out: &mut [i32],
    w: usize,
    h: usize,
    s: Settings,
    start: Point,
    goal: Point,
    approximate: bool,
) -> Answer
    ensures { (result ≡ answer_of (length out.old) (single_lent (lent_ground w h blocked.now neighbours.now forced.now) links.now ranks.now s (lengths_of number.old place.old parent.old cost.old keys.old idx.old) approximate start goal)) × (out.new ≡ out_after out.old (single_plan w h s approximate start goal) (single_lent (lent_ground w h blocked.now neighbours.now forced.now) links.now ranks.now s (lengths_of number.old place.old parent.old cost.old keys.old idx.old) approximate start goal)) }
{
    if !held(blocked, neighbours, forced, links, ranks, w, h) {
        return finder::refused(Refusal::State);
    }
    finder::single_goal(
        blocked,
        neighbours,
        forced,
        links,
        ranks,
        number,
        place,
        parent,
        cost,
        keys,
        idx,
        out,
        w,
        h,
        s,
        start,
        goal,
        approximate,
    )
}

#[tactic(auto, using(std::proofs::Common::tests), unfolding(crate::specs::Searches::several_lent))]
fn several(
    blocked: &[u8],
    neighbours: &[u8],
    forced: &[u8],
    links: &[u16],
    ranks: &[u8],
    goals: &[i32],
    number: &mut [u32],
    place: &mut [u32],
    parent: &mut [u32],
    cost: &mut [u64],
    keys: &mut [u64],
    idx: &mut [u32],
    out: &mut [i32],
    w: usize,
    h: usize,
    s: Settings,
    start: Point,
) -> Answer
    ensures { (result ≡ answer_of (length out.old) (several_lent (lent_ground w h blocked.now neighbours.now forced.now) links.now ranks.now s (lengths_of number.old place.old parent.old cost.old keys.old idx.old) start goals.now)) × (out.new ≡ out_after out.old (several_plan w h s start goals.now) (several_lent (lent_ground w h blocked.now neighbours.now forced.now) links.now ranks.now s (lengths_of number.old place.old parent.old cost.old keys.old idx.old) start goals.now)) }
{
    if !held(blocked, neighbours, forced, links, ranks, w, h) {
        return finder::refused(Refusal::State);
    }
    finder::multiple_goals(
        blocked, neighbours, forced, goals, number, place, parent, cost, keys, idx, out, w, h, s,
        start,
    )
}

// The waypoints from a start to a goal, or approximately to it, written as pairs; the rest of the output is kept, and number to idx are working room.
// Refuses STATE, SETTING, POINT, NO_ROUTE, then EXHAUSTED, DEPTH, FRINGE, POPS or SAME as met, ROOM last; a refusal writes no output.
pub fn barnsling_single_goal(
    blocked: &[u8],
    neighbours: &[u8],
    forced: &[u8],
    links: &[u16],
    ranks: &[u8],
    number: &mut [u32],
    place: &mut [u32],
    parent: &mut [u32],
    cost: &mut [u64],
    keys: &mut [u64],
    idx: &mut [u32],
    out: &mut [i32],
    w: usize,
    h: usize,
    factor: f32,
    diagonal: u8,
    improved: u8,
    depth: usize,
    pops: usize,
    fringe: usize,
    sx: i32,
    sy: i32,
    gx: i32,
    gy: i32,
    approximate: u8,
) -> Route
    ensures { (result ≡ route_of (answer_of (length out.old) (single_lent (lent_ground w h blocked.now neighbours.now forced.now) links.now ranks.now (settings_of factor (flag_of diagonal) (flag_of improved) depth pops fringe) (lengths_of number.old place.old parent.old cost.old keys.old idx.old) (flag_of approximate) (point_of sx sy) (point_of gx gy)))) × (out.new ≡ out_after out.old (single_plan w h (settings_of factor (flag_of diagonal) (flag_of improved) depth pops fringe) (flag_of approximate) (point_of sx sy) (point_of gx gy)) (single_lent (lent_ground w h blocked.now neighbours.now forced.now) links.now ranks.now (settings_of factor (flag_of diagonal) (flag_of improved) depth pops fringe) (lengths_of number.old place.old parent.old cost.old keys.old idx.old) (flag_of approximate) (point_of sx sy) (point_of gx gy))) }
{
    let s = settings(factor, flag(diagonal), flag(improved), depth, pops, fringe);
    let start = point(sx, sy);
    let goal = point(gx, gy);
    let near = flag(approximate);
    let a = single(
        blocked, neighbours, forced, links, ranks, number, place, parent, cost, keys, idx, out, w,
        h, s, start, goal, near,
    );
    routed(a)
}

// The waypoints from a start to one of several goals, given as pairs; the rest as above.
// Refuses STATE, SETTING, GOALS, POINT, then as the single-goal search does, but never NO_ROUTE.
pub fn barnsling_multiple_goals(
    blocked: &[u8],
    neighbours: &[u8],
    forced: &[u8],
    links: &[u16],
    ranks: &[u8],
    goals: &[i32],
    number: &mut [u32],
    place: &mut [u32],
    parent: &mut [u32],
    cost: &mut [u64],
    keys: &mut [u64],
    idx: &mut [u32],
    out: &mut [i32],
    w: usize,
    h: usize,
    factor: f32,
    diagonal: u8,
    improved: u8,
    depth: usize,
    pops: usize,
    fringe: usize,
    sx: i32,
    sy: i32,
) -> Route
    ensures { (result ≡ route_of (answer_of (length out.old) (several_lent (lent_ground w h blocked.now neighbours.now forced.now) links.now ranks.now (settings_of factor (flag_of diagonal) (flag_of improved) depth pops fringe) (lengths_of number.old place.old parent.old cost.old keys.old idx.old) (point_of sx sy) goals.now))) × (out.new ≡ out_after out.old (several_plan w h (settings_of factor (flag_of diagonal) (flag_of improved) depth pops fringe) (point_of sx sy) goals.now) (several_lent (lent_ground w h blocked.now neighbours.now forced.now) links.now ranks.now (settings_of factor (flag_of diagonal) (flag_of improved) depth pops fringe) (lengths_of number.old place.old parent.old cost.old keys.old idx.old) (point_of sx sy) goals.now)) }
{
    let s = settings(factor, flag(diagonal), flag(improved), depth, pops, fringe);
    let start = point(sx, sy);
    let a = several(
        blocked, neighbours, forced, links, ranks, goals, number, place, parent, cost, keys, idx,
        out, w, h, s, start,
    );
    routed(a)
}
