// The library `boundary` for C and other languages: each function here calls the library's of the same name and promises the same, and the static library exports it. A slice is passed as a pointer and then a length.
#![tactic(auto)]

ghost use Rattle.std.specs.Prelude.{◌≡◌, false, ◌%◌, length};
ghost use Rattle.headings.specs.Headings.{direction_of};
ghost use Rattle.costs.specs.Cost.{distance_of};
ghost use Rattle.costs.specs.Scale.{scaled_of};
ghost use Rattle.masks.specs.Masks.{forced_of, pruned_in};
ghost use Rattle.finder.specs.Find.{lent_ground, lengths_of, answer_of, out_after, single_plan, several_plan};
ghost use Rattle.packing.specs.Packing.{flag_of, point_of, heading_packed, measure_packed, settings_of};
ghost use Rattle.replies.specs.Replies.{route_of};
ghost use Rattle.boundary.specs.Searches.{single_lent, several_lent};
ghost use Rattle.boundary.specs.Lent.{tables, left, left_links, new_lent, set_lent, rebuild_lent, update_lent, component_lent, blocked_lent, mask_lent, pruned_lent, reachable_lent, unreachable_lent, near_lent, far_lent};

use replies::Route;

pub mod texts;
pub mod walks;

// The number of this interface, which the header and the Rust crate name too: it rises where a declaration, what an answer says or its form, or a refusal's number changes.
#[unsafe(no_mangle)]
pub extern "C" fn barnsling_version() -> u32
    ensures { result ≡ 4 }
{
    boundary::barnsling_version()
}

// The forced mask of a neighbour mask.
#[unsafe(no_mangle)]
pub extern "C" fn barnsling_forced_mask(neighbours: u8) -> u8
    ensures { result ≡ forced_of neighbours }
{
    boundary::barnsling_forced_mask(neighbours)
}

// The pruned mask for travel in a direction, read modulo 8.
#[unsafe(no_mangle)]
pub extern "C" fn barnsling_pruned_mask(diagonal: u8, direction: u8, neighbours: u8) -> u8
    ensures { result ≡ pruned_in (flag_of diagonal) (direction % 8) neighbours }
{
    boundary::barnsling_pruned_mask(diagonal, direction, neighbours)
}

// The direction from a to b, 8 more where it is bent, and 16 times how many steps lead there; or 2^32 * refusal, where POINT has 256 more for the
// first point and 512 more for the second. Refuses POINT, SAME.
#[unsafe(no_mangle)]
pub extern "C" fn barnsling_direction(ax: i32, ay: i32, bx: i32, by: i32) -> u64
    ensures { result ≡ heading_packed (direction_of (point_of ax ay) (point_of bx by)) (point_of ax ay) }
{
    boundary::barnsling_direction(ax, ay, bx, by)
}

// The distance from a to b: below 2^32, or a refusal as above. Refuses POINT.
#[unsafe(no_mangle)]
pub extern "C" fn barnsling_distance(diagonal: u8, ax: i32, ay: i32, bx: i32, by: i32) -> u64
    ensures { result ≡ measure_packed (distance_of (flag_of diagonal) (point_of ax ay) (point_of bx by)) (point_of ax ay) }
{
    boundary::barnsling_distance(diagonal, ax, ay, bx, by)
}

// The scaled distance from a to b: below 2^32, or a refusal as above. Refuses SETTING, POINT.
#[unsafe(no_mangle)]
pub extern "C" fn barnsling_scaled_distance(
    factor: f32,
    diagonal: u8,
    ax: i32,
    ay: i32,
    bx: i32,
    by: i32,
) -> u64
    ensures { result ≡ measure_packed (scaled_of (flag_of diagonal) factor (point_of ax ay) (point_of bx by)) (point_of ax ay) }
{
    boundary::barnsling_scaled_distance(factor, diagonal, ax, ay, bx, by)
}

// A new grid in lent tables: 0. Refuses SIZE, then STATE where a table is too short.
#[unsafe(no_mangle)]
pub extern "C" fn barnsling_new(
    blocked: &mut [u8],
    neighbours: &mut [u8],
    forced: &mut [u8],
    parent: &mut [u16],
    rank: &mut [u8],
    w: usize,
    h: usize,
) -> u64
    ensures { left result blocked.new neighbours.new forced.new parent.new rank.new
        ≡ new_lent w h (tables false blocked.old neighbours.old forced.old parent.old rank.old) }
{
    boundary::barnsling_new(blocked, neighbours, forced, parent, rank, w, h)
}

// Blocks or frees the cell (x, y): the dirty mark afterwards, 0 or 1. Refuses STATE, then POINT.
#[unsafe(no_mangle)]
pub extern "C" fn barnsling_set(
    blocked: &mut [u8],
    neighbours: &mut [u8],
    forced: &mut [u8],
    parent: &mut [u16],
    rank: &mut [u8],
    w: usize,
    h: usize,
    diagonal: u8,
    dirty: u8,
    x: i32,
    y: i32,
    b: u8,
) -> u64
    ensures { left result blocked.new neighbours.new forced.new parent.new rank.new
        ≡ set_lent w h (flag_of diagonal) (tables (flag_of dirty) blocked.old neighbours.old forced.old parent.old rank.old) (point_of x y) (flag_of b) }
{
    boundary::barnsling_set(
        blocked, neighbours, forced, parent, rank, w, h, diagonal, dirty, x, y, b,
    )
}

// The components anew from the blocked cells alone: 0, the dirty mark afterwards. Refuses STATE.
#[unsafe(no_mangle)]
pub extern "C" fn barnsling_rebuild(
    blocked: &[u8],
    parent: &mut [u16],
    rank: &mut [u8],
    w: usize,
    h: usize,
    diagonal: u8,
) -> u64
    ensures { left_links result parent.new rank.new ≡ rebuild_lent w h (flag_of diagonal) blocked.now parent.old rank.old }
{
    boundary::barnsling_rebuild(blocked, parent, rank, w, h, diagonal)
}

// `barnsling_rebuild` where the grid is dirty: 0, the dirty mark afterwards. Refuses STATE.
#[unsafe(no_mangle)]
pub extern "C" fn barnsling_update(
    blocked: &[u8],
    parent: &mut [u16],
    rank: &mut [u8],
    w: usize,
    h: usize,
    diagonal: u8,
    dirty: u8,
) -> u64
    ensures { left_links result parent.new rank.new ≡ update_lent w h (flag_of diagonal) (flag_of dirty) blocked.now parent.old rank.old }
{
    boundary::barnsling_update(blocked, parent, rank, w, h, diagonal, dirty)
}

// The component of the cell (x, y), as the Rust numbers it. Refuses STATE, then POINT.
#[unsafe(no_mangle)]
pub extern "C" fn barnsling_component(
    parent: &[u16],
    rank: &[u8],
    w: usize,
    h: usize,
    x: i32,
    y: i32,
) -> u64
    ensures { result ≡ component_lent w h parent.now rank.now (point_of x y) }
{
    boundary::barnsling_component(parent, rank, w, h, x, y)
}

// Whether the cell (x, y) is blocked: 1 or 0. Refuses STATE, then POINT.
#[unsafe(no_mangle)]
pub extern "C" fn barnsling_blocked_at(
    blocked: &[u8],
    parent: &[u16],
    rank: &[u8],
    w: usize,
    h: usize,
    x: i32,
    y: i32,
) -> u64
    ensures { result ≡ blocked_lent w h blocked.now parent.now rank.now (point_of x y) }
{
    boundary::barnsling_blocked_at(blocked, parent, rank, w, h, x, y)
}

// Which neighbours of the cell (x, y) are inside and free, a bit for each direction: below 256. Refuses STATE, then POINT.
#[unsafe(no_mangle)]
pub extern "C" fn barnsling_neighbours_at(
    neighbours: &[u8],
    parent: &[u16],
    rank: &[u8],
    w: usize,
    h: usize,
    x: i32,
    y: i32,
) -> u64
    ensures { result ≡ mask_lent w h neighbours.now parent.now rank.now (point_of x y) }
{
    boundary::barnsling_neighbours_at(neighbours, parent, rank, w, h, x, y)
}

// The forced directions of the cell (x, y): below 256. Refuses STATE, then POINT.
#[unsafe(no_mangle)]
pub extern "C" fn barnsling_forced_at(
    forced: &[u8],
    parent: &[u16],
    rank: &[u8],
    w: usize,
    h: usize,
    x: i32,
    y: i32,
) -> u64
    ensures { result ≡ mask_lent w h forced.now parent.now rank.now (point_of x y) }
{
    boundary::barnsling_forced_at(forced, parent, rank, w, h, x, y)
}

// The directions that a search follows from the cell (x, y), having come to it in a direction, read modulo 8: below 256.
// Refuses STATE, then POINT.
#[unsafe(no_mangle)]
pub extern "C" fn barnsling_pruned_at(
    neighbours: &[u8],
    parent: &[u16],
    rank: &[u8],
    w: usize,
    h: usize,
    diagonal: u8,
    x: i32,
    y: i32,
    direction: u8,
) -> u64
    ensures { result ≡ pruned_lent w h (flag_of diagonal) neighbours.now parent.now rank.now (point_of x y) direction }
{
    boundary::barnsling_pruned_at(neighbours, parent, rank, w, h, diagonal, x, y, direction)
}

// Whether two points share a component, 0 or 1: no where one is outside. Refuses STATE, then POINT.
#[unsafe(no_mangle)]
pub extern "C" fn barnsling_reachable(
    parent: &[u16],
    rank: &[u8],
    w: usize,
    h: usize,
    sx: i32,
    sy: i32,
    gx: i32,
    gy: i32,
) -> u64
    ensures { result ≡ reachable_lent w h parent.now rank.now (point_of sx sy) (point_of gx gy) }
{
    boundary::barnsling_reachable(parent, rank, w, h, sx, sy, gx, gy)
}

// Whether they do not: yes where one is outside. Refuses STATE, then POINT.
#[unsafe(no_mangle)]
pub extern "C" fn barnsling_unreachable(
    parent: &[u16],
    rank: &[u8],
    w: usize,
    h: usize,
    sx: i32,
    sy: i32,
    gx: i32,
    gy: i32,
) -> u64
    ensures { result ≡ unreachable_lent w h parent.now rank.now (point_of sx sy) (point_of gx gy) }
{
    boundary::barnsling_unreachable(parent, rank, w, h, sx, sy, gx, gy)
}

// Whether some inside neighbour of the goal shares the start's component: yes where one is outside. Refuses STATE, then POINT.
#[unsafe(no_mangle)]
pub extern "C" fn barnsling_neighbours_reachable(
    parent: &[u16],
    rank: &[u8],
    w: usize,
    h: usize,
    diagonal: u8,
    sx: i32,
    sy: i32,
    gx: i32,
    gy: i32,
) -> u64
    ensures { result ≡ near_lent w h (flag_of diagonal) parent.now rank.now (point_of sx sy) (point_of gx gy) }
{
    boundary::barnsling_neighbours_reachable(parent, rank, w, h, diagonal, sx, sy, gx, gy)
}

// Whether none does: yes, too, where one is outside. Refuses STATE, then POINT.
#[unsafe(no_mangle)]
pub extern "C" fn barnsling_neighbours_unreachable(
    parent: &[u16],
    rank: &[u8],
    w: usize,
    h: usize,
    diagonal: u8,
    sx: i32,
    sy: i32,
    gx: i32,
    gy: i32,
) -> u64
    ensures { result ≡ far_lent w h (flag_of diagonal) parent.now rank.now (point_of sx sy) (point_of gx gy) }
{
    boundary::barnsling_neighbours_unreachable(parent, rank, w, h, diagonal, sx, sy, gx, gy)
}

// The waypoints from a start to a goal, or approximately to it, written as pairs; the rest of the output is kept, and number to idx are working room.
// Refuses STATE, SETTING, POINT, NO_ROUTE, then EXHAUSTED, DEPTH, FRINGE, POPS or SAME as met, ROOM last; a refusal writes no output.
#[unsafe(no_mangle)]
pub extern "C" fn barnsling_single_goal(
    blocked: &[u8],
    neighbours: &[u8],
    forced: &[u8],
    links: &[u16],
    ranks: &[u8],
    number: &mut [u32],
    place: &mut [u32],
    parent: &mut [u32],
    cost: &mut [u64],
    keys: &mut [u64],
    idx: &mut [u32],
    out: &mut [i32],
    w: usize,
    h: usize,
    factor: f32,
    diagonal: u8,
    improved: u8,
    depth: usize,
    pops: usize,
    fringe: usize,
    sx: i32,
    sy: i32,
    gx: i32,
    gy: i32,
    approximate: u8,
) -> Route
    ensures { (result ≡ route_of (answer_of (length out.old) (single_lent (lent_ground w h blocked.now neighbours.now forced.now) links.now ranks.now (settings_of factor (flag_of diagonal) (flag_of improved) depth pops fringe) (lengths_of number.old place.old parent.old cost.old keys.old idx.old) (flag_of approximate) (point_of sx sy) (point_of gx gy)))) × (out.new ≡ out_after out.old (single_plan w h (settings_of factor (flag_of diagonal) (flag_of improved) depth pops fringe) (flag_of approximate) (point_of sx sy) (point_of gx gy)) (single_lent (lent_ground w h blocked.now neighbours.now forced.now) links.now ranks.now (settings_of factor (flag_of diagonal) (flag_of improved) depth pops fringe) (lengths_of number.old place.old parent.old cost.old keys.old idx.old) (flag_of approximate) (point_of sx sy) (point_of gx gy))) }
{
    boundary::barnsling_single_goal(
        blocked,
        neighbours,
        forced,
        links,
        ranks,
        number,
        place,
        parent,
        cost,
        keys,
        idx,
        out,
        w,
        h,
        factor,
        diagonal,
        improved,
        depth,
        pops,
        fringe,
        sx,
        sy,
        gx,
        gy,
        approximate,
    )
}

// The waypoints from a start to one of several goals, given as pairs; the rest as above.
// Refuses STATE, SETTING, GOALS, POINT, then as the single-goal search does, but never NO_ROUTE.
#[unsafe(no_mangle)]
pub extern "C" fn barnsling_multiple_goals(
    blocked: &[u8],
    neighbours: &[u8],
    forced: &[u8],
    links: &[u16],
    ranks: &[u8],
    goals: &[i32],
    number: &mut [u32],
    place: &mut [u32],
    parent: &mut [u32],
    cost: &mut [u64],
    keys: &mut [u64],
    idx: &mut [u32],
    out: &mut [i32],
    w: usize,
    h: usize,
    factor: f32,
    diagonal: u8,
    improved: u8,
    depth: usize,
    pops: usize,
    fringe: usize,
    sx: i32,
    sy: i32,
) -> Route
    ensures { (result ≡ route_of (answer_of (length out.old) (several_lent (lent_ground w h blocked.now neighbours.now forced.now) links.now ranks.now (settings_of factor (flag_of diagonal) (flag_of improved) depth pops fringe) (lengths_of number.old place.old parent.old cost.old keys.old idx.old) (point_of sx sy) goals.now))) × (out.new ≡ out_after out.old (several_plan w h (settings_of factor (flag_of diagonal) (flag_of improved) depth pops fringe) (point_of sx sy) goals.now) (several_lent (lent_ground w h blocked.now neighbours.now forced.now) links.now ranks.now (settings_of factor (flag_of diagonal) (flag_of improved) depth pops fringe) (lengths_of number.old place.old parent.old cost.old keys.old idx.old) (point_of sx sy) goals.now)) }
{
    boundary::barnsling_multiple_goals(
        blocked, neighbours, forced, links, ranks, goals, number, place, parent, cost, keys, idx,
        out, w, h, factor, diagonal, improved, depth, pops, fringe, sx, sy,
    )
}
