// Lists of waypoints for C and Rust: walked into a path, and the walk checked against lent tables.
ghost use Rattle.std.specs.Prelude.{◌≡◌, length};
ghost use Rattle.paths.specs.Walks.{path_answer, path_kept};
ghost use Rattle.replies.specs.Replies.{written_reply, check_reply};
ghost use Rattle.boundary.specs.Walks.{check_lent};

use points::Refusal;
use replies::{Check, Reply, checked, written};

// The path that steps by sign from waypoint to waypoint, written as pairs: how many points; the rest of the output is kept.
// Refuses LIST, POINT, ROOM; then nothing is written.
pub fn barnsling_waypoints_to_path(list: &[i32], out: &mut [i32]) -> Reply
    ensures { (result ≡ written_reply (path_answer list.now (length out.old))) × (out.new ≡ path_kept (path_answer list.now (length out.old)) list.now out.old) }
{
    written(paths::waypoints_to_path(list, out))
}

// Whether every cell of the expanded walk after the first point is inside and free, 1 or 0; and the first bent leg, from 1, or 0, clear or not.
// Refuses STATE, LIST, POINT.
#[tactic(auto, using(std::proofs::Common::tests), unfolding(crate::specs::Walks::check_lent))]
pub fn barnsling_check_route(
    blocked: &[u8],
    parent: &[u16],
    rank: &[u8],
    w: usize,
    h: usize,
    list: &[i32],
) -> Check
    ensures { result ≡ check_reply (check_lent w h blocked.now parent.now rank.now list.now) }
{
    if !super::grounded(blocked, parent, rank, w, h) {
        return checked(Err(Refusal::State));
    }
    checked(checks::check_list(blocked, w, h, list))
}
