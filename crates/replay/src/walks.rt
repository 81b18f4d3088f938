// Blocks of waypoints and the paths that the Rust makes of them. Their form stands at the head of oracle/tools/src/bin/paths.rs.
use super::tallies;
use points::Refusal;

// Whether s begins with another result or another count of points.
fn answer_wrong(w: Result<usize, Refusal>, s: &[u8]) -> bool {
    match w {
        Ok(n) => lists::u8_at(s, 0) != 0 || n != lists::u16_at(s, 5) as usize,
        Err(r) => tallies::refused_wrong(r, s),
    }
}

// 1 where the answer differs from the one that s begins with, and 1 for each place of the output that does.
fn compared(w: Result<usize, Refusal>, s: &[u8], out: &[i32]) -> u64 {
    tallies::unlike_points(tallies::rest(s, 5), out).wrapping_add(u64::from(answer_wrong(w, s)))
}

// The call, with the list's numbers lent and as much of the output as the list says.
pub fn replay(s: &[u8]) -> u64 {
    let room = tallies::room_at(s, 1, 16384);
    let count = tallies::count_at(s, 5, 64);
    let mut numbers = [0i32; 200];
    let list = tallies::numbers(tallies::rest(s, 5), count, &mut numbers);
    let mut out = tallies::untouched::<32770>();
    let w = paths::waypoints_to_path(list, &mut out[..2 * room]);
    compared(w, tallies::rest(s, 7 + 2 * count), &out)
}
