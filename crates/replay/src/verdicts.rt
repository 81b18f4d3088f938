// Blocks of route checks. Their form stands at the head of oracle/tools/src/bin/checks.rs.
use super::{grids, tallies};
use checks::Checked;
use grid::Grid;
use points::Refusal;

// Whether s begins with another answer: its result, the point that POINT carries, 1 if clear, and the first bent leg or 0.
fn differs(c: Result<Checked, Refusal>, s: &[u8]) -> bool {
    let clear = lists::u8_at(s, 5);
    let bent = lists::u8_at(s, 6) as usize;
    match c {
        Ok(checked) => {
            lists::u8_at(s, 0) != 0
                || clear != u8::from(checked.clear)
                || bent != checked.bent.unwrap_or(0)
        }
        Err(r) => { tallies::refused_wrong(r, s) || clear != 0 || bent != 0 }
    }
}

// The waypoints and the answer, with which s begins.
fn judged(g: Grid, s: &[u8]) -> bool {
    let count = tallies::count_at(s, 0, 64);
    let mut numbers = [0i32; 200];
    let list = tallies::numbers(s, count, &mut numbers);
    differs(
        checks::check_route(g, list),
        tallies::rest(s, 2 + 2 * count),
    )
}

// The check reads no table but that of the blocked cells.
pub fn replay(s: &[u8]) -> u64 {
    let cells = tallies::count_at(s, 3, 4096);
    let g = grids::blocked(s, true, 3);
    u64::from(judged(g, tallies::rest(s, 5 + (cells + 7) / 8)))
}
