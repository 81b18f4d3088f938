// Blocks of grids and of searches on them. Their form stands at the head of oracle/tools/src/bin/searches.rs.
use super::{grids, tallies};
use costs::Settings;
use finder::{Answer, Found};
use grid::Grid;
use points::{Point, Refusal};

// ---- grids

// The cells, perhaps rebuilt, and edited then.
pub fn by_calls(s: &[u8]) -> Grid {
    let diagonal = lists::u8_at(s, 3) == 1;
    let at = 6 + (lists::u16_at(s, 4) as usize + 7) / 8;
    let mut g = grids::blocked(s, diagonal, 4);
    if lists::u8_at(s, at) == 1 {
        let _ = grid::generate_components(&mut g, diagonal);
    }
    grids::with_edits(g, diagonal, tallies::rest(s, at + 1))
}

pub fn by_tables(s: &[u8]) -> Grid {
    let mut g = grids::blank(lists::u16_at(s, 1) as usize, lists::u16_at(s, 3) as usize);
    g.dirty = lists::u8_at(s, 5) == 1;
    grids::with_values(g, tallies::rest(s, 6))
}

// ---- searches

// What a search is: to one goal, exact or to a cell beside it, or to several goals.
#[derive(Clone, Copy)]
pub enum Kind {
    Exact,
    Approximate,
    Several,
}

// A number that no other kind has is an exact search's.
impl From<u8> for Kind {
    fn from(number: u8) -> Kind {
        match number {
            1 => Kind::Approximate,
            2 => Kind::Several,
            _ => Kind::Exact,
        }
    }
}

fn settings(s: &[u8]) -> Settings {
    Settings {
        factor: lists::f32_at(s, 4),
        diagonal: lists::u8_at(s, 2) == 1,
        improved: lists::u8_at(s, 3) == 1,
        depth: lists::u32_at(s, 8) as usize,
        pops: lists::u32_at(s, 12) as usize,
        fringe: lists::u32_at(s, 16) as usize,
    }
}

// A search of a kind. The working room holds numbers of no meaning.
pub fn search(
    kind: Kind,
    g: Grid,
    s: Settings,
    start: Point,
    goal: Point,
    goals: &[i32],
    out: &mut [i32],
) -> Answer {
    let mut number = [7u32; 4097];
    let mut place = [7u32; 4097];
    let mut parent = [7u32; 4097];
    let mut cost = [7u64; 4097];
    let mut keys = [7u64; 8192];
    let mut idx = [7u32; 8192];
    let approximate = match kind {
        Kind::Exact => false,
        Kind::Approximate => true,
        Kind::Several => {
            return waypoints::get_waypoints_multiple_goals(
                &mut number,
                &mut place,
                &mut parent,
                &mut cost,
                &mut keys,
                &mut idx,
                goals,
                out,
                g,
                s,
                start,
            );
        }
    };
    waypoints::get_waypoints_single_goal(
        &mut number,
        &mut place,
        &mut parent,
        &mut cost,
        &mut keys,
        &mut idx,
        out,
        g,
        s,
        start,
        goal,
        approximate,
    )
}

// Whether s begins with another result, other waypoints or another cost.
fn outcome_wrong(o: Result<Found, Refusal>, s: &[u8]) -> bool {
    match o {
        Ok(found) => {
            lists::u8_at(s, 0) != 0
                || found.length != lists::u16_at(s, 13) as usize
                || found.cost != u64::from(lists::u32_at(s, 9))
        }
        Err(r) => tallies::refused_wrong(r, s),
    }
}

// 1 where the answer, or its pops, differs from the one that s begins with, and 1 for each place of the output that does.
fn compared(a: Answer, s: &[u8], out: &[i32]) -> u64 {
    let wrong = a.pops != lists::u32_at(s, 5) as usize || outcome_wrong(a.outcome, s);
    tallies::unlike_points(tallies::rest(s, 13), out).wrapping_add(u64::from(wrong))
}

// The search that the block asks for, with the goals' numbers lent and as much of the output as the list says.
pub fn replay(s: &[u8], g: Grid) -> u64 {
    let room = tallies::room_at(s, 20, 4097);
    let count = tallies::count_at(s, 28, 200);
    let mut numbers = [0i32; 200];
    let goals = tallies::numbers(tallies::rest(s, 28), count, &mut numbers);
    let mut out = tallies::untouched::<8200>();
    let a = search(
        Kind::from(lists::u8_at(s, 1)),
        g,
        settings(s),
        tallies::point_at(s, 24),
        tallies::point_at(s, 30),
        goals,
        &mut out[..2 * room],
    );
    compared(a, tallies::rest(s, 30 + 2 * count), &out)
}
