// Runs document 01's "Run" examples, then replays a list of the Rust's answers from standard input and counts those that differ.
//
// A list is a run of blocks, each a length of four bytes and as many bytes. The first of them is the block's kind, by the program of
// oracle/tools that printed it: 1 ground, 2 tables, 3 searches, 4 paths, 5 checks, 6 texts.
#![tactic(auto)]

mod tallies; // what is compared and counted
mod blocks; // the next block, and what is printed
mod run_examples;
mod grids; // grids by calls and by their tables
mod ground;
mod searches;
mod table_steps;
mod texts;
mod verdicts; // route checks
mod walks; // paths

use blocks::{Block, Kind};
use grid::Grid;
use std::io::Read;
use tallies::{Place, Tally};

// The grid in hand, its flag, what was counted of each kind of answer, and the differences.
#[derive(Drop)]
struct Run {
    grid: Grid,
    diagonal: bool,
    counts: [u64; 17],
    wrong: u64,
}

impl Run {
    fn new() -> Run {
        Run {
            grid: grids::blank(1, 1),
            diagonal: true,
            counts: [0; 17],
            wrong: 0,
        }
    }

    // Counts answers, and says of those that differ where they stand.
    fn add(&mut self, rt: &impl Print, y: Tally) {
        let i = y.place as usize;
        let before = self.counts[i];
        if y.wrong != 0 {
            blocks::say(rt, "differences of a block: ", y.wrong);
            blocks::say(rt, "  the place of its count: ", i as u64);
            blocks::say(rt, "  the count before it: ", before);
        }
        self.counts[i] = before.wrapping_add(y.count);
        self.wrong = self.wrong.wrapping_add(y.wrong);
    }

    // A step of the tables: what it makes of the grid in hand, and its questions.
    fn step(&mut self, rt: &impl Print, s: &[u8]) {
        let diagonal = table_steps::turned(s, self.diagonal);
        let mut g = self.grid;
        let outcome = table_steps::call(s, &mut g, diagonal);
        self.add(rt, table_steps::compare(s, self.grid, outcome, g));
        self.grid = g;
        self.diagonal = diagonal;
        self.add(rt, table_steps::cells_asked(g, diagonal, s));
        self.add(rt, table_steps::reaches_asked(g, diagonal, s));
    }

    // A grid, which is then the one in hand.
    fn take(&mut self, rt: &impl Print, g: Grid) {
        self.grid = g;
        self.add(rt, Tally::one(Place::Grids, 0));
    }

    // A grid by calls or by its tables, or a search on the one in hand.
    fn search(&mut self, rt: &impl Print, s: &[u8]) {
        match lists::u8_at(s, 0) {
            0 => self.take(rt, searches::by_calls(s)),
            1 => self.take(rt, searches::by_tables(s)),
            _ => self.add(
                rt,
                Tally::one(Place::Searches, searches::replay(s, self.grid)),
            ),
        }
    }

    // A block; one of a kind that the list does not have is a difference.
    fn replay(&mut self, rt: &impl Print, block: Block) {
        let s = block.bytes;
        match Kind::try_from(block.kind) {
            Ok(Kind::Ground) => self.add(rt, ground::replay(s)),
            Ok(Kind::Tables) => self.step(rt, s),
            Ok(Kind::Searches) => self.search(rt, s),
            Ok(Kind::Paths) => self.add(rt, Tally::one(Place::Paths, walks::replay(s))),
            Ok(Kind::Checks) => self.add(rt, Tally::one(Place::Checks, verdicts::replay(s))),
            Ok(Kind::Texts) => self.add(rt, Tally::one(Place::Texts, texts::replay(s))),
            Err(_) => self.add(rt, Tally::one(Place::Unknown, 1)),
        }
    }

    // Every block. Nothing says that a list ends, so the turns are counted.
    fn replay_all(&mut self, rt: &impl Print, input: &mut impl Read) {
        let mut room = [0u8; 65536];
        for _ in 0..1000000000usize {
            let Some(block) = blocks::next_block(input, &mut room) else {
                return;
            };
            self.replay(rt, block);
        }
    }

    fn tell(&self, rt: &impl Print) {
        blocks::say_counts(
            rt,
            "masks (forced, pruned, without diagonals), directions, turns, headings, distances, scaled:",
            &self.counts[1..9],
        );
        blocks::say_counts(
            rt,
            "steps, cells asked, questions asked:",
            &self.counts[9..12],
        );
        blocks::say_counts(rt, "grids, searches:", &self.counts[12..14]);
        blocks::say_counts(rt, "paths, checks, texts:", &self.counts[14..17]);
        blocks::say(rt, "differences=", self.wrong);
    }
}

fn main(rt: HostRuntime) {
    run_examples::run(&rt);
    let mut run = Run::new();
    run.replay_all(&rt, &mut rt.stdin());
    run.tell(&rt);
}
