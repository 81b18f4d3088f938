// Reads a map on standard input, or those in the files that are named, and draws each floor with its route:
// S start, G goal, X both, as small letters where the cell is blocked; o waypoint, * walked, # blocked, . free.
// What came of the search stands under it, in words.
#![tactic(auto)]

ghost use Rattle.std.specs.Prelude.{◌<◌, IfSome};

use checks::Checked;
use finder::{Answer, Found};
use floors::MapRead;
use grid::Grid;
use points::{Point, Refusal};
use prompt::{EprintBytes, Failure};
use std::env::Env;
use std::fs::Files;
use std::{fmt, io};

const PROGRAM: &[u8] = b"show: ";

// ---- a floor as it is drawn

// A floor's cells, a byte each: free is 0 and blocked is 1 until something is drawn on them.
#[derive(Drop)]
struct Canvas {
    cells: [u8; 4096],
    width: usize,
    height: usize,
}

impl Canvas {
    // The cell of a point, or None where the point is outside.
    fn cell_at(&self, p: Point) -> Option<usize>
        ensures { IfSome result (λ cell. cell < 4096) }
    {
        if !cells::sized(self.width, self.height) {
            return None;
        }
        let cell = cells::cell_of(self.width, self.height, p);
        if self.width * self.height <= cell {
            return None;
        }
        Some(cell)
    }

    // Draws a mark at a point, where the point is inside.
    fn put(&mut self, p: Point, mark: u8) {
        if let Some(cell) = self.cell_at(p) {
            self.cells[cell] = mark;
        }
    }

    // Draws a mark at each point of a list that is inside.
    fn put_all(&mut self, list: &[i32], mark: u8) {
        let (pairs, _) = list.as_chunks::<2>();
        for [x, y] in pairs {
            self.put(Point { x: *x, y: *y }, mark);
        }
    }

    // Draws the cells that nothing is drawn on.
    fn put_cells(&mut self) {
        for cell in self.cells.iter_mut() {
            *cell = match *cell {
                0 => b'.',
                1 => b'#',
                drawn => drawn,
            };
        }
    }

    // How an end of the way is drawn: with its letter, the small one on a blocked cell. None outside the floor.
    fn letter(&self, p: Point, mark: u8) -> Option<u8> {
        let cell = self.cell_at(p)?;
        if self.cells[cell] == 0 {
            Some(mark)
        } else {
            Some(mark.to_ascii_lowercase())
        }
    }

    // Writes the rows, a line each.
    fn say(&self, rt: &impl Print) -> io::Result<()> {
        for row in self.cells.chunks(self.width.max(1)).take(self.height) {
            rt.write_all(row)?;
            rt.write_all(b"\n")?;
        }
        Ok(())
    }
}

// ---- what came of a search, in words

// Why there is no route.
#[derive(Drop)]
struct NoRoute(Refusal);

impl fmt::Display for NoRoute {
    fn fmt<W: fmt::Write>(&self, f: &mut fmt::Formatter<W>) -> fmt::Result {
        match self.0 {
            Refusal::NoRoute => f.write_str("no route: the start and the goal are not joined"),
            Refusal::Exhausted => {
                f.write_str("no route found: all that the search reaches was searched")
            }
            Refusal::Depth => f.write_str("refused: jumps nest deeper than the limit"),
            Refusal::Fringe => f.write_str("refused: more open cells than the limit"),
            Refusal::Pops => f.write_str("refused: more cells to look at than the limit"),
            other => write!(f, "refused with number {}", other.number()),
        }
    }
}

// The first waypoints of a list; none where it holds fewer.
fn first<'a>(list: &'a [i32], waypoints: usize) -> &'a [i32] {
    list.get(..waypoints.saturating_mul(2)).unwrap_or(&[])
}

// Says that a way was found; it has one waypoint where the start is the goal.
fn say_found(rt: &impl Print, waypoints: usize) -> io::Result<()> {
    print!(rt; "found, waypoints: {waypoints}")?;
    if waypoints == 1 {
        print!(rt; ", the start is the goal")?;
    }
    Ok(())
}

// Says which leg of a way is the first that is bent, where the route check names one.
fn say_bend(rt: &impl Print, checked: Result<Checked, Refusal>) -> io::Result<()> {
    if let Ok(Checked { bent: Some(k), .. }) = checked {
        let to = k.wrapping_add(1);
        print!(rt; "\nfirst bent leg: {k}, from waypoint {k} to waypoint {to}")?;
    }
    Ok(())
}

// Says what came of a search on a grid, its waypoints at the front of the list.
fn say_answer(rt: &impl Print, g: Grid, list: &[i32], answer: Answer) -> io::Result<()> {
    match answer.outcome {
        Ok(found) => {
            say_found(rt, found.length)?;
            say_bend(rt, checks::check_route(g, first(list, found.length)))?;
        }
        Err(r) => rt.print(NoRoute(r))?,
    }
    println!(rt; "\npops of the search: {}", answer.pops)
}

// Says what is to be known of an end of the way, by its letter.
fn say_end(rt: &impl Print, who: &str, letter: Option<u8>) -> io::Result<()> {
    match letter {
        None => println!(rt; "{who} is outside the floor"),
        Some(b'a'..=b'z') => println!(rt; "{who} is on a blocked cell"),
        Some(_) => Ok(()),
    }
}

// ---- what is shown

// Draws a route that was found: its walk, and over it its waypoints. A walk longer than its room is not drawn.
fn put_route(canvas: &mut Canvas, list: &[i32], outcome: Result<Found, Refusal>) {
    let Ok(found) = outcome else {
        return;
    };
    let waypoints = first(list, found.length);
    let mut path = [-1i32; 16384];
    if let Ok(steps) = paths::waypoints_to_path(waypoints, &mut path) {
        canvas.put_all(first(&path, steps), b'*');
    }
    canvas.put_all(waypoints, b'o');
}

// The letter of the goal, which is drawn over the start.
fn goal_mark(start: Point, goal: Point) -> u8 {
    if start == goal { b'X' } else { b'G' }
}

// Draws an end of the way with its letter, where it is inside.
fn put_end(canvas: &mut Canvas, p: Point, letter: Option<u8>) {
    if let Some(mark) = letter {
        canvas.put(p, mark);
    }
}

// Searches on a grid, draws the way on its floor, and tells what came of it.
fn draw(rt: &impl Print, g: Grid, diagonal: bool, start: Point, goal: Point) -> io::Result<()> {
    let cells = g.blocked;
    let mut canvas = Canvas {
        cells,
        width: g.width,
        height: g.height,
    };
    let start_letter = canvas.letter(start, b'S');
    let goal_letter = canvas.letter(goal, goal_mark(start, goal));
    let mut list = [-1i32; 8194];
    let answer = router::searched(&mut list, g, diagonal, start, goal);
    put_route(&mut canvas, &list, answer.outcome);
    put_end(&mut canvas, start, start_letter);
    put_end(&mut canvas, goal, goal_letter);
    canvas.put_cells();
    canvas.say(rt)?;
    say_answer(rt, g, &list, answer)?;
    say_end(rt, "the start", start_letter)?;
    say_end(rt, "the goal", goal_letter)
}

// Draws the floor of a map on its grid with the components built.
fn draw_map(rt: &impl Print, m: &MapRead) -> io::Result<()> {
    let mut g = m.grid;
    let _ = grid::generate_components(&mut g, m.diagonal);
    draw(rt, g, m.diagonal, m.start, m.goal)
}

// Writes the name of a file over its floor, after an empty line where something stands above.
fn say_name(rt: &impl Print, name: &[u8], begun: bool) -> io::Result<()> {
    if begun {
        rt.write_all(b"\n")?;
    }
    rt.write_all(name)?;
    rt.write_all(b"\n")
}

fn say_help(rt: &impl Print) -> io::Result<()> {
    prompt::help(
        rt,
        b"show draws the floor of a map, with the way of a cart from its start to its goal.

  show FILE...    the maps in these files, each under its name where there are several
  show            the map on standard input
  show --help     these words

S is the start, G the goal, X both at once; s, g and x the same on a blocked cell.
o is a waypoint, * a cell between two waypoints, # a blocked cell, . a free one.
Below stand what came of the search, the first bent leg if there is one (from a waypoint to the next,
but not in a straight line), and the pops of the search: the cells that it took up to look at.
What is wrong with a map is said on standard error, and the other files are shown.
",
    )
}

// What an argument asks for: help, or the floor of a text.
#[derive(Drop)]
enum Page<'a> {
    Help,
    Text(&'a [u8]),
}

// The page that a name asks for, its text in the room that is lent, or None where its file cannot be read, which is told.
fn asked_for<'a>(
    rt: &(impl Files + EprintBytes),
    name: &[u8],
    room: &'a mut [u8],
) -> Option<Page<'a>> {
    if name == b"--help".as_slice() {
        return Some(Page::Help);
    }
    match prompt::open(rt, name) {
        Ok(mut file) => Some(Page::Text(prompt::read_full(&mut file, room))),
        Err(why) => {
            prompt::tell(rt, PROGRAM, name, why);
            None
        }
    }
}

// Shows the floor of a text, under its name where several are named. Answers whether there is one; what is wrong with a text that is no map is told.
fn show_text(
    rt: &(impl Print + EprintBytes),
    name: &[u8],
    text: &[u8],
    several: bool,
    begun: bool,
) -> io::Result<bool> {
    let m = floors::read_map(text);
    if m.outcome.is_err() {
        prompt::tell_fault(rt, PROGRAM, name, text);
        return Ok(false);
    }
    if several {
        say_name(rt, name, begun)?;
    }
    draw_map(rt, &m)?;
    Ok(true)
}

// Shows a page. Answers whether anything was written.
fn show_page(
    rt: &(impl Print + EprintBytes),
    name: &[u8],
    page: Page<'_>,
    several: bool,
    begun: bool,
) -> io::Result<bool> {
    match page {
        Page::Help => {
            say_help(rt)?;
            Ok(true)
        }
        Page::Text(text) => show_text(rt, name, text, several, begun),
    }
}

// Tells of a write on standard output that failed.
fn tell_unwritten(rt: &impl EprintBytes, why: io::Error) {
    prompt::tell(rt, PROGRAM, b"standard output", Failure::from(why));
}

// Says what is wrong with a page's text, where nothing may be written any more.
fn tell_page(rt: &impl EprintBytes, name: &[u8], page: Page<'_>) {
    if let Page::Text(text) = page {
        prompt::tell_fault(rt, PROGRAM, name, text);
    }
}

// What has become of standard output: whether anything stands on it, and whether a write failed, after which nothing is written.
#[derive(Clone, Copy)]
struct Written {
    begun: bool,
    failed: bool,
}

// Shows what a name asks for, and answers what has become of standard output.
fn show_named(
    rt: &(impl Files + Print + EprintBytes),
    name: &[u8],
    several: bool,
    written: Written,
) -> Written {
    let mut room = [0u8; 8193];
    let Some(page) = asked_for(rt, name, &mut room) else {
        return written;
    };
    if written.failed {
        tell_page(rt, name, page);
        return written;
    }
    match show_page(rt, name, page, several, written.begun) {
        Ok(shown) => Written {
            begun: written.begun || shown,
            failed: false,
        },
        Err(e) => {
            tell_unwritten(rt, e);
            Written {
                begun: true,
                failed: true,
            }
        }
    }
}

// Shows what each argument asks for. After a write that failed the maps are read alone, so that what is wrong with them is told.
fn show_all(rt: &(impl Env + Files + Print + EprintBytes), count: usize) {
    let mut written = Written {
        begun: false,
        failed: false,
    };
    for i in 1..count {
        let mut room = [0u8; 4096];
        match prompt::file_name(rt, i, &mut room) {
            Ok(name) => written = show_named(rt, name, 2 < count, written),
            Err(why) => prompt::tell(rt, PROGRAM, b"file name", why),
        }
    }
}

fn main(rt: HostRuntime) {
    let count = prompt::arg_count(&rt);
    if 1 < count {
        show_all(&rt, count);
        return;
    }
    let mut room = [0u8; 8193];
    let text = prompt::read_full(&mut rt.stdin(), &mut room);
    if let Err(e) = show_text(&rt, b"standard input", text, false, false) {
        tell_unwritten(&rt, e);
    }
}
