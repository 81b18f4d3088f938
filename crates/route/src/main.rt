// Reads a map on standard input, or in the file that is named, to its end and prints the route, as the document has it.
// What is wrong with a map is said in words too, on standard error.
#![tactic(auto)]

use prompt::{EprintBytes, Failure};
use std::env::Env;
use std::fs::Files;
use std::io;
use std::io::Read;

const PROGRAM: &[u8] = b"route: ";

// Tells of a write on standard output that failed.
fn tell_unwritten(rt: &impl EprintBytes, wrote: io::Result<()>) {
    if let Err(e) = wrote {
        prompt::tell(rt, PROGRAM, b"standard output", Failure::from(e));
    }
}

fn help(rt: &impl Print) -> io::Result<()> {
    prompt::help(
        rt,
        b"route finds a way for a cart on the floor of a map, and prints it as numbers.

  route FILE      the map in this file
  route           the map on standard input
  route --help    these words

It prints
  result=0        0 where a way was found, else why not: 4 where the start and the goal are not
                  joined, 6 where nothing is left to search, 7, 8 and 9 at a limit of the search
  pops=3          the cells that the search took up to look at
  waypoints=3     how many waypoints follow, from the start to the goal
  clear=1         1 where each cell on the way after the first is free, else 0
  point=0,0       a waypoint, x and y
or, of a text that is no map,
  result=12
  line=7          the first bad or missing line from 1; 0 where there are more than 8192 bytes
and says on standard error what is wrong there, or with the file.
",
    )
}

// Prints the route of the map that an input gives, and what is wrong with it.
fn route_from(rt: &(impl Print + EprintBytes), name: &[u8], input: &mut impl Read) {
    let mut room = [0u8; 8193];
    let text = prompt::read_full(input, &mut room);
    let mut out = [0u8; router::PRINT];
    let n = router::route_text(text, &mut out);
    tell_unwritten(rt, rt.write_all(&out[..n]));
    prompt::tell_fault(rt, PROGRAM, name, text);
}

// Prints the route of the map in the file of a name.
fn route_file(rt: &(impl Files + Print + EprintBytes), name: &[u8]) {
    match prompt::open(rt, name) {
        Ok(mut file) => route_from(rt, name, &mut file),
        Err(why) => prompt::tell(rt, PROGRAM, name, why),
    }
}

// Does what argument 1 asks for.
fn route_argument(rt: &(impl Env + Files + Print + EprintBytes)) {
    let mut room = [0u8; 4096];
    match prompt::file_name(rt, 1, &mut room) {
        Ok(b"--help") => tell_unwritten(rt, help(rt)),
        Ok(name) => route_file(rt, name),
        Err(why) => prompt::tell(rt, PROGRAM, b"file name", why),
    }
}

fn main(rt: HostRuntime) {
    match prompt::arg_count(&rt) {
        0 | 1 => route_from(&rt, b"standard input", &mut rt.stdin()),
        2 => route_argument(&rt),
        _ => {
            let _ = eprintln!(rt; "route: one file at a time; route --help says more");
        }
    }
}
