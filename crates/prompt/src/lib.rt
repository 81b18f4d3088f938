// What the programs `route` and `show` say alike, in words: what is wrong, on standard error, and help; and how they come to what they read.
// A program names itself as `route: `, with the colon and the space.
#![tactic(auto)]

ghost use Rattle.std.specs.Prelude.{◌≤◌, length, IfOk};

use faults::Fault;
use std::env::{Env, FillError};
use std::fmt::{InlineText, Write};
use std::fs::Files;
use std::io::Read;
use std::str::Utf8Error;
use std::{fmt, fs, io, str};

// Standard error that takes any bytes, since the name of a file need not be text.
pub trait EprintBytes {
    fn eprint_bytes(&self, bytes: &[u8]) -> io::Result<()>;
}

impl EprintBytes for HostRuntime {
    fn eprint_bytes(&self, bytes: &[u8]) -> io::Result<()> {
        self.stderr().write_all(bytes)
    }
}

// Why a file or a stream failed: no argument names it, its name is longer than its room or no text, or a call of the system failed.
#[derive(Drop)]
pub enum Failure {
    NoName,
    LongName,
    NameNoText,
    System(io::Error),
}

impl From<FillError> for Failure {
    fn from(e: FillError) -> Failure {
        match e {
            FillError::NotPresent => Failure::NoName,
            FillError::TooLong => Failure::LongName,
        }
    }
}

impl From<Utf8Error> for Failure {
    fn from(_e: Utf8Error) -> Failure {
        Failure::NameNoText
    }
}

impl From<io::Error> for Failure {
    fn from(e: io::Error) -> Failure {
        Failure::System(e)
    }
}

// The system's words, without the number that std puts after them.
impl fmt::Display for Failure {
    fn fmt<W: fmt::Write>(&self, f: &mut fmt::Formatter<W>) -> fmt::Result {
        match self {
            Failure::NoName => f.write_str("Invalid argument"),
            Failure::LongName => f.write_str("File name too long"),
            Failure::NameNoText => f.write_str("Invalid or incomplete multibyte or wide character"),
            Failure::System(e) => {
                let text = InlineText::<256>::of(*e);
                let told = text.as_str();
                let (words, _) = told.split_once(" (os error ").unwrap_or((told, ""));
                f.write_str(words)
            }
        }
    }
}

// Takes the text of a format to standard error. A write that fails there can be told to nobody, so what comes after it is still tried.
#[derive(Drop)]
struct StderrText<'a, R> {
    rt: &'a R,
}

impl<R: EprintBytes> fmt::Write for StderrText<'_, R> {
    fn write_str(&mut self, s: &str) -> fmt::Result {
        let _ = self.rt.eprint_bytes(s.as_bytes());
        Ok(())
    }
}

// Tells what is wrong with what has this name. A write that fails on standard error can be told to nobody.
pub fn tell<D: fmt::Display + Drop>(rt: &impl EprintBytes, program: &[u8], name: &[u8], why: D) {
    let _ = rt.eprint_bytes(program);
    let _ = rt.eprint_bytes(name);
    let mut text = StderrText { rt };
    let _ = writeln!(text, ": {why}");
}

// Writes a program's words of help on standard output, and after them the form of a map.
pub fn help(rt: &impl Print, words: &[u8]) -> io::Result<()> {
    rt.write_all(words)?;
    rt.write_all(
        b"
A map is lines of text, each ended by a newline; x goes to the right and y down, from 0:
  width=3         a number from 1 to 64
  height=1        a number from 1 to 64
  diagonal=1      1 where a cart may go diagonally, 0 where not
  start=0,0       x and y, from -1024 to 1023
  goal=2,0        the same
  row=.#.         . free, # blocked; as many cells as the width, as many rows as the height,
                  and nothing after them
The program ends with status 0, whatever came of it.
",
    )
}

// How many arguments the program was started with, its own name among them.
pub fn arg_count(rt: &impl Env) -> usize {
    (0..usize::MAX)
        .take_while(|i| !matches!(rt.arg(*i, &mut []), Err(FillError::NotPresent)))
        .count()
}

// The file name that an argument is, in the room that is lent for it.
pub fn file_name<'a>(rt: &impl Env, i: usize, room: &'a mut [u8]) -> Result<&'a [u8], Failure>
    ensures { IfOk result (λ name. length name.now ≤ length room.old) }
{
    let n = rt.arg(i, room)?;
    Ok(&room[..n])
}

// Opens the file of a name to be read. A directory can be opened, and a read of no byte tells that it cannot be read.
pub fn open<R: Files>(rt: &R, name: &[u8]) -> Result<R::File, Failure> {
    let mut file = fs::open(rt, str::from_utf8(name)?)?;
    file.read(&mut [])?;
    Ok(file)
}

// Reads until the room is full, the input ends or a read fails, and answers what was read, at the front of the room.
pub fn read_full<'a>(input: &mut impl Read, room: &'a mut [u8]) -> &'a [u8]
    ensures { length result.now ≤ length room.old }
{
    let mut done = 0;
    while done < room.len() {
        match input.read(&mut room[done..]) {
            Ok(0) | Err(_) => break,
            Ok(n) => done += n,
        }
    }
    &room[..done]
}

// What a line of a map must be.
fn form_of(line: usize) -> &'static str {
    match line {
        1 => "expected width= and a number from 1 to 64",
        2 => "expected height= and a number from 1 to 64",
        3 => "expected diagonal=0 or diagonal=1",
        4 => "expected start=x,y with numbers from -1024 to 1023",
        5 => "expected goal=x,y with numbers from -1024 to 1023",
        _ => "expected row= and a . or # for each column, as many rows as the height",
    }
}

// What is wrong at a line of a map, and how to mend it; the line is 0 where the text is too long.
#[derive(Drop)]
struct Wrong {
    line: usize,
    fault: Fault,
}

impl fmt::Display for Wrong {
    fn fmt<W: fmt::Write>(&self, f: &mut fmt::Formatter<W>) -> fmt::Result {
        if 0 < self.line {
            write!(f, "line {}: ", self.line)?;
        }
        match self.fault {
            Fault::TooLong => f.write_str("the map is longer than 8192 bytes"),
            Fault::ByteOrderMark => f.write_str(
                "a byte order mark stands before width=; save the text without it (tail -c +4 takes it off)",
            ),
            Fault::Missing => {
                write!(
                    f,
                    "missing, the text ends before it; {}",
                    form_of(self.line)
                )
            }
            Fault::CarriageReturn => f.write_str(
                "it has a carriage return; a line ends in a newline alone (tr -d '\\r' mends them all)",
            ),
            Fault::NoNewline => f.write_str(
                "it has no newline at its end; the last line has one too (echo >> FILE adds it)",
            ),
            Fault::Form => f.write_str(form_of(self.line)),
            Fault::Letter(column, b) => {
                write!(f, "column {}: ", column)?;
                write!(f, "{} is no cell: . is free, # is blocked", Letter(b))
            }
            Fault::Short(cells, width) => {
                write!(
                    f,
                    "the row is too short: it has {cells} cells, and the width is {width}"
                )
            }
            Fault::Long(cells, width) => {
                write!(
                    f,
                    "the row is too long: it has {cells} cells, and the width is {width}"
                )
            }
            Fault::TooMany => f.write_str(
                "there is text after the last row, where an empty line counts too; the height says how many rows there are",
            ),
        }
    }
}

// A letter that is no cell, in quotes where it can be seen.
#[derive(Drop)]
struct Letter(u8);

impl fmt::Display for Letter {
    fn fmt<W: fmt::Write>(&self, f: &mut fmt::Formatter<W>) -> fmt::Result {
        match self.0 {
            b @ 32..=126 => write!(f, "'{}'", char::from(b)),
            b => write!(f, "byte {b}"),
        }
    }
}

// Says what is wrong with a map text of that name; nothing where it is a map.
pub fn tell_fault(rt: &impl EprintBytes, program: &[u8], name: &[u8], text: &[u8]) {
    let mut blocked = [0u8; 4096];
    if let Err(bad) = maps::read(text, &mut blocked) {
        let line = bad.line;
        let fault = faults::fault_of(text, line);
        tell(rt, program, name, Wrong { line, fault });
    }
}
