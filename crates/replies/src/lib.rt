// Answers of several numbers for C and Rust: what a search and a call on a list tell.
#![tactic(auto)]

ghost use Rattle.std.specs.Prelude.{◌≡◌};
ghost use Rattle.points.specs.Refusals.{told_of};
ghost use Rattle.replies.specs.Replies.{route_of, value_reply, told_reply, written_reply, check_reply};

use checks::Checked;
use finder::Answer;
use points::Refusal;

// What a search answers, as numbers: its refusal or 0, its pops, how many waypoints were written, the cost at the goal's pop, and the point that a refusal concerns.
#[repr(C)]
#[derive(Clone, Copy)]
pub struct Route {
    pub refusal: u64,
    pub pops: u64,
    pub waypoints: u64,
    pub cost: u64,
    pub x: i32,
    pub y: i32,
}

// A search's answer as numbers.
pub fn routed(a: Answer) -> Route
    ensures { result ≡ route_of a }
{
    let pops = a.pops as u64;
    match a.outcome {
        Ok(found) => Route {
            refusal: 0,
            pops,
            waypoints: found.length as u64,
            cost: found.cost,
            x: 0,
            y: 0,
        },
        Err(w) => {
            let q = w.point();
            Route {
                refusal: u64::from(w.number()),
                pops,
                waypoints: 0,
                cost: 0,
                x: q.x,
                y: q.y,
            }
        }
    }
}

// What a call on a list answers, as numbers: its refusal or 0, its value, and the point that a refusal concerns.
#[repr(C)]
#[derive(Clone, Copy)]
pub struct Reply {
    pub refusal: u64,
    pub value: u64,
    pub x: i32,
    pub y: i32,
}

// A value.
fn value(n: u64) -> Reply
    ensures { result ≡ value_reply n }
{
    Reply {
        refusal: 0,
        value: n,
        x: 0,
        y: 0,
    }
}

// A refusal, with the point that it concerns.
fn refused(w: Refusal) -> Reply
    ensures { result ≡ told_reply (told_of w) }
{
    let q = w.point();
    Reply {
        refusal: u64::from(w.number()),
        value: 0,
        x: q.x,
        y: q.y,
    }
}

// How many points were written, or a refusal.
pub fn written(w: Result<usize, Refusal>) -> Reply
    ensures { result ≡ written_reply w }
{
    match w {
        Ok(n) => value(n as u64),
        Err(r) => refused(r),
    }
}

// What the route check answers, as numbers: its refusal or 0, 1 where clear, the first bent leg or 0, and the point that a refusal concerns.
#[repr(C)]
#[derive(Clone, Copy)]
pub struct Check {
    pub refusal: u64,
    pub clear: u64,
    pub bent: u64,
    pub x: i32,
    pub y: i32,
}

// The route check's answer as numbers.
pub fn checked(c: Result<Checked, Refusal>) -> Check
    ensures { result ≡ check_reply c }
{
    match c {
        Ok(checked) => Check {
            refusal: 0,
            clear: packing::mark(checked.clear),
            bent: checked.bent.unwrap_or(0) as u64,
            x: 0,
            y: 0,
        },
        Err(w) => {
            let q = w.point();
            Check {
                refusal: u64::from(w.number()),
                clear: 0,
                bent: 0,
                x: q.x,
                y: q.y,
            }
        }
    }
}
