// The answer's text: what `route` prints.
#![tactic(auto)]

ghost use Rattle.std.specs.Prelude.{◌≡◌, ◌+◌, ◌*◌, ◌≤◌, ◌<◌, None, length};
ghost use Rattle.std.proofs.lemmas.List.Edits.{sets};
ghost use Rattle.pairs.specs.Pairs.{Even, first_bad};
ghost use Rattle.answers.specs.Answers.{points_text, answer_text, bad_text};

use printing::{put_number_line, put_point_line};

// A line for each point of a list of points in range.
fn put_points(buf: &mut [u8], at: usize, list: &[i32]) -> usize
    requires { Even (length list.now) × (first_bad list.now ≡ None) × (at + 10 * length list.now ≤ length buf.old) }
    ensures { (result ≡ at + length (points_text list.now)) × (buf.new ≡ sets buf.old at (points_text list.now)) }
{
    let mut end = at;
    for i in 0..list.len() / 2 {
        end = put_point_line(buf, end, b"point=", pairs::point_at(list, 2 * i));
    }
    end
}

// A refusal number (0 found), pops, the number of waypoints, the route check and the waypoints.
pub fn put_answer(buf: &mut [u8], number: u32, pops: u32, list: &[i32], clear: bool) -> usize
    requires { (number < 100000) × (pops < 100000) × (length list.now < 100000) × Even (length list.now) × (first_bad list.now ≡ None) × (100 + 10 * length list.now ≤ length buf.old) }
    ensures { (result ≡ length (answer_text number pops list.now clear)) × (buf.new ≡ sets buf.old 0 (answer_text number pops list.now clear)) }
{
    let a = put_number_line(buf, 0, b"result=", number);
    let b = put_number_line(buf, a, b"pops=", pops);
    let n = list.len() / 2;
    let c = put_number_line(buf, b, b"waypoints=", n as u32);
    let d = put_number_line(buf, c, b"clear=", u32::from(clear));
    put_points(buf, d, list)
}

// What is printed of a text whose first bad line is this.
pub fn put_bad(buf: &mut [u8], line: u32) -> usize
    requires { (line < 100000) × (100 ≤ length buf.old) }
    ensures { (result ≡ length (bad_text line)) × (buf.new ≡ sets buf.old 0 (bad_text line)) }
{
    let a = put_number_line(buf, 0, b"result=", 12);
    put_number_line(buf, a, b"line=", line)
}
