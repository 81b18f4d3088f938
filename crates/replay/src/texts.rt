// Blocks of map texts and of what `route` prints of them; each map that is read is written again, and has to give its text.
// Their form stands at the head of oracle/tools/src/bin/texts.rs.
use super::tallies;
use floors::MapRead;

// How many bytes differ, or 1 where the lengths do.
fn unlike(a: &[u8], b: &[u8]) -> u64 {
    if a.len() != b.len() {
        return 1;
    }
    tallies::unlike(a, b)
}

// How what `route` prints of a text differs from what is to be printed.
fn printed_wrong(text: &[u8], want: &[u8]) -> u64 {
    let mut out = [0u8; router::PRINT];
    let n = router::route_text(text, &mut out);
    unlike(want, &out[..n])
}

// How a text that is read differs from what is written of the map.
fn written_wrong(text: &[u8], m: MapRead) -> u64 {
    let mut out = [0u8; maps::TEXT];
    let Ok(n) = floors::write_map(&mut out, m.grid, m.diagonal, m.start, m.goal) else {
        return 1;
    };
    match out.get(..n) {
        Some(written) => unlike(text, written),
        None => 1,
    }
}

fn rewritten(text: &[u8]) -> u64 {
    let m = floors::read_map(text);
    match m.outcome {
        Ok(()) => written_wrong(text, m),
        Err(_) => 0,
    }
}

// A block: the text's length in two bytes, the text, and what is to be printed of it.
pub fn replay(s: &[u8]) -> u64 {
    let to = 2 + lists::u16_at(s, 0) as usize;
    match s.get(2..to) {
        Some(text) => printed_wrong(text, tallies::rest(s, to)).wrapping_add(rewritten(text)),
        None => 1,
    }
}
