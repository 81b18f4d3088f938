// Map texts for C and Rust: routed, and the route printed.
ghost use Rattle.std.specs.Prelude.{◌≡◌, length};
ghost use Rattle.boundary.specs.Texts.{printed_of, print_kept};

use points::Refusal;

// Writes what `route` prints of a map text: how many bytes; the rest of the output is kept.
// Refuses ROOM where the most that is printed would not fit; then nothing is written.
#[tactic(auto, using(std::proofs::Common::tests), unfolding(crate::specs::Texts::printed_of, crate::specs::Texts::print_kept))]
pub fn barnsling_route_text(text: &[u8], out: &mut [u8]) -> u64
    ensures { (result ≡ printed_of text.now (length out.old)) × (out.new ≡ print_kept text.now out.old) }
{
    if out.len() < router::PRINT {
        return packing::refused_as(Refusal::Room);
    }
    router::route(text, out) as u64
}
