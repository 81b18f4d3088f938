// The start's expansion: its free neighbours. The start may be outside the grid.
ghost use Rattle.std.specs.Prelude.{◌≡◌, ◌+◌, ◌^◌, ◌<◌, T, length};
ghost use Rattle.points.specs.Plane.{legal};
ghost use Rattle.offers.specs.Search.{Lent, Stays, out_of, view};
ghost use Rattle.stops.specs.Stops.{Sized};
ghost use Rattle.expansion.specs.Start.{spread_of};

use goals::Plan;
use offers::Work;
use points::Refusal;

// Expands the start: its free neighbours in number order.
pub fn spread(
    blocked: &[u8],
    goals: &[i32],
    work: &mut Work<'_>,
    p: Plan,
    from: usize,
    k: u64,
) -> Result<(), Refusal>
    requires { Lent goals.now p work.old × (Sized blocked.now p.w p.h × (T (legal p.start) × ((from < length work.old.number.now) × (k + 99 < 2 ^ 40)))) }
    ensures stays { Stays work.old work.new }
    ensures spread { out_of result work.new ≡ spread_of blocked.now goals.now p from k (view work.old) }
{
    for d in 0..8 {
        starts::toward(blocked, goals, work, p, from, k, d)?;
    }
    Ok(())
}
