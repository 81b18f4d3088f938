// The key of a fringe entry: larger where the estimate is smaller, or the same and the cost larger.
#![tactic(auto)]

ghost use Rattle.std.specs.Prelude.{◌≡◌, ◌^◌, ◌<◌};
ghost use Rattle.keys.specs.Keys.{key_of, cost_of};

const MOST_ESTIMATE: u64 = 2199023255551;

const MOST_GUESS: u64 = 8388607;

const GUESSES: u64 = 8388608;

// The key of an estimate and of the guess in it.
pub fn key_of(estimate: u64, guess: u64) -> u64
    requires { (estimate < 2 ^ 41) × (guess < 2 ^ 23) }
    ensures { result ≡ key_of estimate guess }
{
    (MOST_ESTIMATE - estimate) * GUESSES + (MOST_GUESS - guess)
}

// The cost that a key holds: the estimate less the guess.
pub fn cost_of(key: u64) -> u64
    ensures { result ≡ cost_of key }
{
    let estimate = MOST_ESTIMATE - key / GUESSES;
    let guess = MOST_GUESS - key % GUESSES;
    estimate.saturating_sub(guess)
}
