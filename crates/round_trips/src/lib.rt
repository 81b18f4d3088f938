// Nothing runs here: specs/RoundTrips.antt states that what is written is read back, and proofs/ proves it.
#![tactic(auto)]
