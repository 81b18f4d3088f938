// A theorem crate, without code: document 01's table of proved examples, and what the definitions that the contracts cite give at small inputs.
#![tactic(auto)]
