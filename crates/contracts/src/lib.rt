// No code: what is proved of the contracts of the public calls.
#![tactic(auto)]
