// Nothing runs here: proofs/Right.antt proves that an edit keeps every neighbour mask what the blocked cells alone give.
#![tactic(auto)]
