// Nothing runs here: specs/ states what holds of every search and of every public call that searches, and proofs/ proves it.
#![tactic(auto)]
