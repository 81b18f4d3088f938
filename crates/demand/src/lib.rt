// Nothing runs here: specs/Nos.antt states the dispatcher's rule, specs/Demand3.antt what the masks and components of a grid are worth, specs/States.antt when STATE is refused, all of the grids that the public calls make; proofs/ proves it.
#![tactic(auto)]
