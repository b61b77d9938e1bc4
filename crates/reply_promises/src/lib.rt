// What the program `reply` promises: statements, proved by citing the proofs. Nothing here runs.
#![tactic(auto)]
