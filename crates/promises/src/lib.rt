// The three demands of document 01 and the damage statement for many hits as promises: one file of statements each, proved by citing the proofs. Nothing
// here runs.
#![tactic(auto)]
