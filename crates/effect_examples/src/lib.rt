// Worked examples of what commands do to registers, FIFOs, counters and frames: tables in numbers, and the proof that the definitions give them. Nothing
// here runs.
#![tactic(auto)]
