// Worked examples of openings, of the library for hosts and of texts: tables in numbers, and the proof that the definitions give them. Nothing here runs.
#![tactic(auto)]
