// Worked examples of document 01 and the chip paper: tables in numbers, and the proof that the definitions give them. Nothing here runs.
#![tactic(auto)]
