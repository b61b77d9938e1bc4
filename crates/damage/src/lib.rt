// Inverted bits in a clean stream, one or many: definitions and theorems. Nothing here runs, and nothing that runs depends on it.
#![tactic(auto)]
