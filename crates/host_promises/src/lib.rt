// The library for hosts and the programs as promises: the demands on images, and the programs' texts. Nothing here runs.
#![tactic(auto)]
