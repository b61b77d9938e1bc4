// Promises of streams as they are checked, composed and read back: which are accepted, what a composed one reads back as, and the reply. Nothing here runs.
#![tactic(auto)]
