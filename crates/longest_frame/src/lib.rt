// The longest front-end frame of document 01, computed cycle by cycle. It takes seconds, so it stands apart. Nothing here runs.
#![tactic(auto)]
