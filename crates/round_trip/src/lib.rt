// A composed stream reads back as its orders. Theorems only.
#![tactic(auto)]
