// The state as plain words, by one table of fields: definitions, and the laws of writing and reading back. The crate `image` has the code.
#![tactic(auto)]
