// Theorems only: what the recogniser shows of a clean or damaged stream, and what lists of calls over it write.
#![tactic(auto)]
