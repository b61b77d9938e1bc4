// The limits of document 01; definitions only, in specs/.
#![tactic(auto)]
