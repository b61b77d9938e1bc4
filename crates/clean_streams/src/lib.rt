// Clean streams: their commands, and whole commands with zeros between them by the timing table. Definitions only.
#![tactic(auto)]
