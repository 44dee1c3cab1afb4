// Runs of a drive over the object table that the ring desk has written: a statement and its proof, no code.
#![tactic(auto)]
