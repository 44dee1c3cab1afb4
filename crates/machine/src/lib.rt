// The abstract machine and its theorem: definitions in specs/, proofs in proofs/. It has no code of its own.
#![tactic(auto)]
