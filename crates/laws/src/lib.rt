// Laws that are about no subject of this repository: definitions in specs/, proofs in proofs/. It has no code of its own.
#![tactic(auto)]
