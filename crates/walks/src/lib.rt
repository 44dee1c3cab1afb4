// Walks of code over lent memory, by hand: what they import and share. It has no code.
#![tactic(auto)]
