// The lines of the bench: what a line of input means, and the lines that are printed.
#![tactic(auto)]

pub mod command;
pub mod line;
pub mod reply;
pub mod text;
