// A session of the bench: the run that its lines are served on, what it reads and what it prints.
#![tactic(auto)]

pub mod input;
mod output;
pub mod run;
pub mod session;
