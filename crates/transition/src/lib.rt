// What each phase does: the access that it plans, the entry of the table that it uses, and what follows from what comes back.
#![tactic(auto)]

pub mod access;
pub mod entry;
pub mod next;
pub mod plan;
mod words;
