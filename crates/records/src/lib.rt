// A task's private record: its fields, its forms, and the phases with their numbers.
#![tactic(auto)]

pub mod phase;
pub mod record;
