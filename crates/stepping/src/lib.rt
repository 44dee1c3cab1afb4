// One task's part of a call, by value: the tests, the one access of a step, and the record and answer that follow from it.
#![tactic(auto)]

mod advance;
pub mod answer;
pub mod call;
mod perform;
