// The 64-bit words that the tasks share: head and announcements, their marks and forms, the image of a state, and the
// ceiling of own steps.
#![tactic(auto)]

pub mod announcement;
pub mod ceiling;
pub mod count;
pub mod form;
pub mod head;
pub mod image;
pub mod layout;
pub mod marks;
