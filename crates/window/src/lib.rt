// The register window of docs/FORMATS.md: the types that its definitions and its calls share. The calls are those of the crate
// window_calls.
#![tactic(auto)]

// Whether an interrupt line is up.
#[derive(Clone, Copy)]
pub enum LineLevel {
    Up,
    Down,
}

// The named bits, and the number that the unnamed ones make.
#[derive(Clone, Copy)]
pub struct Status {
    pub busy: bool,
    pub done: bool,
    pub refused: bool,
    pub moved: bool,
    pub unnamed: u8,
}
