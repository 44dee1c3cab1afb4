// What an accepted step leaves of one task's record, and what it comes to.
use records::record::Task;

// The operation runs on, or it has ended with a response, whether it moved the state and the own steps since begin.
#[derive(Clone, Copy)]
pub enum Progress {
    Running,
    Ended {
        response: u16,
        moved: bool,
        steps: u32,
    },
}

// The record after an accepted step, and what the step came to.
#[derive(Clone, Copy)]
pub struct Step {
    pub task: Task,
    pub progress: Progress,
}
