// The record and the answer of an accepted step.
ghost use Rattle.std.specs.Prelude.{◌≡◌, ◌+◌, ◌%◌, ◌<◌, Ok};
ghost use Rattle.records.specs.Phase.{phase_number};
ghost use Rattle.stepping.specs.Step.{advance_of, answer_of};

use crate::answer::{Progress, Step};
use records::phase::Phase;
use records::record;
use records::record::Task;
use transition::access::Next;

// The task after a task, in turn.
fn turned(tasks: usize, priority: u16) -> u16
    requires { (0 < tasks) × (tasks < 256) }
    ensures { result ≡ (priority + 1) % tasks }
{
    ((usize::from(priority) + 1) % tasks) as u16
}

// The record at the loop's begin, after so many steps and with a priority.
fn polled(own: Task, steps: u32, priority: u16) -> Task
    ensures { result ≡ record { head = 0; announcement = 0; payload = 0; steps = steps; operation = own.operation; priority = priority; phase = phase_number Phase.Poll } }
{
    Task {
        steps,
        operation: own.operation,
        phase: u32::from(Phase::Poll),
        ..record::idle_task(priority)
    }
}

// The record after a step, and what it comes to; after one that ended it is idle. The count takes in this step.
pub(crate) fn advance(tasks: usize, own: Task, next: Next) -> Step
    requires { (0 < tasks) × (tasks < 256) × (own.steps < 1000000) }
    ensures { (result.task ≡ advance_of tasks own next) × (Ok result.progress ≡ answer_of own next) }
{
    let steps = own.steps + 1;
    match next {
        Next::Go {
            phase,
            payload,
            head,
            announcement,
        } => Step {
            task: Task {
                head,
                announcement,
                payload,
                steps,
                phase: u32::from(phase),
                ..own
            },
            progress: Progress::Running,
        },
        Next::Turn => Step {
            task: polled(own, steps, turned(tasks, own.priority)),
            progress: Progress::Running,
        },
        Next::End { response, moved } => Step {
            task: record::idle_task(own.priority),
            progress: Progress::Ended {
                response,
                moved,
                steps,
            },
        },
    }
}
