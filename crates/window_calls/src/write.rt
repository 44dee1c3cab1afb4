// What a command leaves in the eight bytes of its task. Clauses see these as the windows of a task 0 alone.
ghost use Rattle.std.specs.Prelude.{◌≡◌, ◌<◌, cond, Ok, Err};
ghost use Rattle.window.specs.Window.{byte_at, status_at};
ghost use Rattle.window.specs.Written.{marked, taken, refused_in, begun_in, ended_in, acknowledged_in, after_begin, after_step};
ghost use Rattle.window.specs.Serve.{begun_answer, stepped_answer};

use crate::status;
use refusal::Refusal;
use stepping::answer::Progress;
use window::Status;

// The bytes of a window that are read or written.
const OPERATION: usize = 0;

pub(crate) const COMMAND: usize = 1;

const STATUS: usize = 2;

const RESPONSE: usize = 3;

const REFUSAL: usize = 4;

pub(crate) const INTERRUPT: usize = 5;

pub(crate) const MASK: usize = 6;

// How many bytes a window has.
pub(crate) const BYTES: usize = 8;

// The eight bytes of a task.
pub(crate) type Window = [u8; BYTES];

// The status that stands in a window.
pub(crate) fn status_in(window: &Window) -> Status
    ensures { (result ≡ status_at window.now 0) × (result.unnamed < 16) }
{
    status::read_status(window[STATUS])
}

// The operation that a begin command asks for: none while done stands, not acknowledged.
pub(crate) fn asked_operation(window: &Window) -> Result<usize, Refusal>
    ensures { result ≡ cond (status_at window.now 0).done (Err Refusal.Unacknowledged) (Ok (byte_at window.now 0 0)) }
{
    if status_in(window).done {
        return Err(Refusal::Unacknowledged);
    }
    Ok(usize::from(window[OPERATION]))
}

// Takes the command: it is served once.
pub(crate) fn take(window: &mut Window)
    ensures { window.new ≡ taken window.old 0 }
{
    window[COMMAND] = 0;
}

// Takes the command, and writes the status that it leaves.
fn mark(window: &mut Window, status: Status)
    requires { status.unnamed < 16 }
    ensures { window.new ≡ marked window.old 0 status }
{
    take(window);
    window[STATUS] = status::status_byte(status);
}

// A refused command, and its answer.
pub(crate) fn refuse(window: &mut Window, cause: Refusal) -> Result<(), Refusal>
    ensures { (window.new ≡ refused_in window.old 0 cause) × (result ≡ Err cause) }
{
    let later = Status {
        refused: true,
        ..status_in(window)
    };
    mark(window, later);
    window[REFUSAL] = u8::from(cause);
    window[INTERRUPT] = status::interrupt_byte(true, window[INTERRUPT]);
    Err(cause)
}

// An accepted begin.
pub(crate) fn begun(window: &mut Window)
    ensures { window.new ≡ begun_in window.old 0 }
{
    let later = Status {
        busy: true,
        ..status_in(window)
    };
    mark(window, later);
}

// A begin, by its answer.
pub(crate) fn after_begin(window: &mut Window, answer: Result<(), Refusal>) -> Result<(), Refusal>
    ensures { (window.new ≡ after_begin window.old 0 answer) × (result ≡ begun_answer answer) }
{
    match answer {
        Ok(()) => {
            begun(window);
            Ok(())
        }
        Err(cause) => refuse(window, cause),
    }
}

// An operation that has ended.
fn ended(window: &mut Window, response: u16, moved: bool)
    ensures { window.new ≡ ended_in window.old 0 response moved }
{
    let later = Status {
        busy: false,
        done: true,
        moved,
        ..status_in(window)
    };
    mark(window, later);
    window[RESPONSE] = (response % 256) as u8;
    window[INTERRUPT] = status::interrupt_byte(true, window[INTERRUPT]);
}

// An accepted step: the operation runs on, or has ended.
pub(crate) fn stepped(window: &mut Window, progress: Progress)
    ensures { window.new ≡ after_step window.old 0 (Ok progress) }
{
    match progress {
        Progress::Running => take(window),
        Progress::Ended {
            response,
            moved,
            ..
        } => ended(window, response, moved),
    }
}

// A step, by its answer.
pub(crate) fn after_step(
    window: &mut Window,
    answer: Result<Progress, Refusal>,
) -> Result<(), Refusal>
    ensures { (window.new ≡ after_step window.old 0 answer) × (result ≡ stepped_answer answer) }
{
    match answer {
        Ok(progress) => {
            stepped(window, progress);
            Ok(())
        }
        Err(cause) => refuse(window, cause),
    }
}

// An acknowledge.
pub(crate) fn acknowledged(window: &mut Window)
    ensures { window.new ≡ acknowledged_in window.old 0 }
{
    let later = Status {
        done: false,
        refused: false,
        ..status_in(window)
    };
    mark(window, later);
    window[INTERRUPT] = status::interrupt_byte(false, window[INTERRUPT]);
}
