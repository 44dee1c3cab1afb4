// What the words of a step hold, and the words that it writes.
ghost use Rattle.std.specs.Prelude.{◌≡◌};
ghost use Rattle.transition.specs.Transition.{state_in, payload_of, named, moved_by, holder_is, cleared_word, applied_word, operation_word, response_word};

use cells::announcement::Announcement;
use cells::head::Head;
use cells::marks::NO_MARKS;
use cells::{announcement, head};
use table::Table;

// The state in a head.
pub fn state_in(head: Head) -> u16
    ensures { result ≡ state_in head }
{
    match head {
        Head::Free { state } | Head::Held { state, .. } => state,
    }
}

// Whether a task holds a head.
pub fn holder_is(task: u8, head: Head) -> bool
    ensures { result ≡ holder_is task head }
{
    matches!(head, Head::Held { task: holder, .. } if holder == task)
}

// How many responses a payload can name.
const NAMED_SIZE: u32 = 65_536;

// The payload that keeps an outcome: a response, and whether the state moved.
pub fn payload_of(response: u16, moved: bool) -> u32
    ensures { result ≡ payload_of response moved }
{
    u32::from(response) + NAMED_SIZE * u32::from(moved)
}

// The operation or the response that a payload names.
pub fn named_by(payload: u32) -> u16
    ensures { result ≡ named payload }
{
    (payload % NAMED_SIZE) as u16
}

// Whether a payload says that the state moved.
pub fn moved_by(payload: u32) -> bool
    ensures { result ≡ moved_by payload }
{
    payload / NAMED_SIZE % 2 == 1
}

// The head with its state alone.
#[tactic(auto, unfolding(crate::specs::Transition::cleared_word))]
pub fn cleared_word(word: u64) -> u64
    ensures { result ≡ cleared_word word }
{
    let state = state_in(head::read_head(word));
    head::head_word(Head::Free { state }, NO_MARKS)
}

// The head after an operation of a task, by the table's entry.
#[tactic(auto, unfolding(crate::specs::Transition::applied_word))]
pub fn applied_word(table: &Table, word: u64, task: u8, operation: u16) -> u64
    ensures { result ≡ applied_word table.now.file.now table.now.shape word task operation }
{
    let state = state_in(head::read_head(word));
    let entry = table.read_entry(state, operation);
    let moved = table.moves_state(state, operation);
    let applied = Head::Held {
        state: entry.next,
        task,
        response: entry.response,
        moved,
    };
    head::head_word(applied, NO_MARKS)
}

// The announcement of an operation.
#[tactic(auto, unfolding(crate::specs::Transition::operation_word))]
pub fn operation_word(operation: u16) -> u64
    ensures { result ≡ operation_word operation }
{
    announcement::announcement_word(Announcement::Operation(operation), NO_MARKS)
}

// The outcome in a head, handed over; without a holder it is 0, and the state didn't move.
#[tactic(auto, unfolding(crate::specs::Transition::response_word))]
pub fn response_word(word: u64) -> u64
    ensures { result ≡ response_word word }
{
    let (response, moved) = match head::read_head(word) {
        Head::Free { .. } => (0, false),
        Head::Held {
            response,
            moved,
            ..
        } => (response, moved),
    };
    announcement::announcement_word(Announcement::Response(response, moved), NO_MARKS)
}
