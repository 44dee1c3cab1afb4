// Which words are in form.
ghost use Rattle.std.specs.Prelude.{◌≡◌};
ghost use Rattle.cells.specs.Form.{head_in_form, announcement_in_form, marks_in_form};

use crate::layout;

// The largest number that a holder field may have, however many tasks there are.
const GREATEST_HOLDER: u64 = 8;

// Whether a word has marks of tasks below `tasks` alone.
#[tactic(auto, using(crate::proofs::MarkLaws::marks_within), unfolding(crate::specs::Form::marks_in_form))]
fn marks_in_form(word: u64, tasks: usize) -> bool
    ensures { result ≡ marks_in_form tasks word }
{
    tasks > layout::MARK_COUNT || layout::MARKS.of(word) < 1 << tasks
}

// Whether a head is in form, for a table with `states` states and a run of `tasks` tasks.
#[tactic(auto, using(crate::proofs::Fields::unpack_places), unfolding(crate::specs::Form::head_in_form, crate::specs::Form::in_form, crate::specs::Field::total, crate::specs::Form::head_fields_in_form, crate::proofs::Fields::unpack_at, crate::specs::Form::outcome_in_form))]
pub fn head_in_form(word: u64, states: u32, tasks: usize) -> bool
    ensures { result ≡ head_in_form states tasks word }
{
    let state = layout::STATE.of(word);
    let response = layout::RESPONSE.of(word);
    let holder = layout::HOLDER.of(word);
    let moved = layout::HEAD_MOVED.of(word);
    word < layout::HEAD_SIZE
        && marks_in_form(word, tasks)
        && state < u64::from(states)
        && holder <= (tasks as u64).min(GREATEST_HOLDER)
        && (holder != 0 || (response == 0 && moved == 0))
}

// Whether an announcement is in form, for a table with `operations` operations and a run of `tasks` tasks.
#[tactic(auto, using(crate::proofs::Fields::unpack_places), unfolding(crate::specs::Form::announcement_in_form, crate::specs::Form::in_form, crate::specs::Field::total, crate::specs::Form::announcement_fields_in_form, crate::specs::Form::payload_in_form, crate::proofs::Fields::unpack_at))]
pub fn announcement_in_form(word: u64, operations: u32, tasks: usize) -> bool
    ensures { result ≡ announcement_in_form operations tasks word }
{
    let kind = layout::KIND.of(word);
    let gap = layout::GAP.of(word);
    let payload = layout::PAYLOAD.of(word);
    let moved = layout::ANNOUNCEMENT_MOVED.of(word);
    let in_place = match kind {
        0 => payload == 0 && moved == 0,
        1 => payload < u64::from(operations) && moved == 0,
        2 => true,
        _ => false,
    };
    word < layout::ANNOUNCEMENT_SIZE && marks_in_form(word, tasks) && gap == 0 && in_place
}
