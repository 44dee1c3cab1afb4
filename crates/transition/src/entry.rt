// The one entry of the table that a step uses.
ghost use Rattle.std.specs.Prelude.{◌≡◌};
ghost use Rattle.transition.specs.Transition.{used_in_range};

use crate::words;
use cells::head;
use records::phase::Phase;
use records::record::Task;
use table::Table;

// Whether the one entry that a step uses is in range, if it uses one.
pub fn used_in_range(table: &Table, own: Task, word: u64, phase: Phase) -> bool
    ensures { result ≡ used_in_range table.now.file.now table.now.shape own word phase }
{
    match phase {
        Phase::ReadOnly => {
            let state = words::state_in(head::read_head(word));
            table.entry_in_range(state, own.operation)
        }
        Phase::Apply(_) => {
            let state = words::state_in(head::read_head(own.head));
            table.entry_in_range(state, words::named_by(own.payload))
        }
        _ => true,
    }
}
