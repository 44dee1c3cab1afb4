// The head: a state and, while a response waits to be handed over, its holder.
ghost use Rattle.std.specs.Prelude.{◌≡◌};
ghost use Rattle.cells.specs.Layout.{head_word, head_of};

use crate::layout;

#[derive(Clone, Copy)]
pub enum Head {
    // No task holds a response.
    Free {
        state: u16,
    },
    // The response of a task, and whether its operation moved the state, wait to be handed over to it.
    Held {
        state: u16,
        task: u8,
        response: u16,
        moved: bool,
    },
}

// The word of a head with these marks.
#[tactic(auto, unfolding(crate::specs::Layout::head_word, crate::specs::Field::pack))]
pub fn head_word(head: Head, marks: u8) -> u64
    ensures { result ≡ head_word head marks }
{
    match head {
        Head::Free { state } => u64::from(marks) + u64::from(state) * layout::STATE.place,
        Head::Held {
            state,
            task,
            response,
            moved,
        } => {
            u64::from(marks)
                + u64::from(state) * layout::STATE.place
                + u64::from(response) * layout::RESPONSE.place
                + (u64::from(task) + 1) * layout::HOLDER.place
                + u64::from(moved) * layout::HEAD_MOVED.place
        }
    }
}

// The head that a word holds.
#[tactic(auto, using(crate::proofs::Fields::unpack_places), unfolding(crate::specs::Layout::head_of, crate::proofs::Fields::unpack_at))]
pub fn read_head(word: u64) -> Head
    ensures { result ≡ head_of word }
{
    let state = layout::STATE.of(word) as u16;
    let response = layout::RESPONSE.of(word) as u16;
    let holder = layout::HOLDER.of(word);
    let moved = layout::HEAD_MOVED.of(word) == 1;
    if holder == 0 {
        return Head::Free { state };
    }
    Head::Held {
        state,
        task: (holder - 1) as u8,
        response,
        moved,
    }
}
