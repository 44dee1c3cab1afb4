// The announcement of a task: nothing, an operation that is to be applied, or its response and whether it moved the state.
ghost use Rattle.std.specs.Prelude.{◌≡◌};
ghost use Rattle.cells.specs.Layout.{announcement_word, announcement_of};

use crate::layout;

#[derive(Clone, Copy)]
pub enum Announcement {
    Empty,
    Operation(u16),
    Response(u16, bool),
}

// The word of an announcement with these marks.
#[tactic(auto, unfolding(crate::specs::Layout::announcement_word, crate::specs::Field::pack))]
pub fn announcement_word(announcement: Announcement, marks: u8) -> u64
    ensures { result ≡ announcement_word announcement marks }
{
    match announcement {
        Announcement::Empty => u64::from(marks),
        Announcement::Operation(o) => u64::from(marks)
            + layout::KIND.place
            + u64::from(o) * layout::PAYLOAD.place,
        Announcement::Response(r, moved) => u64::from(marks)
            + 2 * layout::KIND.place
            + u64::from(r) * layout::PAYLOAD.place
            + u64::from(moved) * layout::ANNOUNCEMENT_MOVED.place,
    }
}

// The announcement that a word holds.
#[tactic(auto, using(crate::proofs::Fields::unpack_places), unfolding(crate::specs::Layout::announcement_of, crate::proofs::Fields::unpack_at))]
pub fn read_announcement(word: u64) -> Announcement
    ensures { result ≡ announcement_of word }
{
    let kind = layout::KIND.of(word);
    let payload = layout::PAYLOAD.of(word) as u16;
    let moved = layout::ANNOUNCEMENT_MOVED.of(word) == 1;
    match kind {
        1 => Announcement::Operation(payload),
        2 => Announcement::Response(payload, moved),
        _ => Announcement::Empty,
    }
}
