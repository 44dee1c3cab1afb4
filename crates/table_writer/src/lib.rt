// How an object file is written into lent room: its entries one after the other, then the trailer with the mark.
//
// Every public function is total: what would stand past the room's end is not written.
#![tactic(auto)]

ghost use Rattle.std.specs.Prelude.{◌≡◌, ℕ, ◌++◌, ◌+◌, ◌*◌, ◌≤◌, ◌^◌, set};
ghost use Rattle.std.proofs.lemmas.List.Edits.{sets};
ghost use Rattle.table.specs.declared.Shape.{Shape};
ghost use Rattle.table.specs.declared.Entry.{Entry};
ghost use Rattle.table_writer.specs.Written.{entry_bytes_of, trailer_of, state_bytes, entries_of};

use table::{Entry, Shape};

// The bytes of an entry.
const ENTRY_BYTES: usize = 2;

// Writes a byte.
fn put(room: &mut [u8], at: usize, byte: u8)
    ensures { room.new ≡ set room.old at byte }
{
    if at < room.len() {
        room[at] = byte;
    }
}

// Writes bytes from a place of the room on.
#[tactic(auto, using(laws::proofs::Lists::sets_next))]
fn put_bytes(room: &mut [u8], at: usize, bytes: &[u8])
    requires { at ≤ 2 ^ 33 }
    ensures { room.new ≡ sets room.old at bytes.now }
{
    for (i, byte) in bytes.iter().enumerate() {
        put(room, at + i, *byte);
    }
}

// Writes an entry at a place of the largest file: the low byte of each of its numbers.
fn put_entry(room: &mut [u8], at: usize, entry: Entry)
    requires { at ≤ 2 ^ 33 }
    ensures { room.new ≡ sets room.old at (entry_bytes_of entry) }
{
    let next = (entry.next % 256) as u8;
    let response = (entry.response % 256) as u8;
    put_bytes(room, at, &[next, response]);
}

// Writes an entry at a place of the room: the low byte of each of its numbers.
pub fn write_entry(room: &mut [u8], at: u32, entry: Entry)
    ensures { room.new ≡ sets room.old at (entry_bytes_of entry) }
{
    put_entry(room, at as usize, entry);
}

// Writes a trailer at a place of the largest file.
fn put_trailer(room: &mut [u8], at: usize, shape: Shape)
    requires { at + 16 ≤ 2 ^ 33 }
    ensures { room.new ≡ sets room.old at (trailer_of shape) }
{
    put_bytes(room, at, &shape.offset.to_le_bytes());
    put_bytes(room, at + 4, &shape.states.to_le_bytes());
    put_bytes(room, at + 6, &shape.operations.to_le_bytes());
    put_bytes(room, at + 8, &shape.start.to_le_bytes());
    put_bytes(room, at + 10, &table::MARK);
}

// Writes a trailer at a place of the room.
pub fn write_trailer(room: &mut [u8], at: u32, shape: Shape)
    ensures { room.new ≡ sets room.old at (trailer_of shape) }
{
    put_trailer(room, at as usize, shape);
}

// What a file is written from: the shape, and the entry of each state and operation.
pub trait Entries {
    ghost shape_of: { Self → Shape };

    ghost entry_of: { Self → ℕ → ℕ → Entry };

    fn shape(&self) -> Shape
        ensures { result ≡ shape_of self.now };

    fn entry_at(&self, state: u16, operation: u16) -> Entry
        ensures { result ≡ entry_of self.now state operation };
}

// Writes the entries of a state at a place of the room.
#[tactic(auto, using(laws::proofs::Lists::sets_then, crate::proofs::ReadsBack::state_length), unfolding(laws::specs::Joined::joined))]
fn write_state<E: Entries>(room: &mut [u8], at: usize, entries: &E, state: u16)
    requires { at ≤ 2 * 65535 * 65535 }
    ensures { room.new ≡ sets room.old at (state_bytes (E.shape_of entries.now).operations (E.entry_of entries.now state)) }
{
    for operation in 0..entries.shape().operations {
        let entry = entries.entry_at(state, operation);
        put_entry(room, at + ENTRY_BYTES * usize::from(operation), entry);
    }
}

// Writes the entries of all states at the room's start.
#[tactic(auto, using(laws::proofs::Lists::sets_then, crate::proofs::ReadsBack::entries_length), unfolding(laws::specs::Joined::joined))]
fn write_states<E: Entries>(room: &mut [u8], entries: &E)
    ensures { room.new ≡ sets room.old 0 (entries_of (E.shape_of entries.now).states (E.shape_of entries.now).operations (E.entry_of entries.now)) }
{
    let shape = entries.shape();
    let step = ENTRY_BYTES * usize::from(shape.operations);
    for state in 0..shape.states {
        write_state(room, step * usize::from(state), entries, state);
    }
}

// Writes a file at the room's start.
#[tactic(auto, using(laws::proofs::Lists::sets_then, crate::proofs::ReadsBack::entries_length))]
pub fn write_file<E: Entries>(room: &mut [u8], entries: &E)
    ensures { room.new ≡ sets room.old 0 (entries_of (E.shape_of entries.now).states (E.shape_of entries.now).operations (E.entry_of entries.now) ++ trailer_of (E.shape_of entries.now)) }
{
    write_states(room, entries);
    let shape = entries.shape();
    let end = ENTRY_BYTES * usize::from(shape.states) * usize::from(shape.operations);
    put_trailer(room, end, shape);
}
