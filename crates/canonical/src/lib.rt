// One file for one object: the states that can be reached from the start state, numbered in the order of first meeting, without
// text (docs/FORMATS.md, "One file for one object").
#![tactic(auto)]

ghost use Rattle.std.specs.Prelude.{◌≡◌, length, get_or, Ok};
ghost use Rattle.table.specs.Check.{check_of};
ghost use Rattle.reach.specs.Order.{place_in, order_of};
ghost use Rattle.canonical.specs.Canonical.{renumbered_entry, renumbered_shape, canonical_written, Numbered};

use refusal::Refusal;
use table::{Entry, Shape, Table};
use table_writer::Entries;

// The length of the array of an order.
const PLACES: u16 = 256;

// An accepted table, and the arrays of its order: what the writer works with.
#[derive(Clone, Copy)]
struct Numbering<'a> {
    table: Table<'a>,
    // The states by new number.
    order: &'a [u16],
    // The new number of a state and one more.
    number: &'a [u16],
    // How many states have one.
    count: u16,
    ghost numbered: { Numbered table.file.now table.shape order.now number.now },
    ghost counted: { count ≡ length (order_of table.file.now table.shape) },
}

// A word of an array, 0 past its end.
fn word_at(words: &[u16], at: u16) -> u16
    ensures { result ≡ get_or words.now at 0 }
{
    words.get(usize::from(at)).copied().unwrap_or(0)
}

impl Numbering<'_> {
    // The state with a new number, and 0 for a number that none has. The array is read before the test, so that the writer's
    // loop over operations has no branch for it.
    fn state_at(&self, place: u16) -> u16
        ensures { result ≡ get_or (order_of self.now.table.file.now self.now.table.shape) place 0 }
    {
        let state = word_at(self.order, place % PLACES);
        if place < PLACES { state } else { 0 }
    }

    // The new number of a state, and the number of states for one that has none: its word is 0, which wraps to more than that.
    fn place_of(&self, state: u16) -> u16
        ensures { result ≡ place_in (order_of self.now.table.file.now self.now.table.shape) state }
    {
        word_at(self.number, state).wrapping_sub(1).min(self.count)
    }
}

impl Entries for Numbering<'_> {
    ghost shape_of = { λ n. renumbered_shape n.table.shape (order_of n.table.file.now n.table.shape) };

    ghost entry_of = { λ n. renumbered_entry n.table.file.now n.table.shape (order_of n.table.file.now n.table.shape) };

    fn shape(&self) -> Shape {
        Shape {
            offset: 0,
            states: self.count,
            operations: self.table.shape.operations,
            start: 0,
        }
    }

    // The state is a new number, and so is the next state.
    fn entry_at(&self, place: u16, operation: u16) -> Entry {
        let entry = self.table.read_entry(self.state_at(place), operation);
        Entry {
            next: self.place_of(entry.next),
            response: entry.response,
        }
    }
}

// Writes the file of an accepted table at the room's start, and answers its length in bytes.
#[tactic(auto, using(reach::proofs::Words::into_both, crate::proofs::Answers::length_small, crate::proofs::Answers::written_no_room, crate::proofs::Answers::written_fits), unfolding(crate::specs::Canonical::renumbered, table_writer::specs::Written::file_of))]
fn write_accepted(table: Table, room: &mut [u8]) -> Result<u32, Refusal>
    requires { check_of table.file.now ≡ Ok table.shape }
    ensures { (room.new ≡ (canonical_written table.entry.file.now room.old).room) × (result ≡ (canonical_written table.entry.file.now room.old).answer) }
{
    let mut order = [0; 256];
    let mut number = [0; 256];
    let count = reach::reach_into(&table, &mut order, &mut number);
    let numbering = Numbering {
        table,
        order: &order,
        number: &number,
        count,
    };
    let length = table::file_length(numbering.shape());
    if room.len() < length {
        return Err(Refusal::Room);
    }
    table_writer::write_file(room, &numbering);
    Ok(length as u32)
}

// Writes an object's file at the room's start, and answers its length in bytes.
#[tactic(auto, using(crate::proofs::Answers::refused_written))]
pub fn write_canonical(file: &[u8], room: &mut [u8]) -> Result<u32, Refusal>
    ensures { (room.new ≡ (canonical_written file.now room.old).room) × (result ≡ (canonical_written file.now room.old).answer) }
{
    let shape = table::check(file)?;
    write_accepted(Table { file, shape }, room)
}
