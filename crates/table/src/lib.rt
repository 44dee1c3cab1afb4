// The object file: its trailer, its dimensions and its entries, read and tested as docs/FORMATS.md says.
//
// Every function is total: a byte past the file's end reads as 0, and no number wraps for any argument.
#![tactic(auto)]

ghost use Rattle.std.specs.Prelude.{◌≡◌, ◌-◌, ◌*◌, ◌<◌, ◌^◌, ltb, get_or, take, drop};
ghost use Rattle.std.specs.List.{list_all};
ghost use Rattle.table.specs.File.{byte_at, number16, trailer_bytes, ends_in_mark, shape_of};
ghost use Rattle.table.specs.Layout.{file_length, file_fits, dimensions_fit, length_fits, layout_of};
ghost use Rattle.table.specs.Entries.{entry_of, entry_bytes, entry_in_range, entries_in_range, moves};
ghost use Rattle.table.specs.Check.{check_of};

use refusal::Refusal;

const TRAILER_BYTES: usize = 16;

// The mark in which a file ends: checked here, and written by every writer.
pub const MARK: [u8; 6] = *b"DRIVE1";

// The length of the longest file.
pub const LONGEST_FILE: usize = 20_496;

const MOST_STATES: u16 = 256;

const MOST_OPERATIONS: u16 = 32;

const GREATEST_OFFSET: u32 = 4_096;

const ENTRY_BYTES: usize = 2;

// What the trailer says.
#[derive(Clone, Copy)]
pub struct Shape {
    // Where the first entry stands.
    pub offset: u32,
    pub states: u16,
    pub operations: u16,
    pub start: u16,
}

// What an operation does in a state.
#[derive(Clone, Copy)]
pub struct Entry {
    pub next: u16,
    pub response: u16,
}

// A byte of the file, 0 past its end.
fn byte_at(file: &[u8], at: usize) -> u8
    ensures { result ≡ byte_at file.now at }
{
    file.get(at).copied().unwrap_or(0)
}

// A product that can't wrap: it stays below 2^32.
fn product(a: u16, b: u16) -> usize
    ensures { (result ≡ a * b) × (result < 2 ^ 32) }
{
    usize::from(a) * usize::from(b)
}

// A number of two bytes, the low byte first.
fn number_at(file: &[u8], at: usize) -> u16
    requires { at < 2 ^ 63 }
    ensures { result ≡ number16 file.now at }
{
    u16::from_le_bytes([byte_at(file, at), byte_at(file, at + 1)])
}

// Whether the last six bytes are the mark.
#[tactic(auto, using(crate::proofs::Marked::mark_ends))]
pub fn ends_in_mark(file: &[u8]) -> bool
    ensures { result ≡ ends_in_mark file.now }
{
    file.ends_with(&MARK)
}

// What the trailer says. It is read from the file's start where the file is too short.
#[tactic(auto, unfolding(crate::specs::File::shape_of))]
pub fn read_shape(file: &[u8]) -> Shape
    ensures { result ≡ shape_of file.now }
{
    let at = file.len().saturating_sub(TRAILER_BYTES);
    Shape {
        offset: u32::from_le_bytes([
            byte_at(file, at),
            byte_at(file, at + 1),
            byte_at(file, at + 2),
            byte_at(file, at + 3),
        ]),
        states: number_at(file, at + 4),
        operations: number_at(file, at + 6),
        start: number_at(file, at + 8),
    }
}

// Whether the file is neither too short nor too long and ends in the mark: cause 1 does not hold.
#[tactic(auto, unfolding(crate::specs::Layout::file_fits))]
fn file_fits(file: &[u8]) -> bool
    ensures { result ≡ file_fits file.now }
{
    (TRAILER_BYTES..=LONGEST_FILE).contains(&file.len()) && ends_in_mark(file)
}

// Whether states, operations and start state are in range: cause 2 does not hold.
#[tactic(auto, unfolding(crate::specs::Layout::dimensions_fit))]
fn dimensions_fit(shape: Shape) -> bool
    ensures { result ≡ dimensions_fit shape }
{
    (1..=MOST_STATES).contains(&shape.states)
        && (1..=MOST_OPERATIONS).contains(&shape.operations)
        && shape.start < shape.states
}

// The length of a file of this shape: text, entries and trailer.
pub fn file_length(shape: Shape) -> usize
    ensures { result ≡ file_length shape }
{
    let entries = product(shape.states, shape.operations);
    shape.offset as usize + ENTRY_BYTES * entries + TRAILER_BYTES
}

// Whether the offset is in range and text, entries and trailer make up the length: cause 3 does not hold.
#[tactic(auto, unfolding(crate::specs::Layout::length_fits))]
fn length_fits(length: usize, shape: Shape) -> bool
    ensures { result ≡ length_fits length shape }
{
    shape.offset <= GREATEST_OFFSET && file_length(shape) == length
}

// The first of causes 1 to 3 that holds, or the file's shape.
#[tactic(auto, unfolding(crate::specs::Layout::layout_of))]
pub fn check_layout(file: &[u8]) -> Result<Shape, Refusal>
    ensures { result ≡ layout_of file.now }
{
    if !file_fits(file) {
        return Err(Refusal::File);
    }
    let shape = read_shape(file);
    if !dimensions_fit(shape) {
        return Err(Refusal::Dimensions);
    }
    if !length_fits(file.len(), shape) {
        return Err(Refusal::Length);
    }
    Ok(shape)
}

// Whether the next state of an entry, its first byte, is below a bound.
fn next_below(entry: &[u8; ENTRY_BYTES], bound: u16) -> bool
    ensures { result ≡ ltb (get_or entry.now 0 0) bound }
{
    u16::from(entry[0]) < bound
}

// Whether the next states of four entries are below a bound; the last is looked at first.
fn four_below(four: &[[u8; ENTRY_BYTES]; 4], bound: u16) -> bool
    ensures { result ≡ list_all (λ entry. ltb (get_or entry 0 0) bound) four.now }
{
    next_below(&four[3], bound)
        && next_below(&four[2], bound)
        && next_below(&four[1], bound)
        && next_below(&four[0], bound)
}

// Whether those of all fours are.
fn fours_below(fours: &[[[u8; ENTRY_BYTES]; 4]], bound: u16) -> bool
    ensures { result ≡ list_all (λ four. list_all (λ entry. ltb (get_or entry 0 0) bound) four) fours.now }
{
    fours.iter().all(|four| four_below(four, bound))
}

// Whether those of the entries that are left are.
fn rest_below(rest: &[[u8; ENTRY_BYTES]], bound: u16) -> bool
    ensures { result ≡ list_all (λ entry. ltb (get_or entry 0 0) bound) rest.now }
{
    rest.iter().all(|entry| next_below(entry, bound))
}

// Whether those of all entries are: of each four, and of what is left.
fn next_states_below(entries: &[[u8; ENTRY_BYTES]], bound: u16) -> bool
    ensures { result ≡ list_all (λ entry. ltb (get_or entry 0 0) bound) entries.now }
{
    let (fours, rest) = entries.as_chunks::<4>();
    fours_below(fours, bound) & rest_below(rest, bound)
}

// Whether the next state of an entry that the file's end cuts behind it is below a bound; there is none such, or one.
fn cut_below(cut: &[u8], bound: u16) -> bool
    ensures { result ≡ list_all (λ next. ltb next bound) cut.now }
{
    cut.iter().all(|next| u16::from(*next) < bound)
}

// A file and its shape.
#[derive(Clone, Copy)]
pub struct Table<'a> {
    pub file: &'a [u8],
    pub shape: Shape,
}

impl Table<'_> {
    // The entry of a state and an operation.
    #[tactic(auto, unfolding(crate::specs::Entries::entry_of))]
    pub fn read_entry(&self, state: u16, operation: u16) -> Entry
        ensures { result ≡ entry_of self.now.file.now self.now.shape state operation }
    {
        let row = product(state, self.shape.operations);
        let place = self.shape.offset as usize + ENTRY_BYTES * (row + usize::from(operation));
        Entry {
            next: u16::from(byte_at(self.file, place)),
            response: u16::from(byte_at(self.file, place + 1)),
        }
    }

    // Whether one entry's next state is one of the table's states: cause 4 does not hold on it.
    #[tactic(auto, unfolding(crate::specs::Entries::entry_in_range))]
    pub fn entry_in_range(&self, state: u16, operation: u16) -> bool
        ensures { result ≡ entry_in_range self.now.file.now self.now.shape state operation }
    {
        let entry = self.read_entry(state, operation);
        entry.next < self.shape.states
    }

    // The bytes of the entries, as many of them as the file has.
    fn entries(&self) -> &[u8]
        ensures { result.now ≡ take (entry_bytes * (self.now.shape.states * self.now.shape.operations)) (drop self.now.shape.offset self.now.file.now) }
    {
        let count = product(self.shape.states, self.shape.operations);
        let start = self.file.len().min(self.shape.offset as usize);
        let rest = &self.file[start..];
        &rest[..rest.len().min(ENTRY_BYTES * count)]
    }

    // Whether cause 4 holds on no entry.
    pub fn entries_in_range(&self) -> bool
        ensures { result ≡ entries_in_range self.now.file.now self.now.shape }
    {
        let (entries, cut) = self.entries().as_chunks::<ENTRY_BYTES>();
        let states = self.shape.states;
        next_states_below(entries, states) & cut_below(cut, states)
    }

    // Whether an operation leads from a state to another one.
    #[tactic(auto, unfolding(crate::specs::Entries::moves))]
    pub fn moves_state(&self, state: u16, operation: u16) -> bool
        ensures { result ≡ moves self.now.file.now self.now.shape state operation }
    {
        let entry = self.read_entry(state, operation);
        entry.next != state
    }
}

// The first of causes 1 to 4 that holds, 4 on all entries, or the file's shape.
#[tactic(auto, unfolding(crate::specs::Check::check_of))]
pub fn check(file: &[u8]) -> Result<Shape, Refusal>
    ensures { result ≡ check_of file.now }
{
    let shape = check_layout(file)?;
    let table = Table { file, shape };
    if !table.entries_in_range() {
        return Err(Refusal::NextState);
    }
    Ok(shape)
}
