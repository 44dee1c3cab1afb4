// The ring desk: which ring owns a chainage, and the object table of a drive of so many rings (docs/FORMATS.md, "The ring
// desk"). A list of rings has two words a ring: its length in millimetres, and its kind.
#![tactic(auto)]

ghost use Rattle.std.specs.Prelude.{◌≡◌, true, ◌<◌, ◌≤◌, get_or, SomeIff};
ghost use Rattle.std.specs.List.{list_all};
ghost use Rattle.ring_desk.specs.Rings.{most_rings, ring_count, ring_fits, rings_fit};
ghost use Rattle.ring_desk.specs.Owner.{owns_between, first_owner, owner_of};
ghost use Rattle.ring_desk.specs.Table.{next_built, desk_entry, desk_shape, table_of};

use refusal::Refusal;
use table::{Entry, Shape};
use table_writer::Entries;

const MOST_RINGS: usize = 255;

const LONGEST_RING: u32 = 20_000;

// The kind of a key ring; the kind of an ordinary one is 0.
const KEY: u32 = 1;

const OPERATIONS: u16 = 3;

// Whether a ring's length and kind are in range.
#[tactic(auto, unfolding(crate::specs::Rings::ring_fits))]
fn ring_fits(length: u32, kind: u32) -> bool
    ensures { result ≡ ring_fits length kind }
{
    1 <= length && length <= LONGEST_RING && kind <= KEY
}

// Whether every ring's length and kind are in range.
fn each_ring_fits(pairs: &[[u32; 2]]) -> bool
    ensures { result ≡ list_all (λ pair. ring_fits (get_or pair 0 0) (get_or pair 1 0)) pairs.now }
{
    pairs.iter().all(|[length, kind]| ring_fits(*length, *kind))
}

// Whether the list has two words a ring, no ring too many or too few, and every ring in range: cause 14 does not hold.
#[tactic(auto, using(crate::proofs::Pairs::all_pairs), unfolding(crate::specs::Rings::rings_fit))]
fn rings_fit(rings: &[u32]) -> bool
    ensures { result ≡ rings_fit rings.now }
{
    let (pairs, rest) = rings.as_chunks::<2>();
    rest.is_empty() && 1 <= pairs.len() && pairs.len() <= MOST_RINGS && each_ring_fits(pairs)
}

// Whether a ring between these chainages owns a chainage.
#[tactic(auto, unfolding(crate::specs::Owner::owns_between))]
fn owns_between(start: u64, end: u64, kind: u32, chainage: u64) -> bool
    ensures { result ≡ owns_between start end kind chainage }
{
    start <= chainage && chainage < end || kind == KEY && chainage == end
}

// The place of the first ring that owns a chainage, if one does.
#[tactic(auto, using(laws::proofs::Lowest::lowest_none, crate::proofs::Ranges::fits_range, crate::proofs::Ranges::listed, crate::proofs::Pairs::pair_length, crate::proofs::Pairs::pair_owns))]
fn first_owner(rings: &[u32], chainage: u64) -> Option<usize>
    requires { rings_fit rings.now ≡ true }
    ensures { SomeIff result (first_owner rings.now chainage < ring_count rings.now) (first_owner rings.now chainage) }
{
    let (pairs, _) = rings.as_chunks::<2>();
    let mut start: u64 = 0;
    for (place, [length, kind]) in pairs.iter().enumerate() {
        let end = start + u64::from(*length);
        if owns_between(start, end, *kind, chainage) {
            return Some(place);
        }
        start = end;
    }
    None
}

// Which ring owns a chainage, by its number, counted from 1: the lowest, if two do.
#[tactic(auto, using(crate::proofs::Ranges::fits_range), unfolding(crate::specs::Owner::owner_of))]
pub fn owner(rings: &[u32], chainage: u64) -> Result<u16, Refusal>
    ensures { result ≡ owner_of rings.now chainage }
{
    if !rings_fit(rings) {
        return Err(Refusal::Rings);
    }
    let place = first_owner(rings, chainage).ok_or(Refusal::Chainage)?;
    Ok(place as u16 + 1)
}

// The rings built after a build: at the last ring no more.
fn after_build(rings: u16, built: u16) -> u16
    ensures { result ≡ next_built rings built 1 }
{
    if built < rings { built + 1 } else { built }
}

// The rings built after a take out: at none no fewer.
fn after_take_out(built: u16) -> u16
    ensures { result ≡ next_built 0 built 2 }
{
    built.saturating_sub(1)
}

// The object of a drive of so many rings.
#[derive(Drop)]
struct Desk {
    rings: u16,
    ghost few: { rings ≤ most_rings },
}

impl Entries for Desk {
    ghost shape_of = { λ desk. desk_shape desk.rings };

    ghost entry_of = { λ desk. desk_entry desk.rings };

    fn shape(&self) -> Shape {
        Shape {
            offset: 0,
            states: self.rings + 1,
            operations: OPERATIONS,
            start: 0,
        }
    }

    // Its response is the number of rings built before.
    fn entry_at(&self, built: u16, operation: u16) -> Entry {
        let next = match operation {
            0 => built,
            1 => after_build(self.rings, built),
            _ => after_take_out(built),
        };
        Entry {
            next,
            response: built,
        }
    }
}

// How many rings a list has that is in range.
#[tactic(auto, using(crate::proofs::Ranges::fits_range))]
fn count_rings(rings: &[u32]) -> Option<u16>
    ensures { SomeIff result (rings_fit rings.now ≡ true) (ring_count rings.now) }
{
    if rings_fit(rings) {
        Some((rings.len() / 2) as u16)
    } else {
        None
    }
}

// Writes the object table of the drive at the room's start, and answers its length in bytes.
#[tactic(auto, using(laws::proofs::Lists::written_over, crate::proofs::Ranges::fits_range, crate::proofs::WrittenTable::file_long, crate::proofs::WrittenTable::table_no_range, crate::proofs::WrittenTable::table_no_room, crate::proofs::WrittenTable::table_written), unfolding(crate::specs::Table::desk_file, table_writer::specs::Written::file_of))]
pub fn write_table(rings: &[u32], room: &mut [u8]) -> Result<u32, Refusal>
    ensures { (room.new ≡ (table_of rings.now room.old).room) × (result ≡ (table_of rings.now room.old).answer) }
{
    let count = count_rings(rings).ok_or(Refusal::Rings)?;
    let desk = Desk { rings: count };
    let length = table::file_length(desk.shape());
    if room.len() < length {
        return Err(Refusal::Room);
    }
    table_writer::write_file(room, &desk);
    Ok(length as u32)
}
