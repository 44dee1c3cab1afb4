// A line of output, which is put together piece by piece: each function appends to what stands in `out`.
ghost use Rattle.std.specs.Prelude.{◌≡◌, ◌++◌, ◌+◌, ◌*◌, ◌≤◌, length};
ghost use Rattle.arrayvec.specs.ArrayVec.{array_vec_len};
ghost use Rattle.bench_lines.specs.Line.{decimal, hexadecimal, field_of, parted_in, text_size, line_bytes};

use crate::line::Line;
use arrayvec::ArrayVec;

// Room for the longest line.
const TEXT_SIZE: usize = 256;

// A line of output.
pub type Text = Line<TEXT_SIZE>;

// A line of output while it is put together.
pub(crate) type Draft = ArrayVec<u8, TEXT_SIZE>;

// How a number is written.
#[derive(Clone, Copy)]
pub enum Base {
    Decimal,
    Hexadecimal,
}

// Appends bytes for which there is room.
fn put_bytes(out: &mut Draft, bytes: &[u8])
    requires { array_vec_len out.old + length bytes.now ≤ text_size }
    ensures bytes { out.new.items ≡ out.old.items ++ bytes.now }
    ensures len { array_vec_len out.new ≡ array_vec_len out.old + length bytes.now }
{
    let _ = out.try_extend_from_slice(bytes);
}

// The digits of a number, at most 20.
#[tactic(auto, using(crate::proofs::Texts::decimal_text))]
fn put_decimal(out: &mut Draft, value: u64)
    requires { array_vec_len out.old + 20 ≤ text_size }
    ensures digits { out.new.items ≡ out.old.items ++ decimal value }
    ensures few { array_vec_len out.new ≤ array_vec_len out.old + 20 }
{
    let mut digits = [0; 20];
    let count = io::decimal(value, &mut digits);
    put_bytes(out, &digits[..count]);
}

// The 16 digits of a word.
#[tactic(auto, using(crate::proofs::Texts::hexadecimal_text))]
fn put_hexadecimal(out: &mut Draft, word: u64)
    requires { array_vec_len out.old + 16 ≤ text_size }
    ensures digits { out.new.items ≡ out.old.items ++ hexadecimal word }
    ensures few { array_vec_len out.new ≤ array_vec_len out.old + 16 }
{
    let mut digits = [0; 16];
    let count = io::hex(word, 16, &mut digits);
    put_bytes(out, &digits[..count]);
}

// A space and a number, together at most 21 bytes.
pub(crate) fn put_field(out: &mut Draft, base: Base, value: u64)
    requires { array_vec_len out.old + 21 ≤ text_size }
    ensures field { out.new.items ≡ out.old.items ++ field_of base value }
    ensures few { array_vec_len out.new ≤ array_vec_len out.old + 21 }
{
    out.push(b' ');
    match base {
        Base::Decimal => put_decimal(out, value),
        Base::Hexadecimal => put_hexadecimal(out, value),
    }
}

// A field for each number.
#[tactic(auto, using(crate::proofs::Texts::fields_more), unfolding(crate::specs::Line::parted_in))]
pub(crate) fn put_fields(out: &mut Draft, base: Base, values: &[u64])
    requires { array_vec_len out.old + 21 * length values.now ≤ text_size }
    ensures fields { out.new.items ≡ out.old.items ++ parted_in base values.now }
    ensures few { array_vec_len out.new ≤ array_vec_len out.old + 21 * length values.now }
{
    for value in values {
        put_field(out, base, *value);
    }
}

// The line that has been put together.
pub(crate) fn finished(draft: &Draft) -> Text
    ensures { line_bytes result ≡ draft.now.items }
{
    let mut bytes = [0; TEXT_SIZE];
    let len = draft.len();
    bytes[..len].copy_from_slice(draft.as_slice());
    Text { bytes, len }
}
