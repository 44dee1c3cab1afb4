// What the bench writes.
use bench_lines::text::Text;

// A write that fails is passed over.
pub(crate) fn print<P: Print>(rt: &P, text: &Text) {
    let _ = rt.write_all(text.as_slice());
}
