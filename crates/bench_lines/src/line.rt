// A line of bytes as it is kept: the first `len` of `bytes`. It can be copied, which an `ArrayVec` can't.
ghost use Rattle.std.specs.Prelude.{◌≡◌, ◌<◌, ◌≤◌, ◌↔◌, [], ◌∷◌, ◌++◌, length, IsOk, OnOk, OnErr, IfErr};

#[derive(Clone, Copy)]
pub struct Line<const N: usize> {
    pub bytes: [u8; N],
    pub len: usize,
    ghost few: { len ≤ N },
}

impl<const N: usize> Line<N> {
    ghost use Rattle.bench_lines.specs.Line.{line_bytes};

    // A line without bytes.
    pub fn new() -> Self
        ensures { line_bytes result ≡ [] }
    {
        Line {
            bytes: [0; N],
            len: 0,
        }
    }

    // One byte more. Without room for it the line stays as it was, and the byte comes back.
    pub fn try_push(&mut self, byte: u8) -> Result<(), u8>
        ensures room { IsOk result ↔ (length (line_bytes self.old) < N) }
        ensures ok { OnOk result (line_bytes self.new ≡ line_bytes self.old ++ byte ∷ []) }
        ensures err { OnErr result (self.new ≡ self.old) }
        ensures back { IfErr result (λ b. b ≡ byte) }
    {
        if self.len == N {
            return Err(byte);
        }
        self.bytes[self.len] = byte;
        self.len += 1;
        Ok(())
    }

    // Its bytes.
    pub fn as_slice(&self) -> &[u8]
        ensures value { result.now ≡ line_bytes self.now }
        ensures fits { length result.now ≤ N }
    {
        &self.bytes[..self.len]
    }
}
