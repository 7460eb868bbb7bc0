//! Up to sixteen bytes that are written one after the other.

ghost use Rattle.std.specs.Prelude.{◌≡◌, ◌+◌, ◌<◌, ◌≤◌, ℕ, List, [], ◌∷◌, ◌++◌, length, take, drop};
ghost use Rattle.i386_profile.specs.Chosen.{doubleword};

use std::marker::Model;

#[derive(Drop)]
pub(crate) struct Writer {
    bytes: [u8; 16],
    len: usize,
}

impl Model for Writer {
    ghost Value = { List ℕ };

    ghost view = { λ w. take w.len w.bytes };

    ghost invariant = { λ w. w.len ≤ 16 };
}

impl Writer {
    pub(crate) fn new() -> Writer
        ensures { result ≡ [] }
    {
        Writer {
            bytes: [0; 16],
            len: 0,
        }
    }

    pub(crate) fn byte(&mut self, byte: u8)
        requires { length self.old < 16 }
        ensures { self.new ≡ self.old ++ byte ∷ [] }
    {
        self.bytes[self.len] = byte;
        self.len += 1;
    }

    pub(crate) fn doubleword(&mut self, n: u32)
        requires { length self.old ≤ 12 }
        ensures { self.new ≡ self.old ++ doubleword n }
    {
        let [a, b, c, d] = n.to_le_bytes();
        self.byte(a);
        self.byte(b);
        self.byte(c);
        self.byte(d);
    }

    /// Copies what was written to the beginning of `out`, and answers how many bytes that is.
    pub(crate) fn copy_to(&self, out: &mut [u8; 16]) -> usize
        ensures prefix { out.new ≡ self.now ++ drop (length self.now) out.old }
        ensures length { result ≡ length self.now }
        ensures within { result ≤ 16 }
    {
        let len = self.len;
        let from = &self.bytes;
        out[..len].copy_from_slice(&from[..len]);
        len
    }
}
