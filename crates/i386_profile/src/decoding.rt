//! From bytes to an instruction.

ghost use Rattle.std.specs.Prelude.{◌≡◌, ◌↔◌, ℕ, ◌+◌, ◌<◌, ◌≤◌, length, drop, IfOk, IsErr, Ok};
ghost use Rattle.i386_profile.specs.Spelling.{Begins, NoneBegins};
ghost use Rattle.i386_profile.specs.Laws.{OneSpelling};
ghost use Rattle.i386_profile.specs.declared.ins.Ins.{Ins as InsView};

use crate::ins::Ins;
use crate::reading::instruction;

/// No prefix of the bytes spells an instruction.
#[derive(Clone, Copy)]
pub struct Undecoded;

/// The instruction that the bytes begin with, and how many of them spell it.
#[inline(always)]
fn first(bytes: &[u8]) -> Result<(Ins, usize), Undecoded>
    ensures found { IfOk result (λ r. Begins r.0 r.1 bytes.now) }
    ensures only { (ins : InsView) (n : ℕ) → Begins ins n bytes.now → result ≡ Ok (ins, n) }
    ensures undecoded { IsErr result ↔ NoneBegins bytes.now }
    ensures least { IfOk result (λ r. 1 ≤ r.1) }
    ensures most { IfOk result (λ r. r.1 ≤ 11) }
{
    match instruction(bytes) {
        Some((ins, rest)) => Ok((ins, bytes.len() - rest.len())),
        None => Err(Undecoded),
    }
}

/// The instruction that some prefix of the bytes from `at` on spells, and that prefix's length.
/// `Undecoded` comes exactly where no prefix spells one.
#[inline(always)]
pub fn decode(bytes: &[u8], at: usize) -> Result<(Ins, usize), Undecoded>
    requires { at < length bytes.now }
    // What is answered is spelled there.
    ensures found { IfOk result (λ r. Begins r.0 r.1 (drop at bytes.now)) }
    // What is spelled there is answered.
    ensures only { (ins : InsView) (n : ℕ) → Begins ins n (drop at bytes.now)
        → result ≡ Ok (ins, n) }
    ensures undecoded { IsErr result ↔ NoneBegins (drop at bytes.now) }

    ensures least { IfOk result (λ r. 1 ≤ r.1) }
    ensures most { IfOk result (λ r. r.1 ≤ 11) }
    ensures within { IfOk result (λ r. at + r.1 ≤ length bytes.now) }
{
    let (_, from) = bytes.split_at(at);
    first(from)
}

/// No spelling is a proper prefix of another, and no bytes spell two instructions.
pub fn one_spelling()
    ensures { OneSpelling }
{}
