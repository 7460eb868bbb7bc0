// Names of variables.
ghost use Rattle.std.specs.Prelude.{◌≡◌, ◌≤◌, length, nat_eq};
ghost use Rattle.std.specs.Hash as fed;
ghost use Rattle.std.specs.Cmp.Rules.{hashing};
ghost use Rattle.std.specs.Cmp.Lexicographic.{pointwise, nat_list_eq_equiv};
ghost use Rattle.std.specs.Cmp.{partial_equiv_from_equiv};
ghost use Rattle.std.proofs.Common.{rules};

use std::hash::{Hash, Hasher};
use std::marker::Model;

/// The most bytes that a name has.
pub const LONGEST_NAME: usize = 16;

/// A name of at most 16 bytes. It allocates nothing. Contracts see its bytes.
#[derive(Drop)]
pub(crate) struct Name {
    bytes: [u8; LONGEST_NAME],
    len: usize,
}

impl Model for Name {
    ghost use Rattle.std.specs.Prelude.{◌≤◌, ℕ, List, take};

    ghost Value = { List ℕ };

    ghost view = { λ n. take n.len n.bytes };

    ghost use Rattle.expr_text.specs.declared.name.TheConstants.{LONGEST_NAME};

    ghost invariant = { λ n. n.len ≤ LONGEST_NAME };
}

impl Name {
    /// The name with these bytes.
    pub(crate) fn new(text: &[u8]) -> Name
        requires { length text.now ≤ LONGEST_NAME }
        ensures { result ≡ text.now }
    {
        let mut bytes = [0; LONGEST_NAME];
        bytes[..text.len()].copy_from_slice(text);
        Name {
            bytes,
            len: text.len(),
        }
    }

    /// Its bytes.
    pub(crate) fn as_slice(&self) -> &[u8]
        ensures { result.now ≡ self.now }
    {
        &self.bytes[..self.len]
    }
}

impl PartialEq for Name {
    ghost eq = { λ a b. pointwise nat_eq a b };

    ghost laws = { partial_equiv_from_equiv nat_list_eq_equiv };

    fn eq(&self, other: &Name) -> bool {
        self.as_slice() == other.as_slice()
    }
}

impl Eq for Name {
    ghost laws = { nat_list_eq_equiv };
}

impl Hash for Name {
    ghost hash_input = { λ n. fed.slice fed.u8 n };

    ghost respects_eq = { Prim.search (hashing, rules) };

    fn hash<H: Hasher>(&self, state: &mut H) {
        self.as_slice().hash(state);
    }
}
