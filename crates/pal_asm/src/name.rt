//! A label's name.

ghost use Rattle.std.specs.Prelude.{◌≡◌, slice_index};
ghost use Rattle.std.specs.List.{list_all};
ghost use Rattle.std.specs.Char.{is_ascii_digit};
ghost use Rattle.pal_asm.specs.Tokens.{is_name_byte};
ghost use Rattle.pal_asm.specs.Names.{is_name_length, is_name, name_of};

use crate::tokens::is_name_byte;
use std::cmp::Ordering;
use std::marker::Model;

/// The most bytes of a name.
const LONGEST_NAME: usize = 32;

/// The name of a label: its bytes.
#[derive(Clone, Copy)]
pub(crate) struct Name {
    bytes: [u8; LONGEST_NAME],
    length: usize,
}

impl Model for Name {
    ghost use Rattle.std.specs.Prelude.{◌≡◌, ℕ, List, take};
    ghost use Rattle.pal_asm.specs.NameFields.{fields_of};

    ghost Value = { List ℕ };

    ghost view = { λ fields. take fields.length fields.bytes };

    ghost invariant = { λ fields. fields_of (take fields.length fields.bytes) ≡ fields };

    ghost inverse = { fields_of };

    ghost inverse_ok = { λ fields held. held };
}

impl PartialEq for Name {
    ghost use Rattle.std.specs.Prelude.{nat_eq};
    ghost use Rattle.std.specs.Cmp.{partial_equiv_from_equiv};
    ghost use Rattle.std.specs.Cmp.Lexicographic.{pointwise, nat_list_eq_equiv};

    ghost eq = { pointwise nat_eq };

    ghost laws = { partial_equiv_from_equiv nat_list_eq_equiv };

    fn eq(&self, other: &Name) -> bool {
        self.text() == other.text()
    }
}

impl Eq for Name {
    ghost use Rattle.std.specs.Cmp.Lexicographic.{nat_list_eq_equiv};

    ghost laws = { nat_list_eq_equiv };
}

impl PartialOrd for Name {
    ghost use Rattle.std.specs.Prelude.{Some};
    ghost use Rattle.std.specs.Ordering.{nat_cmp};
    ghost use Rattle.std.specs.Cmp.Lexicographic.{slice_cmp, texts_po};

    ghost partial_cmp = { λ a b. Some (slice_cmp nat_cmp a b) };

    ghost laws = { texts_po };

    fn partial_cmp(&self, other: &Name) -> Option<Ordering> {
        Some(self.cmp(other))
    }
}

impl Ord for Name {
    ghost use Rattle.std.specs.Ordering.{nat_cmp};
    ghost use Rattle.std.specs.Cmp.Lexicographic.{slice_cmp, nat_list_cmp_total, texts_ties};
    ghost use Rattle.std.proofs.Common.{rules};

    ghost cmp = { slice_cmp nat_cmp };

    ghost total = { nat_list_cmp_total };

    ghost matches_partial_cmp = { Prim.search rules };

    ghost matches_eq = { texts_ties };

    fn cmp(&self, other: &Name) -> Ordering {
        self.text().cmp(other.text())
    }
}

fn is_name_length(n: usize) -> bool
    ensures { result ≡ is_name_length n }
{
    1 <= n && n <= LONGEST_NAME
}

fn are_name_bytes(word: &[u8]) -> bool
    ensures { result ≡ list_all is_name_byte word.now }
{
    word.iter().all(|c| is_name_byte(*c))
}

fn begins_with_digit(word: &[u8]) -> bool
    ensures { result ≡ is_ascii_digit (slice_index word.now 0) }
{
    !word.is_empty() && word[0].is_ascii_digit()
}

fn is_name(word: &[u8]) -> bool
    ensures { result ≡ is_name word.now }
{
    is_name_length(word.len()) && are_name_bytes(word) && !begins_with_digit(word)
}

impl Name {
    /// The name that a word is.
    pub(crate) fn of(word: &[u8]) -> Option<Name>
        ensures { result ≡ name_of word.now }
    {
        if !is_name(word) {
            return None;
        }
        let mut bytes = [0; LONGEST_NAME];
        bytes[..word.len()].copy_from_slice(word);
        Some(Name {
            bytes,
            length: word.len(),
        })
    }

    fn text(&self) -> &[u8]
        ensures { result.now ≡ self.now }
    {
        &self.bytes[..self.length]
    }
}
