//! The checks of bytes and of values, in the order of the faults' numbers.
ghost use Rattle.std.specs.Prelude.{◌≡◌, ◌&&◌, nat_le, nat_lt, None};
ghost use Rattle.std.specs.Int.{is_in_range};
ghost use Rattle.slb_image.specs.Image.{FitsImage};
ghost use Rattle.slb_image.specs.Faults.{image_fault, build_fault};

use crate::fault::ImageFault;
use crate::fields::{
    BUDGET_MAX, CODE_LEN_MAX, FRONT_LEN, MARK, VERSION, budget_in, entry_in, flags_in, length_in,
    version_in,
};

// Whether an image may have so many bytes.
fn is_length(length: usize) -> bool
    ensures { result ≡ is_in_range 33 49152 length }
{
    (FRONT_LEN + 1..=FRONT_LEN + CODE_LEN_MAX).contains(&length)
}

// Whether a code may have so many bytes.
fn is_code_length(length: usize) -> bool
    ensures { result ≡ is_in_range 1 49120 length }
{
    (1..=CODE_LEN_MAX).contains(&length)
}

// Whether an image of this length may be entered here.
fn is_entry(entry: usize, length: usize) -> bool
    ensures { result ≡ (nat_le 32 entry && nat_lt entry length) }
{
    (FRONT_LEN..length).contains(&entry)
}

// Whether a code may take so many turns.
fn is_budget(budget: u32) -> bool
    ensures { result ≡ is_in_range 1 1000000 budget }
{
    (1..=BUDGET_MAX).contains(&budget)
}

// The first fault of the bytes, if they are no image.
#[tactic(auto, unfolding(crate::specs::Faults::image_fault))]
pub(crate) fn fault_of_image(bytes: &[u8]) -> Option<ImageFault>
    ensures { result ≡ image_fault bytes.now }
{
    if bytes.len() < FRONT_LEN {
        return Some(ImageFault::Short);
    }
    let length = usize::from(length_in(bytes));
    if !is_length(length) || length != bytes.len() {
        return Some(ImageFault::Length);
    }
    if !is_entry(usize::from(entry_in(bytes)), length) {
        return Some(ImageFault::Entry);
    }
    if &bytes[4..8] != MARK.as_slice() {
        return Some(ImageFault::Mark);
    }
    if version_in(bytes) != VERSION {
        return Some(ImageFault::Version);
    }
    if 1 < flags_in(bytes) {
        return Some(ImageFault::Flags);
    }
    if !is_budget(budget_in(bytes)) {
        return Some(ImageFault::Budget);
    }
    if &bytes[16..32] != [0; 16].as_slice() {
        return Some(ImageFault::Reserved);
    }
    None
}

// The first fault of the values, if they have no image.
#[tactic(auto, unfolding(crate::specs::Faults::build_fault))]
pub(crate) fn fault_of_values(code: &[u8], entry: u32, budget: u32) -> Option<ImageFault>
    ensures fault { result ≡ build_fault entry budget code.now }
    ensures fits { result ≡ None → FitsImage entry budget code.now }
{
    if !is_code_length(code.len()) {
        return Some(ImageFault::Length);
    }
    if !is_entry(entry as usize, FRONT_LEN + code.len()) {
        return Some(ImageFault::Entry);
    }
    if !is_budget(budget) {
        return Some(ImageFault::Budget);
    }
    None
}
