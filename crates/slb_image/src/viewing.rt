//! Bytes seen as an image.
ghost use Rattle.std.specs.Prelude.{◌≡◌, ◌↔◌, IfOk, IsOk};
ghost use Rattle.std.specs.Result.{result_err};
ghost use Rattle.slb_image.specs.Image.{IsImageOf, IsImage};
ghost use Rattle.slb_image.specs.Faults.{image_fault};

use crate::checks::fault_of_image;
use crate::fault::ImageFault;
use crate::fields::{FRONT_LEN, budget_in, entry_in, flags_in};
use std::marker::Model;

/// An image, and what it says. The bytes are lent and never copied.
#[derive(Drop)]
pub struct ImageView<'a> {
    bytes: &'a [u8],
}

impl<'a> Model for ImageView<'a> {
    ghost use Rattle.slb_image.specs.Image.{Image, IsImageOf};
    ghost use Rattle.slb_image.specs.Fields.{image_of};

    ghost Value = { Image };

    ghost view = { λ v. image_of v.bytes.now };

    ghost invariant = { λ v. IsImageOf (image_of v.bytes.now) v.bytes.now };
}

/// The bytes as an image, or the first fault in the order of the numbers. It never allocates.
pub fn view(bytes: &[u8]) -> Result<ImageView<'_>, ImageFault>
    ensures image { IfOk result (λ image. IsImageOf image bytes.now) }
    ensures fault { result_err result ≡ image_fault bytes.now }
    ensures accepts { IsOk result ↔ IsImage bytes.now }
{
    match fault_of_image(bytes) {
        None => Ok(ImageView { bytes }),
        Some(fault) => Err(fault),
    }
}

#[tactic(auto, using(crate::proofs::Packed::image_has_front), unfolding(crate::specs::Fields::image_of))]
impl ImageView<'_> {
    /// The whole image.
    pub fn all(&self) -> &[u8]
        ensures { IsImageOf self.now result.now }
    {
        self.bytes
    }

    /// The code, which begins after the front.
    pub fn code(&self) -> &[u8]
        ensures { result.now ≡ self.now.code }
    {
        &self.bytes[FRONT_LEN..]
    }

    /// Where the code is entered, an offset from the image's first byte.
    pub fn entry(&self) -> u32
        ensures { result ≡ self.now.entry }
    {
        u32::from(entry_in(self.bytes))
    }

    /// How many turns the code may take.
    pub fn budget(&self) -> u32
        ensures { result ≡ self.now.budget }
    {
        budget_in(self.bytes)
    }

    /// Whether it is a job's image.
    pub fn job(&self) -> bool
        ensures { result ≡ self.now.job }
    {
        flags_in(self.bytes) == 1
    }
}
