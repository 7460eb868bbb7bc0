//! Building an image from its values.
ghost use Rattle.std.specs.Prelude.{◌≡◌, ◌↔◌, ◌+◌, ◌≤◌, ◌++◌, length, Some, Err, IfOk, OnOk};
ghost use Rattle.slb_image.specs.Image.{front, pack, FitsImage};
ghost use Rattle.slb_image.specs.Faults.{build_fault};

use crate::checks::fault_of_values;
use crate::fault::ImageFault;
use crate::fields::{CODE_LEN_MAX, FRONT_LEN, MARK, VERSION};
use byteorder::{ByteOrder, LittleEndian};
use flk_base::{Bytes, NoMemory};
use std::alloc::Global;

/// Why no image was built.
#[derive(Clone, Copy, Debug, PartialEq, Eq)]
pub enum BuildError {
    /// The values have no image.
    Image(ImageFault),
    /// There was no memory for the image.
    NoMemory,
}

/// The front of the image of these values.
#[tactic(auto, unfolding(crate::specs::Image::front))]
fn front_of(code: &[u8], entry: u16, budget: u32, job: bool) -> [u8; FRONT_LEN]
    requires { length code.now ≤ CODE_LEN_MAX }
    ensures { result ≡ front entry budget job code.now }
{
    let mut front = [0; FRONT_LEN];
    LittleEndian::write_u16(&mut front, entry);
    LittleEndian::write_u16(&mut front[2..], (FRONT_LEN + code.len()) as u16);
    front[4..8].copy_from_slice(MARK);
    LittleEndian::write_u16(&mut front[8..], VERSION);
    LittleEndian::write_u16(&mut front[10..], u16::from(job));
    LittleEndian::write_u32(&mut front[12..], budget);
    front
}

/// Front and code as one list.
fn front_and_code(alloc: Global, front: &[u8; FRONT_LEN], code: &[u8]) -> Result<Bytes, NoMemory>
    requires { length code.now ≤ CODE_LEN_MAX }
    ensures { IfOk result (λ image. image.bytes ≡ front.now ++ code.now) }
{
    let mut image = Bytes::new(alloc);
    image.reserve(FRONT_LEN + code.len())?;
    image.put(front);
    image.put(code);
    Ok(image)
}

/// The image of these values, by docs/IMAGES.md. The code has 1 to 49,120 bytes (else Length), is
/// entered at an offset from 32 up to and without the image's length (else Entry), and may take 1
/// to 1,000,000 turns (else Budget); the first of these that fails is answered. Where none fails,
/// memory may still run out.
pub fn build(
    alloc: Global,
    code: &[u8],
    entry: u32,
    budget: u32,
    job: bool,
) -> Result<Bytes, BuildError>
    ensures packed { IfOk result (λ image. image.bytes ≡ pack entry budget job code.now) }
    ensures fits { OnOk result (FitsImage entry budget code.now) }
    // The first check that fails is answered, also where there is no memory.
    ensures fault { (fault : ImageFault) → (result ≡ Err (BuildError.Image fault))
        ↔ (build_fault entry budget code.now ≡ Some fault) }
{
    if let Some(fault) = fault_of_values(code, entry, budget) {
        return Err(BuildError::Image(fault));
    }
    match front_and_code(alloc, &front_of(code, entry as u16, budget, job), code) {
        Ok(image) => Ok(image),
        Err(NoMemory) => Err(BuildError::NoMemory),
    }
}
