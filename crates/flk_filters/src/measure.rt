// From an image to its measurement.
ghost use Rattle.std.specs.Prelude.{◌≡◌, ◌++◌, codes, IfOk, OnOk};
ghost use Rattle.hex.specs.Hex.{encode_lower};
ghost use Rattle.flk_base.specs.Checks.{GivesFaultFirst};
ghost use Rattle.flk_filters.specs.Filters.{launch_value, measures};
ghost use Rattle.flk_filters.specs.Seen.{input_fault, image_lines, GivesText};

use crate::fault::{BadInput, FilterFault};
use crate::filter::Filter;
use crate::hexadecimal::{hex_of, input_size};
use flk_base::{Bytes, NoMemory, print_hex};
use sha1::Sha1;
use slb_image::view;
use std::alloc::Global;

// What register 17 shows after the launch of an image: SHA-1 of 20 bytes 00 and of the image's
// digest.
fn launch_value(image: &[u8]) -> [u8; 20]
    ensures { result ≡ launch_value image.now }
{
    let mut hasher = Sha1::new();
    hasher.update(&[0x00; 20]);
    hasher.update(&Sha1::digest(image));
    hasher.finalize()
}

// Appends a word, a space, the digits of a value, and LF.
fn put_value(lines: &mut Bytes, word: &[u8], value: &[u8; 20]) -> Result<(), NoMemory>
    ensures { OnOk result (lines.new.bytes ≡ lines.old.bytes ++ word.now ++ encode_lower value.now
        ++ codes "\n") }
{
    lines.push_all(word)?;
    print_hex(lines, value)?;
    lines.push_all(b"\n")
}

// The two lines of an image.
fn measures(alloc: Global, image: &[u8]) -> Result<Bytes, NoMemory>
    ensures { IfOk result (λ lines. lines.bytes ≡ measures image.now) }
{
    let mut lines = Bytes::new(alloc);
    put_value(&mut lines, b"sha1 ", &Sha1::digest(image))?;
    put_value(&mut lines, b"launch ", &launch_value(image))?;
    Ok(lines)
}

// The lines of bytes that are an image.
fn measures_of(alloc: Global, bytes: &[u8]) -> Result<Bytes, FilterFault>
    ensures { GivesFaultFirst input_fault (λ lines. lines.bytes) result (image_lines bytes.now) }
{
    if let Err(fault) = view(bytes) {
        return Err(FilterFault::Bad(BadInput::NotImage(fault)));
    }
    match measures(alloc, bytes) {
        Ok(lines) => Ok(lines),
        Err(NoMemory) => Err(FilterFault::NoMemory),
    }
}

/// The lines that `measure` writes.
pub(crate) fn measure_text(alloc: Global, input: &[u8]) -> Result<Bytes, FilterFault>
    ensures { GivesText Filter.Measure input.now result }
{
    if let Err(bad) = input_size(input) {
        return Err(FilterFault::Bad(bad));
    }
    match hex_of(alloc, input) {
        Ok(bytes) => measures_of(alloc, bytes.as_slice()),
        Err(NoMemory) => Err(FilterFault::NoMemory),
    }
}
