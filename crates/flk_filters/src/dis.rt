// From code to its listing.
ghost use Rattle.std.specs.Prelude.{◌≡◌, IsOk, IfOk};
ghost use Rattle.flk_filters.specs.Filters.{fault_of, code_in, IsListing};
ghost use Rattle.flk_filters.specs.Seen.{GivesText};

use crate::fault::{BadInput, FilterFault};
use crate::filter::Filter;
use crate::hexadecimal::{hex_of, input_size};
use flk_base::{Bytes, NoMemory};
use pal_asm::{MOST_CODE, disassemble};
use std::alloc::Global;

// Why an input spells no code to be listed, if so. It allocates nothing.
fn code_fault(input: &[u8]) -> Option<BadInput>
    ensures { result ≡ fault_of (code_in input.now) }
{
    match input_size(input) {
        Ok(size) if size > MOST_CODE => Some(BadInput::TooLong),
        Ok(_) => None,
        Err(bad) => Some(bad),
    }
}

// The listing of the code that an input spells.
fn listing(alloc: Global, input: &[u8]) -> Result<Bytes, NoMemory>
    requires { IsOk (code_in input.now) }
    ensures { IfOk result (λ text. IsListing (code_in input.now) text.bytes) }
{
    let code = hex_of(alloc, input)?;
    disassemble(alloc, code.as_slice())
}

/// The listing that `dis` writes.
pub(crate) fn listing_text(alloc: Global, input: &[u8]) -> Result<Bytes, FilterFault>
    ensures { GivesText Filter.Dis input.now result }
{
    if let Some(bad) = code_fault(input) {
        return Err(FilterFault::Bad(bad));
    }
    match listing(alloc, input) {
        Ok(text) => Ok(text),
        Err(NoMemory) => Err(FilterFault::NoMemory),
    }
}
