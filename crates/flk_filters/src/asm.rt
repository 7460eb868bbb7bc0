// From an assembler text to its code.
ghost use Rattle.std.specs.Prelude.{◌≡◌, ◌++◌, codes, IfOk};
ghost use Rattle.hex.specs.Hex.{encode_lower};
ghost use Rattle.flk_filters.specs.Seen.{GivesText};

use crate::fault::{BadInput, FilterFault};
use crate::filter::Filter;
use crate::input::MOST_INPUT;
use flk_base::{Bytes, NoMemory, print_hex};
use pal_asm::{AsmError, assemble};
use std::alloc::Global;

// A line of the code's digits.
fn code_line(alloc: Global, code: &[u8]) -> Result<Bytes, NoMemory>
    ensures { IfOk result (λ line. line.bytes ≡ encode_lower code.now ++ codes "\n") }
{
    let mut line = Bytes::new(alloc);
    print_hex(&mut line, code)?;
    line.push_all(b"\n")?;
    Ok(line)
}

/// The line that `asm` writes.
pub(crate) fn assembly_text(alloc: Global, input: &[u8]) -> Result<Bytes, FilterFault>
    ensures { GivesText Filter.Asm input.now result }
{
    if input.len() > MOST_INPUT {
        return Err(FilterFault::Bad(BadInput::TooLong));
    }
    match assemble(alloc, input) {
        Ok(code) => match code_line(alloc, code.as_slice()) {
            Ok(line) => Ok(line),
            Err(NoMemory) => Err(FilterFault::NoMemory),
        },
        Err(AsmError::At(fault)) => Err(FilterFault::Bad(BadInput::Assembly(fault))),
        Err(AsmError::NoMemory) => Err(FilterFault::NoMemory),
    }
}
