// Runs a filter.
ghost use Rattle.flk_base.specs.Streams.{intake, output};
ghost use Rattle.flk_base.specs.RunEnds.{HasCauses, WriteHasCause};
ghost use Rattle.flk_filters.specs.Inputs.{FilterRan};
ghost use Rattle.flk_filters.specs.Seen.{GivesText, IsRefused, TextWritten};

use crate::asm::assembly_text;
use crate::dis::listing_text;
use crate::fault::{BadInput, FilterFault};
use crate::filter::Filter;
use crate::input::{read_buffer, read_input, room_for_input};
use crate::measure::measure_text;
use crate::verify::verify_text;
use flk_base::{Bytes, RunEnd, Sink, Source};
use std::alloc::Global;

const NO: &[u8; 3] = b"no\n";

/// Reads the whole input, and writes what the filter makes of it by one put. Of an input that is
/// not of its form nothing is written, and `no` of a line of `verify` whose quote is another. All
/// that reading needs is allocated before the first read.
pub fn run_filter<S: Source, K: Sink>(
    alloc: Global,
    filter: Filter,
    source: &mut S,
    out: &mut K,
) -> RunEnd<BadInput>
    // What was taken and written.
    ensures ran { FilterRan filter result (intake S.Source source.old source.new)
        (output K.Sink out.old out.new) }
    // No fault is passed over, or reported as another end.
    ensures caused { HasCauses result (intake S.Source source.old source.new)
        (output K.Sink out.old out.new) }
{
    let Ok(mut buffer) = read_buffer(alloc) else {
        return RunEnd::NoMemory;
    };
    let Ok(mut input) = room_for_input(alloc) else {
        return RunEnd::NoMemory;
    };
    match read_input(&mut input, &mut buffer, source) {
        Ok(()) => {}
        Err(_) => return RunEnd::ReadFault,
    }
    match text_of(alloc, filter, input.as_slice()) {
        Ok(text) => write(text.as_slice(), out),
        Err(FilterFault::Bad(bad)) => refuse(bad, out),
        Err(FilterFault::NoMemory) => RunEnd::NoMemory,
    }
}

// What a filter makes of an input.
fn text_of(alloc: Global, filter: Filter, input: &[u8]) -> Result<Bytes, FilterFault>
    ensures { GivesText filter input.now result }
{
    match filter {
        Filter::Asm => assembly_text(alloc, input),
        Filter::Dis => listing_text(alloc, input),
        Filter::Measure => measure_text(alloc, input),
        Filter::Verify => verify_text(alloc, input),
    }
}

// Writes a text by one put, and one without bytes by none.
fn write<K: Sink>(text: &[u8], out: &mut K) -> RunEnd<BadInput>
    ensures written { TextWritten result (K.contents out.old) (K.contents out.new) text.now }
    ensures caused { WriteHasCause result (output K.Sink out.old out.new) }
{
    if text.is_empty() {
        return RunEnd::Done;
    }
    match out.put(text) {
        Ok(()) => RunEnd::Done,
        Err(fault) => RunEnd::Cut(fault),
    }
}

// Writes what is written of an input with this fault.
fn refuse<K: Sink>(bad: BadInput, out: &mut K) -> RunEnd<BadInput>
    ensures told { IsRefused bad result (K.contents out.old) (K.contents out.new) }
    ensures caused { WriteHasCause result (output K.Sink out.old out.new) }
{
    match bad {
        BadInput::Denied => deny(out),
        _ => RunEnd::Bad(bad),
    }
}

// Writes no.
fn deny<K: Sink>(out: &mut K) -> RunEnd<BadInput>
    ensures told { IsRefused BadInput.Denied result (K.contents out.old) (K.contents out.new) }
    ensures caused { WriteHasCause result (output K.Sink out.old out.new) }
{
    match out.put(NO) {
        Ok(()) => RunEnd::Bad(BadInput::Denied),
        Err(fault) => RunEnd::Cut(fault),
    }
}
