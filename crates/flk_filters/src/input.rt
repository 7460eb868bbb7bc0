// Reads the whole input of a filter.
ghost use Rattle.std.specs.Prelude.{◌≡◌, ◌+◌, ◌≤◌, [], length, vec_len, IfOk, OnOk, OnErr};
ghost use Rattle.flk_base.specs.Causes.{HasCause};
ghost use Rattle.flk_base.specs.Known.{KeepsWhereKnown};
ghost use Rattle.flk_filters.specs.Filters.{most_input};
ghost use Rattle.flk_filters.specs.Inputs.{TakesInput, TakesShort};
ghost use Rattle.flk_filters.specs.Seen.{TakesPiece};

use flk_base::{Bytes, Failed, NoMemory, Source};
use std::alloc::Global;

/// The most bytes that an input may have.
pub(crate) const MOST_INPUT: usize = 1_048_576;

/// The most bytes that one read takes.
const READ_SIZE: usize = 65_536;

/// No bytes, with room for one byte more than an input may have.
pub(crate) fn room_for_input(alloc: Global) -> Result<Bytes, NoMemory>
    ensures empty { IfOk result (λ input. input.bytes ≡ []) }
    ensures room { IfOk result (λ input. most_input + 1 ≤ input.spare) }
{
    let mut input = Bytes::new(alloc);
    input.reserve(MOST_INPUT + 1)?;
    Ok(input)
}

/// The buffer for one read.
pub(crate) fn read_buffer(alloc: Global) -> Result<Vec<u8>, NoMemory>
    ensures { IfOk result (λ buffer. length buffer.items ≡ READ_SIZE) }
{
    match vec![in alloc; 0; READ_SIZE] {
        Ok(buffer) => Ok(buffer),
        Err(_) => Err(NoMemory),
    }
}

/// Reads up to the end of the source, or until there is one byte more than an input may have. What
/// was taken is in `input`, also where a read failed. It allocates nothing.
pub(crate) fn read_input<S: Source>(
    input: &mut Bytes,
    buffer: &mut [u8],
    source: &mut S,
) -> Result<(), Failed>
    requires empty { input.old.bytes ≡ [] }
    requires room { most_input + 1 ≤ input.old.spare }
    requires size { length buffer.old ≡ READ_SIZE }
    ensures ok { OnOk result (TakesInput (S.left source.old) (S.left source.new) input.new.bytes) }
    ensures err { OnErr result (TakesShort (S.left source.old) (S.left source.new)
        input.new.bytes) }
    ensures cause { HasCause (S.fault_count source.old) (S.fault_count source.new) result }
{
    'reads: while input.as_slice().len() <= MOST_INPUT {
        if !read_piece(input, buffer, source)? {
            return Ok(());
        }
    }
    Ok(())
}

// Reads once, and says whether there was more.
fn read_piece<S: Source>(
    input: &mut Bytes,
    buffer: &mut [u8],
    source: &mut S,
) -> Result<bool, Failed>
    requires few { length input.old.bytes ≤ most_input }
    requires room { most_input + 1 ≤ length input.old.bytes + input.old.spare }
    requires size { length buffer.old ≡ READ_SIZE }
    ensures piece { IfOk result (λ more. TakesPiece more input.old.bytes input.new.bytes
        (S.left source.old) (S.left source.new)) }
    ensures room { OnOk result (length input.new.bytes + input.new.spare
        ≡ length input.old.bytes + input.old.spare) }
    ensures kept { OnErr result (KeepsWhereKnown (S.left source.old) (S.left source.new)) }
    ensures unread { OnErr result (input.new.bytes ≡ input.old.bytes) }
    ensures cause { HasCause (S.fault_count source.old) (S.fault_count source.new) result }
{
    let most = (MOST_INPUT + 1 - input.as_slice().len()).min(READ_SIZE);
    let count = source.read(&mut buffer[..most])?;
    input.put(&buffer[..count]);
    Ok(count != 0)
}
