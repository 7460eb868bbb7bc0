//! The blocks of all frames: those that are read and written from an address on.
ghost use Rattle.std.specs.Prelude.{◌≡◌, ℕ, ◌+◌, ◌<◌, ◌≤◌, ◌^◌, [], length, replicate};
ghost use Rattle.std.specs.Prelude.{map, IfOk};
ghost use Rattle.region_pool.specs.Marks.{IsTaken};
ghost use Rattle.region_pool.specs.Spans.{IsSpanAt};
ghost use Rattle.machine_memory.specs.Writes.{part, written};
ghost use Rattle.machine_memory.specs.Contents.{frame_of};
ghost use Rattle.machine_memory.specs.Blocks.{HasBlocks, bytes_in};
ghost use Rattle.machine_memory.specs.Spans.{LiesInSpan};

use crate::block::Block;
use crate::sizes::FRAME_LEN;
use region_pool::{NoMemory, Pool};
use std::alloc::Global;

/// Empty blocks for so many frames.
pub(crate) fn no_blocks(alloc: Global, frames: usize) -> Result<Vec<Block>, NoMemory>
    ensures { IfOk result (λ blocks. blocks.items ≡ replicate frames []) }
{
    let mut blocks = Vec::with_capacity(alloc, frames).map_err(|_| NoMemory)?;
    for _frame in 0..frames {
        blocks.push(Block::empty(alloc)).map_err(|_| NoMemory)?;
    }
    Ok(blocks)
}

/// Makes all bytes of all blocks zero.
pub(crate) fn wipe_blocks(blocks: &mut [Block])
    ensures { blocks.new ≡ map (λ block. replicate (length block) 0) blocks.old }
{
    for block in blocks.iter_mut() {
        block.wipe_all();
    }
}

/// The first frame and the number of frames of the span in which an address lies.
fn span_of(pool: &Pool, at: usize) -> (usize, usize)
    requires small { length pool.now < 2 ^ 32 }
    requires taken { IsTaken pool.now (frame_of at) }
    ensures { IsSpanAt pool.now (frame_of at) result.0 result.1 }
{
    match pool.span_at((at / FRAME_LEN) as u32) {
        Some((first, frames)) => (first as usize, frames as usize),
        None => unreachable!(),
    }
}

/// Reads bytes that lie in one span.
pub(crate) fn read_span(blocks: &[Block], pool: &Pool, at: usize, out: &mut [u8])
    requires small { length pool.now < 2 ^ 32 }
    requires sound { HasBlocks pool.now blocks.now }
    requires inside { LiesInSpan pool.now at (length out.old) }
    ensures { out.new ≡ part (bytes_in pool.now blocks.now) at (length out.old) }
{
    if out.is_empty() {
        return;
    }
    let (first, _) = span_of(pool, at);
    let from = at - FRAME_LEN * first;
    let block = blocks[first].bytes();
    out.copy_from_slice(&block[from..from + out.len()]);
}

/// Writes bytes to taken frames, wherever spans begin and end.
pub(crate) fn write_spans(blocks: &mut [Block], pool: &Pool, at: usize, bytes: &[u8])
    requires small { length pool.now < 2 ^ 32 }
    requires sound { HasBlocks pool.now blocks.old }
    requires taken { (address : ℕ) → at ≤ address → address < at + length bytes.now
        → IsTaken pool.now (frame_of address) }
    ensures sound { HasBlocks pool.now blocks.new }
    ensures written { bytes_in pool.now blocks.new
        ≡ written (bytes_in pool.now blocks.old) at bytes.now }
{
    let mut done = 0;
    while done < bytes.len() {
        let (first, frames) = span_of(pool, at + done);
        let from = at + done - FRAME_LEN * first;
        let count = (FRAME_LEN * frames - from).min(bytes.len() - done);
        blocks[first].write(from, &bytes[done..done + count]);
        done += count;
    }
}
