// From the words and std's streams to the status that the program ends with.
ghost use Rattle.std.specs.Prelude.{◌≡◌, ◌≢◌, [], Some, drop, map, string_bytes, IfOk, IfErr, IsOkAnd};
ghost use Rattle.std.specs.FinMap.{empty};
ghost use Rattle.std.specs.Vec.Iter.{into_iter_items};
ghost use Rattle.std.specs.IoError.{error_kind};
ghost use Rattle.std.specs.Process.{exit_status};
ghost use Rattle.std.specs.declared.io.ErrorKind.TheVariants.{OutOfMemory};
ghost use Rattle.flicker_cli.specs.Commands.{command};
ghost use Rattle.seal_device.specs.Digests.{digests};
ghost use Rattle.job_store.specs.Simulated.{blank_failing};
ghost use Rattle.machine_memory.specs.HostMemory.{is_untaken};
ghost use Rattle.flk_run.specs.Parts.{platform_of, known_if};
ghost use Rattle.flk_run.specs.Platform.{blank};
ghost use Rattle.flicker_cli.specs.Starts.{AnsweredOver, edge, read_over, written_over, start_status};

use crate::top::flicker;
use flk_base::{StdSink, StdSource};
use flk_run::{Board, SimDisk};
use std::alloc::Global;
use std::env::Args;
use std::io;
use std::io::{Read, Write};
use std::process::ExitCode;
use thiserror::Error;

/// Why the program could not start.
#[derive(Debug, Drop, Error)]
pub enum StartFault {
    /// The words of the command line could not be read, or are no text.
    #[error("flicker: usage: flicker run, asm, dis, measure, verify or gen N SEED")]
    NotText,
    /// There was no memory for the words, the board or the disk.
    #[error("flicker: no memory")]
    NoMemory,
}

impl StartFault {
    /// Why there are no words.
    pub fn of_arguments(error: io::Error) -> StartFault
        ensures no_memory { error_kind error ≡ OutOfMemory → result ≡ StartFault.NoMemory }
        ensures not_text { error_kind error ≢ OutOfMemory → result ≡ StartFault.NotText }
    {
        match error.kind() {
            io::ErrorKind::OutOfMemory => StartFault::NoMemory,
            _ => StartFault::NotText,
        }
    }
}

// The words after the program's name, of all that were given.
fn words_of(alloc: Global, given: Args) -> Result<Vec<String>, StartFault>
    ensures ok { IfOk result (λ words. words.items ≡ drop 1 (into_iter_items given)) }
    ensures want { IfErr result (λ fault. fault ≡ StartFault.NoMemory) }
{
    let mut left = given;
    let _name = left.next();
    let mut words = Vec::new(alloc);
    'words: while let Some(word) = left.next() {
        if words.push(word).is_err() {
            return Err(StartFault::NoMemory);
        }
    }
    Ok(words)
}

/// The same, where the words could be read, and are text.
pub fn arguments(alloc: Global, given: io::Result<Args>) -> Result<Vec<String>, StartFault>
    ensures ok { IfOk result (λ words. IsOkAnd given (λ all. words.items ≡ drop 1 (into_iter_items all))) }
    ensures want { IfOk given (λ all. IfErr result (λ fault. fault ≡ StartFault.NoMemory)) }
    ensures no_memory { IfErr given (λ error. error_kind error ≡ OutOfMemory → result ≡ Err StartFault.NoMemory) }
    ensures not_text { IfErr given (λ error. error_kind error ≢ OutOfMemory → result ≡ Err StartFault.NotText) }
{
    match given {
        Ok(all) => words_of(alloc, all),
        Err(error) => Err(StartFault::of_arguments(error)),
    }
}

/// What is left of a call over std's reader and writers: the status, if the call was made, and these with the count of
/// their faults.
#[derive(Drop)]
pub struct Left<R, W, V> {
    pub status: Result<u8, StartFault>,
    pub input: StdSource<R>,
    pub out: StdSink<W>,
    pub err: StdSink<V>,
}

/// Makes a blank board and disk, and does what the words say over this reader and these writers, once.
pub fn begin<R: Read, W: Write, V: Write>(
    alloc: Global,
    words: &[String],
    input: R,
    out: W,
    err: V,
) -> Left<R, W, V>
    // How the call ended, by digests and by lists, in terms of what the reader and the writers themselves make known.
    ensures answered { IfOk result.status (λ status. AnsweredOver (command (map string_bytes words.now)) status
        (read_over R.remaining (edge input) result.input) (written_over W.contents (edge out) result.out)
        (written_over V.contents (edge err) result.err)) }
    // Without a board or a disk nothing is read or written.
    ensures want { IfErr result.status (λ fault. fault ≡ StartFault.NoMemory) }
    ensures unread { IfErr result.status (λ fault. result.input ≡ edge input) }
    ensures unwritten { IfErr result.status (λ fault. (result.out ≡ edge out) × (result.err ≡ edge err)) }
{
    let mut input = StdSource::new(input);
    let mut out = StdSink::new(out);
    let mut err = StdSink::new(err);
    match blank_machine(alloc) {
        Ok((board, disk)) => {
            let finished = flicker(alloc, words, &mut input, &mut out, &mut err, board, disk);
            return Left {
                status: Ok(finished.exit()),
                input,
                out,
                err,
            };
        }
        Err(fault) => {
            return Left {
                status: Err(fault),
                input,
                out,
                err,
            };
        }
    }
}

// A board that was never used, and a disk of zeros of which no call fails.
fn blank_machine(alloc: Global) -> Result<(Board, SimDisk), StartFault>
    ensures blank { IfOk result (λ machine.
        known_if (is_untaken machine.0.memory) (platform_of machine.0 [] machine.1 empty) ≡ Some (blank digests (blank_failing []))) }
    ensures want { IfErr result (λ fault. fault ≡ StartFault.NoMemory) }
{
    let Ok(board) = Board::blank(alloc) else {
        return Err(StartFault::NoMemory);
    };
    match SimDisk::blank(alloc) {
        Ok(disk) => Ok((board, disk)),
        Err(_) => {
            board.scrap();
            Err(StartFault::NoMemory)
        }
    }
}

/// The exit code of the program: the status of the call, or of what kept it from being made.
pub fn exit_code(status: &Result<u8, StartFault>) -> ExitCode
    ensures { exit_status result ≡ start_status status.now }
{
    match status {
        Ok(status) => ExitCode::from(*status),
        Err(StartFault::NotText) => ExitCode::from(2),
        Err(StartFault::NoMemory) => ExitCode::from(5),
    }
}
