//! The program `flicker`: does what the words of its command line say, over standard input, output and error.
#![tactic(auto)]

mod fault;
mod finished;
mod messages;
mod start;
#[cfg(test)]
mod tests;
mod top;
mod words;

use start::{arguments, begin, exit_code};
use std::env;
use std::io::{Stderr, Stdin, Stdout};
use std::process::ExitCode;

fn main(rt: HostRuntime) -> ExitCode {
    let status = match arguments(rt.alloc(), env::args(&rt)) {
        // The types tell the three streams apart.
        Ok(words) => begin::<Stdin, Stdout, Stderr>(
            rt.alloc(),
            &words,
            rt.stdin(),
            rt.stdout(),
            rt.stderr(),
        ).status,
        Err(fault) => Err(fault),
    };
    if let Err(fault) = &status {
        let _ = eprintln!(rt; "{fault}");
    }
    exit_code(&status)
}
