// From a line that describes a session to whether a quote is that of the session.
ghost use Rattle.std.specs.Prelude.{◌≡◌, codes, IfOk};
ghost use Rattle.tpm_state.specs.Chain.{value};
ghost use Rattle.tpm_state.specs.Sessions.{running_chain};
ghost use Rattle.script_text.specs.Verify.{claim_of};
ghost use Rattle.flk_filters.specs.Filters.{without_line_end, is_true};
ghost use Rattle.flk_filters.specs.Seen.{GivesText};

use crate::fault::{BadInput, FilterFault};
use crate::filter::Filter;
use crate::input::MOST_INPUT;
use flk_base::{Bytes, NoMemory};
use quote_check::Check;
use script_text::{Texts, VerifyFault, VerifyLine, read_verify};
use std::alloc::Global;

const LF: u8 = b'\n';

// An input without the LF at its end.
fn without_line_end(input: &[u8]) -> &[u8]
    ensures { result.now ≡ without_line_end input.now }
{
    match input.last() {
        Some(&LF) => &input[..input.len() - 1],
        _ => input,
    }
}

// The session of a line as far as its code extended register 17.
fn check_of(image: &[u8], texts: &Texts) -> Check
    ensures { result ≡ value (running_chain image.now texts.now) }
{
    let mut check = Check::new(image);
    for i in 0..texts.len() {
        let Some(text) = texts.get(i) else {
            unreachable!()
        };
        check.extend(text);
    }
    check
}

// Whether the quote of a line is that of the session that it describes.
fn is_true(line: &VerifyLine) -> bool
    ensures { result ≡ is_true (claim_of line.now) }
{
    check_of(line.image.as_slice(), &line.texts).verdict(
        &line.key,
        line.inputs.as_slice(),
        line.outputs.as_slice(),
        line.end,
        &line.nonce,
        line.quote.as_slice(),
    )
}

fn yes(alloc: Global) -> Result<Bytes, NoMemory>
    ensures { IfOk result (λ text. text.bytes ≡ codes "yes\n") }
{
    let mut text = Bytes::new(alloc);
    text.push_all(b"yes\n")?;
    Ok(text)
}

/// The line that `verify` writes of a claim that is true.
pub(crate) fn verify_text(alloc: Global, input: &[u8]) -> Result<Bytes, FilterFault>
    ensures { GivesText Filter.Verify input.now result }
{
    if input.len() > MOST_INPUT {
        return Err(FilterFault::Bad(BadInput::TooLong));
    }
    let line = match read_verify(alloc, without_line_end(input)) {
        Ok(line) => line,
        Err(VerifyFault::Form) => return Err(FilterFault::Bad(BadInput::VerifyLine)),
        Err(VerifyFault::NoMemory) => return Err(FilterFault::NoMemory),
    };
    if !is_true(&line) {
        return Err(FilterFault::Bad(BadInput::Denied));
    }
    match yes(alloc) {
        Ok(text) => Ok(text),
        Err(NoMemory) => Err(FilterFault::NoMemory),
    }
}
