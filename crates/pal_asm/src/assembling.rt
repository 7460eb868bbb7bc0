//! From an assembler text to its code.

ghost use Rattle.std.specs.Prelude.{◌+◌, ◌≤◌, ◌≡◌, ◌≢◌, ◌∷◌, ◌<◌, ◌^◌, length, [], option_map, IfOk, IfErr, IsOk, MatchOption, MatchResult, MatchBool, Result, Ok, Err};
ghost use Rattle.pal_asm.specs.declared.fault.AsmKind.{AsmKind as KindView};
ghost use Rattle.pal_asm.specs.Tokens.{Colon, tokens};
ghost use Rattle.pal_asm.specs.SeenTokens.{token_view, NoColonFirst};
ghost use Rattle.pal_asm.specs.Lines.{lines};
ghost use Rattle.pal_asm.specs.Assembling.{Draft as Lines, Line, at_line, label_in, word_in, statement_in, line_in, line_tokens, no_lines, AreBlank, line_alone, first_tokens, draft_of, code_of};
ghost use Rattle.pal_asm.specs.Seen.{Refuses, RefusesLine, RefusesAlone};
ghost use Rattle.pal_asm.specs.SeenDraft.{Stands, Adds, AddsLine};
ghost use Rattle.pal_asm.specs.SeenStatements.{statement_view, word_view};

use crate::draft::Draft;
use crate::fault::{AsmError, AsmFault, AsmKind, LineFault};
use crate::lines::{content, split_line, without_comment};
use crate::name::Name;
use crate::names::{Mnemonic, mnemonic_of};
use crate::statement::{Statement, statement_in};
use crate::tokens::{Token, first_token, is_blank_text};
use flk_base::Bytes;
use std::alloc::Global;

fn is_colon(token: Token<'_>) -> bool
    ensures { MatchBool result (token_view token.entry ≡ Colon) (token_view token.entry ≢ Colon) }
{
    match token {
        Token::Colon => true,
        _ => false,
    }
}

/// What stands after a colon that stands first.
fn after_colon(text: &[u8]) -> Option<&[u8]>
    ensures { MatchOption result (NoColonFirst (tokens text.now))
        (λ rest. tokens text.now ≡ Colon ∷ tokens rest.now) }
{
    let (first, rest) = first_token(text)?;
    if is_colon(first) { Some(rest) } else { None }
}

/// What stands before a colon, and the text after it.
fn label_from<'a>(first: Token<'a>, after: &'a [u8]) -> Result<(Option<Name>, &'a [u8]), AsmKind>
    ensures { MatchResult result
        (λ label. label_in (token_view first.entry ∷ Colon ∷ tokens after.now)
        ≡ Ok (label.0, tokens label.1.now))
        (λ kind. label_in (token_view first.entry ∷ Colon ∷ tokens after.now) ≡ Err kind) }
{
    match first {
        Token::Word(word) => match Name::of(word) {
            Some(name) => Ok((Some(name), after)),
            None => Err(AsmKind::Word),
        },
        _ => Err(AsmKind::Word),
    }
}

/// The label of a line and the text after it: a label is there where a colon stands first or
/// second.
fn label_in(text: &[u8]) -> Result<(Option<Name>, &[u8]), AsmKind>
    ensures { MatchResult result
        (λ label. label_in (tokens text.now) ≡ Ok (label.0, tokens label.1.now))
        (λ kind. label_in (tokens text.now) ≡ Err kind) }
{
    let Some((first, rest)) = first_token(text) else {
        return Ok((None, text));
    };
    if is_colon(first) {
        return Err(AsmKind::Word);
    }
    match after_colon(rest) {
        Some(after) => label_from(first, after),
        None => Ok((None, text)),
    }
}

/// The word of a statement and the text after it, where the statement begins with this token.
fn word_from<'a>(first: Token<'a>, rest: &'a [u8]) -> Result<Option<(Mnemonic, &'a [u8])>, AsmKind>
    ensures { MatchResult result
        (λ word. word_in (token_view first.entry ∷ tokens rest.now) ≡ Ok (word_view word))
        (λ kind. word_in (token_view first.entry ∷ tokens rest.now) ≡ Err kind) }
{
    match first {
        Token::Word(word) => match mnemonic_of(word) {
            Some(mnemonic) => Ok(Some((mnemonic, rest))),
            None => Err(AsmKind::Word),
        },
        _ => Err(AsmKind::Word),
    }
}

/// The word of a statement and the text after it.
fn word_in(text: &[u8]) -> Result<Option<(Mnemonic, &[u8])>, AsmKind>
    ensures { MatchResult result
        (λ word. word_in (tokens text.now) ≡ Ok (word_view word))
        (λ kind. word_in (tokens text.now) ≡ Err kind) }
{
    match first_token(text) {
        Some((first, rest)) => word_from(first, rest),
        None => Ok(None),
    }
}

/// The statement of a word and the text after it, where there is one.
fn statement_of(
    alloc: Global,
    word: Option<(Mnemonic, &[u8])>,
) -> Result<Option<Statement>, LineFault>
    ensures statement { MatchResult result
        (λ statement. statement_in (word_view word.entry)
        ≡ Ok (option_map statement_view statement))
        (λ fault. RefusesAlone fault (statement_in (word_view word.entry))) }
    ensures nothing { word.entry ≡ None → IsOk result }
{
    match word {
        None => Ok(None),
        Some((mnemonic, text)) => Ok(Some(statement_in(alloc, mnemonic, text)?)),
    }
}

/// One more line without its comment, or its first fault: the checks in their order.
fn add_line(draft: &mut Draft, alloc: Global, number: u32, text: &[u8]) -> Result<(), LineFault>
    ensures added { (before : Lines) → Stands draft.old before
        → Adds number before draft.new (line_in before (tokens text.now)) result }
    ensures alone { IfErr result (λ fault. fault ≡ LineFault.NoMemory
        → IsOk (line_alone (tokens text.now))) }
{
    let (label, after) = match label_in(text) {
        Ok(label) => label,
        Err(kind) => return Err(LineFault::Kind(kind)),
    };
    let word = match word_in(after) {
        Ok(word) => word,
        Err(kind) => return Err(LineFault::Kind(kind)),
    };
    if draft.defines(&label) {
        return Err(LineFault::Kind(AsmKind::Twice));
    }
    let statement = statement_of(alloc, word)?;
    draft.add(number, label, statement)
}

fn at(line: u32, fault: LineFault) -> AsmError
    ensures fault { (answer : Result Line KindView) → RefusesLine fault answer
        → Refuses result (at_line line answer) }
    ensures out_of_memory { result ≡ AsmError.NoMemory → fault ≡ LineFault.NoMemory }
{
    match fault {
        LineFault::Kind(kind) => AsmError::At(AsmFault { line, kind }),
        LineFault::NoMemory => AsmError::NoMemory,
    }
}

/// One more line, whose number fits where there is anything on it. A blank line adds nothing.
fn add_numbered(draft: &mut Draft, alloc: Global, number: u64, line: &[u8]) -> Result<(), AsmError>
    requires { number + length line.now ≤ 2 ^ 32 }
    ensures added { (before : Lines) → Stands draft.old before
        → AddsLine number before draft.new line.now result }
    ensures blank { line_tokens line.now ≡ [] → IsOk result }
    ensures alone { IfErr result (λ error. error ≡ AsmError.NoMemory
        → IsOk (line_alone (line_tokens line.now))) }
{
    let text = without_comment(content(line));
    if is_blank_text(text) {
        return Ok(());
    }
    let number = number as u32;
    match add_line(draft, alloc, number, text) {
        Ok(()) => Ok(()),
        Err(fault) => Err(at(number, fault)),
    }
}

/// The first pass: what all lines give, or the first fault.
fn draft_of(alloc: Global, text: &[u8]) -> Result<Draft, AsmError>
    requires { length text.now < 2 ^ 32 }
    ensures drafted { MatchResult result
        (λ draft. (all : Lines) × (draft_of 1 no_lines (lines text.now) ≡ Ok all)
        × Stands draft all)
        (λ error. Refuses error (draft_of 1 no_lines (lines text.now))) }
    ensures blank { AreBlank (lines text.now) → IsOk result }
    ensures first { MatchResult result
        (λ _. IsOk (line_alone (first_tokens (lines text.now))))
        (λ error. error ≡ AsmError.NoMemory → IsOk (line_alone (first_tokens (lines text.now)))) }
{
    let mut draft = Draft::new(alloc);
    let mut number = 1u64;
    let mut rest = Some(text);
    'lines: while let Some(lines) = rest {
        let (line, after) = split_line(lines);
        add_numbered(&mut draft, alloc, number, line)?;
        number += 1;
        rest = after;
    }
    Ok(draft)
}

/// The code of a text of fewer than 2^32 bytes, each instruction in its chosen spelling, or the
/// text's first fault.
pub fn assemble(alloc: Global, text: &[u8]) -> Result<Bytes, AsmError>
    requires { length text.now < 2 ^ 32 }
    // The code, where there is no fault.
    ensures code { IfOk result (λ code. code_of text.now ≡ Ok code.bytes) }
    // Exactly the first fault, unless memory ran out.
    ensures fault { IfErr result (λ error. Refuses error (code_of text.now)) }
    // Where each line is blank or a comment, memory does not run out.
    ensures blank { AreBlank (lines text.now) → IsOk result }
    // Out of memory never hides what is wrong with the first line that is not blank.
    ensures first { IfErr result (λ error. error ≡ AsmError.NoMemory
        → IsOk (line_alone (first_tokens (lines text.now)))) }
{
    let draft = draft_of(alloc, text)?;
    draft.finish(alloc)
}
