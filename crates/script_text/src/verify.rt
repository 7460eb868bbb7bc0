// The line of `verify`.
ghost use Rattle.std.specs.Prelude.{◌≡◌, ◌≢◌, ◌↔◌, ◌≤◌, ℕ, List, [], ◌∷◌, ◌++◌, length, slice_get, Some, None, Err, IfOk, OnOk, OnErr, MatchOption};
ghost use Rattle.std.specs.Option.{option_copied};
ghost use Rattle.expr_text.specs.ExpressionReading.{all_of};
ghost use Rattle.script_text.specs.Lines.{words, content};
ghost use Rattle.script_text.specs.Verify.{Claim, SpellsVerify, value_in, twenty_in, byte_in, claim_in, verify_reading, all_words, claim_of, ReadsAs};

use crate::words::{Words, content};
use expr_text::{ExprError, Unread, Vars, expression_in, number_of};
use flk_base::{Bytes, NoMemory};
use std::alloc::Global;
use std::marker::Model;

/// A list of texts. Contracts see the list of their bytes.
#[derive(Drop)]
pub struct Texts {
    items: Vec<Bytes>,
}

impl Model for Texts {
    ghost use Rattle.std.specs.Prelude.{List, ℕ, map};

    ghost Value = { List (List ℕ) };

    ghost view = { λ t. map (λ text. text.bytes) t.items.items };
}

/// What a line of `verify` claims: that under this key for quotes and for this nonce, the quote is
/// that of a session of the image with these inputs and outputs, which ended so, and whose code
/// extended register 17 by these texts.
#[derive(Drop)]
pub struct VerifyLine {
    pub key: [u8; 20],
    pub quote: Bytes,
    pub image: Bytes,
    pub inputs: Bytes,
    pub outputs: Bytes,
    /// The byte for the session's end.
    pub end: u8,
    pub nonce: [u8; 20],
    pub texts: Texts,
}

/// Why a line of `verify` is not read.
#[derive(Clone, Copy, Debug, PartialEq, Eq)]
pub enum VerifyFault {
    /// 1: it has fewer than seven words, or one of the wrong form or without a value.
    Form,
    /// Memory ran out.
    NoMemory,
}

// The words of a line: the seven that it must have, and those of the texts.
#[derive(Drop)]
struct LineWords<'a> {
    key: &'a [u8],
    quote: &'a [u8],
    image: &'a [u8],
    inputs: &'a [u8],
    outputs: &'a [u8],
    end: &'a [u8],
    nonce: &'a [u8],
    texts: Words<'a>,
}

impl Texts {
    // No texts, which allocate nothing.
    fn new(alloc: Global) -> Texts
        ensures { result ≡ [] }
    {
        Texts {
            items: Vec::new(alloc),
        }
    }

    // Appends a text, or nothing.
    fn push(&mut self, text: Bytes) -> Result<(), NoMemory>
        ensures ok { OnOk result (self.new ≡ self.old ++ text.bytes ∷ []) }
        ensures err { OnErr result (self.new ≡ self.old) }
    {
        match self.items.push(text) {
            Ok(()) => Ok(()),
            Err(_) => Err(NoMemory),
        }
    }

    /// How many texts there are.
    pub fn len(&self) -> usize
        ensures { result ≡ length self.now }
    {
        self.items.len()
    }

    /// The text at an index, counted from 0; None exactly where it is not below the length.
    pub fn get(&self, i: usize) -> Option<&[u8]>
        ensures { option_copied result ≡ slice_get self.now i }
    {
        match self.items.get(i) {
            Some(text) => Some(text.as_slice()),
            None => None,
        }
    }
}

/// What the line, without its LF, claims: KEY QUOTE IMAGE IN OUT END NONCE TEXT*. END is a Number
/// from 0 to 255, the others are expressions where no name is bound, and the values of KEY and NONCE
/// have 20 bytes.
pub fn read_verify(alloc: Global, bytes: &[u8]) -> Result<VerifyLine, VerifyFault>
    // What is read is spelled so.
    ensures spelled { IfOk result (λ line. SpellsVerify (claim_of line) bytes.now) }
    // What is spelled so is read, unless memory runs out.
    ensures only { (claim : Claim) → SpellsVerify claim bytes.now
        → ReadsAs claim_of result (Some claim) }
    // Nothing is read exactly where the line claims nothing, unless memory runs out.
    ensures exact { ReadsAs claim_of result (verify_reading bytes.now) }
    // Fewer than seven words allocate nothing.
    ensures few { result ≡ Err VerifyFault.NoMemory → 7 ≤ length (words (content bytes.now)) }
{
    read(alloc, bytes)
}

/// No line claims two things, and what a line claims is what reading it gives.
pub fn one_claim()
    ensures one { (line : List ℕ) (a : Claim) (b : Claim) → SpellsVerify a line
        → SpellsVerify b line → a ≡ b }
    ensures read { (line : List ℕ) (claim : Claim)
        → SpellsVerify claim line ↔ (verify_reading line ≡ Some claim) }
{}

fn read(alloc: Global, bytes: &[u8]) -> Result<VerifyLine, VerifyFault>
    ensures exact { ReadsAs claim_of result (verify_reading bytes.now) }
    ensures few { result ≡ Err VerifyFault.NoMemory → 7 ≤ length (words (content bytes.now)) }
{
    match line_words(Words::new(content(bytes))) {
        Some(line) => read_words(alloc, line),
        None => Err(VerifyFault::Form),
    }
}

// The words, if there are as many as a line must have.
fn line_words(mut words: Words<'_>) -> Option<LineWords<'_>>
    ensures { MatchOption result (claim_in words.entry ≡ None)
        (λ line. words.entry ≡ all_words line) }
{
    Some(LineWords {
        key: words.next()?,
        quote: words.next()?,
        image: words.next()?,
        inputs: words.next()?,
        outputs: words.next()?,
        end: words.next()?,
        nonce: words.next()?,
        texts: words,
    })
}

// What the words of a line claim.
fn read_words(alloc: Global, line: LineWords<'_>) -> Result<VerifyLine, VerifyFault>
    ensures { ReadsAs claim_of result (claim_in (all_words line.entry)) }
{
    Ok(VerifyLine {
        key: twenty_in(alloc, line.key)?,
        quote: value_in(alloc, line.quote)?,
        image: value_in(alloc, line.image)?,
        inputs: value_in(alloc, line.inputs)?,
        outputs: value_in(alloc, line.outputs)?,
        end: byte_in(line.end)?,
        nonce: twenty_in(alloc, line.nonce)?,
        texts: texts_in(alloc, line.texts)?,
    })
}

// The value of the expression that a word spells.
fn value_in(alloc: Global, word: &[u8]) -> Result<Bytes, VerifyFault>
    ensures { ReadsAs (λ value. value.bytes) result (value_in word.now) }
{
    let expression = match expression_in(alloc, word) {
        Ok(expression) => expression,
        Err(Unread::Spelling) => return Err(VerifyFault::Form),
        Err(Unread::NoMemory) => return Err(VerifyFault::NoMemory),
    };
    match expression.value(alloc, &Vars::new(alloc)) {
        Ok(value) => Ok(value),
        Err(ExprError::Fault(_)) => Err(VerifyFault::Form),
        Err(ExprError::NoMemory) => Err(VerifyFault::NoMemory),
    }
}

// The 20 bytes that are the value of a word.
fn twenty_in(alloc: Global, word: &[u8]) -> Result<[u8; 20], VerifyFault>
    ensures { ReadsAs (λ bytes. bytes) result (twenty_in word.now) }
{
    let value = value_in(alloc, word)?;
    let bytes = value.as_slice();
    if bytes.len() != 20 {
        return Err(VerifyFault::Form);
    }
    let mut twenty = [0; 20];
    twenty.copy_from_slice(bytes);
    Ok(twenty)
}

// The byte that is the number of a word.
fn byte_in(word: &[u8]) -> Result<u8, VerifyFault>
    ensures exact { ReadsAs (λ byte. byte) result (byte_in word.now) }
    ensures kept { result ≢ Err VerifyFault.NoMemory }
{
    match number_of(word) {
        Some(number) if number <= 255 => Ok(number as u8),
        _ => Err(VerifyFault::Form),
    }
}

// The values of words, one text each.
fn texts_in(alloc: Global, mut words: Words<'_>) -> Result<Texts, VerifyFault>
    ensures { ReadsAs (λ texts. texts) result (all_of value_in words.entry) }
{
    let mut texts = Texts::new(alloc);
    while let Some(word) = words.next() {
        let text = value_in(alloc, word)?;
        if texts.push(text).is_err() {
            return Err(VerifyFault::NoMemory);
        }
    }
    Ok(texts)
}
