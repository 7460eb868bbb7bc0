// The value of an expression: first its length, then its bytes.
ghost use Rattle.std.specs.Prelude.{◌≡◌, ◌+◌, ◌-◌, ◌^◌, ◌<◌, ◌≤◌, ◌++◌, length, take, drop, IfOk, OnOk, MatchResult, Ok, Err};
ghost use Rattle.flk_base.specs.Checks.{GivesFaultFirst};
ghost use Rattle.expr_text.specs.SeenExpressions.{expr_fault, seen_atom, seen_suffix, seen_suffixes, seen_term, seen_terms};
ghost use Rattle.expr_text.specs.Values.{atom_value, term_value, value_of};
ghost use Rattle.expr_text.specs.Windows.{Appends, source_bytes, length_of, window_after, window_after_all, flip_at, changes_by, values_of, sum_length, whole_window, IsWithin};
ghost use Rattle.expr_text.specs.declared.value.ExprError.TheVariants.{Fault};

use crate::expression::{ExprAtom, ExprSuffix, ExprTerm};
use crate::vars::Vars;
use flk_base::{Bytes, NoMemory};
use std::alloc::Global;

/// Why an expression has no value.
#[derive(Clone, Copy, Debug, PartialEq, Eq)]
pub enum ExprFault {
    /// 1: a name is not bound.
    Name,
    /// 2: a cut begins past its end or ends past the value, or an index to flip is not in it.
    Range,
    /// 3: a term or the sum so far has more than 65,536 bytes.
    Long,
}

/// Why there are no bytes for an expression.
#[derive(Clone, Copy)]
pub enum ExprError {
    /// It has no value, for this fault.
    Fault(ExprFault),
    /// Memory ran out.
    NoMemory,
}

impl From<ExprFault> for ExprError {
    ghost from_gives = { λ fault error. error ≡ Fault fault };

    fn from(fault: ExprFault) -> ExprError {
        ExprError::Fault(fault)
    }
}

/// The most bytes that a term may have, and the sum of terms.
pub const LONGEST_VALUE: usize = 65_536;

// How many bytes are made at a time.
const PIECE: usize = 256;

// Which bytes of an atom's value remain.
#[derive(Clone, Copy)]
struct Window {
    from: usize,
    len: usize,
}

// The value of an atom.
#[derive(Clone, Copy)]
enum Source<'a> {
    Given(&'a [u8]),
    Repeated { byte: u8, count: u32 },
}

/// The value of terms.
pub(crate) fn value_of(alloc: Global, terms: &[ExprTerm], vars: &Vars) -> Result<Bytes, ExprError>
    ensures { GivesFaultFirst expr_fault
        (λ made. made.bytes) result (value_of (seen_terms terms.now) vars.now.table) }
{
    let len = sum_length(terms, vars)?;
    let mut made = Bytes::new(alloc);
    if made.reserve(len).is_err() {
        return Err(ExprError::NoMemory);
    }
    append_terms(terms, vars, &mut made)?;
    Ok(made)
}

// The length of the sum of terms, or the first fault from the left.
fn sum_length(terms: &[ExprTerm], vars: &Vars) -> Result<usize, ExprFault>
    ensures { result ≡ sum_length vars.now.table 0 (seen_terms terms.now) }
{
    let mut sum = 0;
    for term in terms {
        let len = term_length(term, vars)?;
        if len > LONGEST_VALUE - sum {
            return Err(ExprFault::Long);
        }
        sum += len;
    }
    Ok(sum)
}

fn term_length(term: &ExprTerm, vars: &Vars) -> Result<usize, ExprFault>
    ensures { result ≡ length_of (term_value vars.now.table (seen_term term.now)) }
{
    let source = source_of(&term.atom, vars)?;
    let window = window_of(source_len(&source), term.suffixes.as_slice())?;
    Ok(window.len)
}

fn source_of<'a>(atom: &'a ExprAtom, vars: &'a Vars) -> Result<Source<'a>, ExprFault>
    ensures { MatchResult result
        (λ source. atom_value vars.now.table (seen_atom atom.now) ≡ Ok (source_bytes source))
        (λ fault. atom_value vars.now.table (seen_atom atom.now) ≡ Err fault) }
{
    match atom {
        ExprAtom::Literal(bytes) => Ok(Source::Given(bytes.as_slice())),
        ExprAtom::Repeated { byte, count } => Ok(Source::Repeated {
            byte: *byte,
            count: *count,
        }),
        ExprAtom::Named(name) => match vars.get(name.as_slice()) {
            Some(bytes) => Ok(Source::Given(bytes)),
            None => Err(ExprFault::Name),
        },
    }
}

fn source_len(source: &Source<'_>) -> usize
    ensures { result ≡ length (source_bytes source.now) }
{
    match source {
        Source::Given(bytes) => bytes.len(),
        Source::Repeated { byte: _, count } => *count as usize,
    }
}

// What suffixes leave of a value of this length.
fn window_of(len: usize, suffixes: &[ExprSuffix]) -> Result<Window, ExprFault>
    ensures value { result ≡ window_after_all (seen_suffixes suffixes.now) (whole_window len) }
    ensures within { IfOk result (λ window. window.from + window.len ≤ len) }
{
    let mut window = Window { from: 0, len };
    for suffix in suffixes {
        window = window_after(window, suffix)?;
    }
    Ok(window)
}

fn window_after(window: Window, suffix: &ExprSuffix) -> Result<Window, ExprFault>
    requires { window.from + window.len < 2 ^ 64 }
    ensures value { result ≡ window_after (seen_suffix suffix.now) window }
    ensures within { IfOk result (λ left. left.from + left.len ≤ window.from + window.len) }
{
    match *suffix {
        ExprSuffix::Cut { from, to } => {
            let (from, to) = (from as usize, to as usize);
            if from > to || to > window.len {
                return Err(ExprFault::Range);
            }
            Ok(Window {
                from: window.from + from,
                len: to - from,
            })
        }
        ExprSuffix::Flip { at } => {
            if at as usize >= window.len {
                return Err(ExprFault::Range);
            }
            Ok(window)
        }
    }
}

// Appends the values of terms, however long.
fn append_terms(terms: &[ExprTerm], vars: &Vars, made: &mut Bytes) -> Result<(), ExprError>
    ensures { Appends result (values_of vars.now.table (seen_terms terms.now))
        made.old.bytes made.new.bytes }
{
    for term in terms {
        append_term(term, vars, made)?;
    }
    Ok(())
}

fn append_term(term: &ExprTerm, vars: &Vars, made: &mut Bytes) -> Result<(), ExprError>
    ensures { Appends result (term_value vars.now.table (seen_term term.now))
        made.old.bytes made.new.bytes }
{
    let source = source_of(&term.atom, vars)?;
    let suffixes = term.suffixes.as_slice();
    let window = window_of(source_len(&source), suffixes)?;
    if append_window(&source, suffixes, window, made).is_err() {
        return Err(ExprError::NoMemory);
    }
    Ok(())
}

// Appends the bytes of a window as the suffixes leave them, a piece at a time.
fn append_window(
    source: &Source<'_>,
    suffixes: &[ExprSuffix],
    window: Window,
    made: &mut Bytes,
) -> Result<(), NoMemory>
    requires window { window.from + window.len ≤ length (source_bytes source.now) }
    requires fits { window.from + window.len < 2 ^ 64 }
    requires suffixes { IsWithin (seen_suffixes suffixes.now) 0 (2 ^ 64 - 1) }
    ensures { OnOk result (made.new.bytes ≡ made.old.bytes
        ++ changes_by (seen_suffixes suffixes.now) 0 window.from
        (take window.len (drop window.from (source_bytes source.now)))) }
{
    let mut done = 0;
    while done < window.len {
        let count = PIECE.min(window.len - done);
        append_piece(source, suffixes, window.from + done, count, made)?;
        done += count;
    }
    Ok(())
}

// Appends so many bytes that begin at a position of the source.
fn append_piece(
    source: &Source<'_>,
    suffixes: &[ExprSuffix],
    start: usize,
    count: usize,
    made: &mut Bytes,
) -> Result<(), NoMemory>
    requires small { count ≤ 256 }
    requires piece { start + count ≤ length (source_bytes source.now) }
    requires suffixes { IsWithin (seen_suffixes suffixes.now) 0 (2 ^ 64 - 1) }
    ensures { OnOk result (made.new.bytes ≡ made.old.bytes
        ++ changes_by (seen_suffixes suffixes.now) 0 start
        (take count (drop start (source_bytes source.now)))) }
{
    let mut piece = [0; PIECE];
    fill(source, suffixes, start, &mut piece[..count]);
    made.push_all(&piece[..count])
}

// Writes the bytes that begin at a position of the source, as the suffixes leave them.
fn fill(source: &Source<'_>, suffixes: &[ExprSuffix], start: usize, piece: &mut [u8])
    requires piece { start + length piece.old ≤ length (source_bytes source.now) }
    requires suffixes { IsWithin (seen_suffixes suffixes.now) 0 (2 ^ 64 - 1) }
    ensures { piece.new
        ≡ changes_by (seen_suffixes suffixes.now) 0 start
        (take (length piece.old) (drop start (source_bytes source.now))) }
{
    copy(source, start, piece);
    change(suffixes, start, piece);
}

fn copy(source: &Source<'_>, start: usize, piece: &mut [u8])
    requires { start + length piece.old ≤ length (source_bytes source.now) }
    ensures { piece.new ≡ take (length piece.old) (drop start (source_bytes source.now)) }
{
    match source {
        Source::Given(bytes) => piece.copy_from_slice(&bytes[start..start + piece.len()]),
        Source::Repeated { byte, count: _ } => piece.fill(*byte),
    }
}

// Flips what the suffixes flip in a piece of an atom's value.
fn change(suffixes: &[ExprSuffix], start: usize, piece: &mut [u8])
    requires { IsWithin (seen_suffixes suffixes.now) 0 (2 ^ 64 - 1) }
    ensures { piece.new ≡ changes_by (seen_suffixes suffixes.now) 0 start piece.old }
{
    let mut base = 0;
    for suffix in suffixes {
        match *suffix {
            ExprSuffix::Cut { from, to: _ } => base += from as usize,
            ExprSuffix::Flip { at } => flip(base + at as usize, start, piece),
        }
    }
}

// Flips the byte at a position, where the piece, which begins at one too, has it.
fn flip(position: usize, start: usize, piece: &mut [u8])
    ensures { piece.new ≡ flip_at position start piece.old }
{
    if position >= start && position - start < piece.len() {
        piece[position - start] ^= 1;
    }
}
