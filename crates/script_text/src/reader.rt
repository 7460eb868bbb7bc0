// Gives the lines of a source one after another.
ghost use Rattle.std.specs.Prelude.{◌≡◌, ◌≢◌, ◌⊎◌, ◌+◌, ◌-◌, ◌<◌, ◌≤◌, ℕ, true, false, [], Option, length, take, drop, slice_range, slice_index, IfOk, OnOk, OnErr, MatchOption};
ghost use Rattle.std.specs.Io.KnownBytes.{IsAtEnd, ReadConsumes};
ghost use Rattle.flk_base.specs.Causes.{HasCause, Rose};
ghost use Rattle.flk_base.specs.Known.{KeepsWhereKnown};
ghost use Rattle.script_text.specs.Lines.{IsOneLine};
ghost use Rattle.script_text.specs.Reader.{Any, AnyOfHeld, IsAhead, Next, NextOfHeld, WantsMore};
ghost use Rattle.script_text.specs.Buffered.{Fills, IsLineEndAt, TakesPrefix, TakesRest};

use crate::line::LONGEST_LINE;
use flk_base::{Failed, NoMemory, Source};
use memchr::memchr;
use std::alloc::Global;
use std::marker::Model;

/// How a call of `next` ended.
#[derive(Clone, Copy)]
pub enum LineEnd {
    /// A line was given.
    Line,
    /// The source gave its end, and nothing is held.
    End,
    /// What is held begins with 16,385 bytes without an LF.
    Long,
    /// A read failed.
    Failed,
}

/// How a call of `any` ended.
#[derive(Clone, Copy)]
pub enum AnyEnd {
    /// A byte is held.
    Some,
    /// The source gave its end, and nothing is held.
    End,
    /// A read failed, and nothing is held.
    Failed,
}

// What is held begins with a whole line, with one that is too long, or with neither.
#[derive(Clone, Copy)]
enum Prefix {
    Line,
    Long,
    Open,
}

/// The most bytes of one read.
pub const READ_SIZE: usize = 65_536;

// Room for one read after a line that is not yet whole, with its LF.
const BUFFER_SIZE: usize = LONGEST_LINE + 1 + READ_SIZE;

/// Gives the lines of a source one after another, from one buffer of fixed size: 65,536 bytes for
/// one read, and 16,385 for a line with its LF. A line is what stands before an LF, or what stands
/// after the last one where the source ends. The reader reads only where no whole line is held, and
/// allocates only where it is made.
#[derive(Drop)]
pub struct LineReader {
    // BUFFER_SIZE bytes. The line given last stands from `line_start` to `line_end`, and after it,
    // from `start` to `end`, stands what is held, which has no LF before `seen`.
    buffer: Vec<u8>,
    line_start: usize,
    line_end: usize,
    start: usize,
    seen: usize,
    end: usize,
    ended: bool,
}

impl Model for LineReader {
    ghost use Rattle.std.specs.Prelude.{slice_range};
    ghost use Rattle.script_text.specs.Reader.{Held};
    ghost use Rattle.script_text.specs.Buffered.{IsBuffered};

    ghost Value = { Held };

    ghost view = { λ r. record {
      bytes = slice_range r.buffer.items r.start r.end;
      ended = r.ended;
      line = slice_range r.buffer.items r.line_start r.line_end;
    } };

    ghost invariant = { λ r.
        IsBuffered r.buffer.items r.line_start r.line_end r.start r.seen r.end };
}

impl LineReader {
    /// A reader that holds nothing. It allocates here, and never again.
    pub fn new(alloc: Global) -> Result<LineReader, NoMemory>
        ensures { IfOk result (λ reader. reader ≡ record { bytes = []; ended = false; line = [] }) }
    {
        let buffer = zeros(alloc, BUFFER_SIZE)?;
        Ok(LineReader {
            buffer,
            line_start: 0,
            line_end: 0,
            start: 0,
            seen: 0,
            end: 0,
            ended: false,
        })
    }

    /// Gives the next line, which `line` then lends, or says why there is none. What was taken is
    /// held until it is given, whatever the answer. A further call goes on: after `End` it answers
    /// `End` again, after `Long` it answers `Long` again, and after `Failed` it reads again.
    pub fn next<S: Source>(&mut self, source: &mut S) -> LineEnd
        // What was taken, what is given and what is held.
        ensures next { Next result self.old self.new (S.left source.old) (S.left source.new) }
        // A read is made only where no whole line is held. Where one is, it is the answer.
        ensures unread { (source.new ≡ source.old) ⊎ WantsMore self.old }
        ensures held { NextOfHeld result self.old self.new ⊎ WantsMore self.old }
        // How far it reads ahead: at most one read past the line, or past the 16,385th byte of a
        // long one.
        ensures ahead { IsAhead result self.new }
        // The end is the source's, where the source makes it known.
        ensures end { (self.old.ended ≡ true → IsAtEnd (S.left source.old))
            → self.new.ended ≡ true → IsAtEnd (S.left source.new) }
        ensures later { S.fault_count source.old ≤ S.fault_count source.new }
        ensures cause { result ≡ LineEnd.Failed
            → Rose (S.fault_count source.old) (S.fault_count source.new) }
        // Nothing but a fault counts.
        ensures stays { result ≢ LineEnd.Failed
            → S.fault_count source.new ≡ S.fault_count source.old }
    {
        self.forget_line();
        loop {
            match self.take_prefix() {
                Prefix::Line => return LineEnd::Line,
                Prefix::Long => return LineEnd::Long,
                Prefix::Open => {}
            }
            if self.ended {
                return self.take_rest();
            }
            if self.fill(source).is_err() {
                return LineEnd::Failed;
            }
        }
    }

    /// The line that the last call of `next` gave, without its LF. No bytes, where that call gave
    /// none, and after a call of `any`.
    pub fn line(&self) -> &[u8]
        ensures { result.now ≡ self.now.line }
    {
        &self.buffer[self.line_start..self.line_end]
    }

    /// Whether another byte is held or comes.
    pub fn any<S: Source>(&mut self, source: &mut S) -> AnyEnd
        // What was taken, and what is held.
        ensures any { Any result self.old self.new (S.left source.old) (S.left source.new) }
        // A read is made only where nothing is held. Where a byte is, it is the answer.
        ensures unread { (source.new ≡ source.old) ⊎ ((self.old.bytes ≡ [])
            × (self.old.ended ≡ false)) }
        ensures held { AnyOfHeld result self.old self.new ⊎ ((self.old.bytes ≡ [])
            × (self.old.ended ≡ false)) }
        // How far it reads ahead.
        ensures ahead { length self.new.bytes ≤ LONGEST_LINE + 1 + READ_SIZE }
        ensures few { length self.old.bytes ≤ READ_SIZE → length self.new.bytes ≤ READ_SIZE }
        // The end is the source's, where the source makes it known.
        ensures end { (self.old.ended ≡ true → IsAtEnd (S.left source.old))
            → self.new.ended ≡ true → IsAtEnd (S.left source.new) }
        ensures later { S.fault_count source.old ≤ S.fault_count source.new }
        ensures cause { result ≡ AnyEnd.Failed
            → Rose (S.fault_count source.old) (S.fault_count source.new) }
        // Nothing but a fault counts.
        ensures stays { result ≢ AnyEnd.Failed
            → S.fault_count source.new ≡ S.fault_count source.old }
    {
        self.forget_line();
        if self.start < self.end {
            return AnyEnd::Some;
        }
        if self.ended {
            return AnyEnd::End;
        }
        if self.fill(source).is_err() {
            return AnyEnd::Failed;
        }
        if self.ended {
            return AnyEnd::End;
        }
        AnyEnd::Some
    }

    // The line given last is lent no longer.
    fn forget_line(&mut self)
        ensures { self.new ≡ record self.old { line = [] } }
    {
        self.line_start = 0;
        self.line_end = 0;
    }

    // Takes the line that what is held begins with, where it is whole. Each byte is searched once:
    // what is held has no LF up to `seen`, and a search begins there.
    fn take_prefix(&mut self) -> Prefix
        ensures { TakesPrefix result self.old self.new }
    {
        let limit = self.end.min(self.start + (LONGEST_LINE + 1));
        let Some(position) = find_line_end(&self.buffer, self.seen, limit) else {
            self.seen = limit;
            if limit == self.start + (LONGEST_LINE + 1) {
                return Prefix::Long;
            }
            return Prefix::Open;
        };
        self.line_start = self.start;
        self.line_end = position;
        self.start = position + 1;
        self.seen = position + 1;
        Prefix::Line
    }

    // Takes all that is held as the last line, where there is any.
    fn take_rest(&mut self) -> LineEnd
        requires { length self.old.bytes ≤ LONGEST_LINE }
        ensures { TakesRest result self.old self.new }
    {
        if self.start == self.end {
            return LineEnd::End;
        }
        self.line_start = self.start;
        self.line_end = self.end;
        self.start = self.end;
        self.seen = self.end;
        LineEnd::Line
    }

    // Reads once, after what is held, all of which has been searched.
    fn fill<S: Source>(&mut self, source: &mut S) -> Result<(), Failed>
        requires { WantsMore self.old }
        ensures ok { OnOk result (Fills self.old self.new (S.left source.old) (S.left source.new)) }
        ensures err { OnErr result (self.new ≡ record self.old { line = [] }) }
        ensures kept { OnErr result (KeepsWhereKnown (S.left source.old) (S.left source.new)) }
        ensures cause { HasCause (S.fault_count source.old) (S.fault_count source.new) result }
    {
        self.line_start = 0;
        self.line_end = 0;
        let start = make_room(&mut self.buffer, self.start, self.end);
        self.end = start + (self.end - self.start);
        self.start = start;
        self.seen = self.end;
        let count = read_into(source, &mut self.buffer, self.end)?;
        self.end += count;
        self.ended = count == 0;
        Ok(())
    }
}

// So many bytes.
fn zeros(alloc: Global, count: usize) -> Result<Vec<u8>, NoMemory>
    ensures { IfOk result (λ bytes. length bytes.items ≡ count) }
{
    match vec![in alloc; 0; count] {
        Ok(bytes) => Ok(bytes),
        Err(_) => Err(NoMemory),
    }
}

// Where the first LF from `from` to `to` stands.
fn find_line_end(buffer: &[u8], from: usize, to: usize) -> Option<usize>
    requires order { from ≤ to }
    requires within { to ≤ length buffer.now }
    ensures { MatchOption result
        (IsOneLine (slice_range buffer.now from to))
        (λ position. IsLineEndAt buffer.now from to position) }
{
    match memchr(b'\n', &buffer[from..to]) {
        Some(position) => Some(from + position),
        None => None,
    }
}

// Makes room for a read after what is held, and answers where that begins now: where there is no
// room, it moves to the beginning.
//
// Each byte is moved at most once: what moves has no LF, so it is the prefix of a line that is not
// yet whole, and there is room for the rest of that line then. Nothing moves again before that line
// is given.
fn make_room(buffer: &mut [u8], start: usize, end: usize) -> usize
    requires order { start ≤ end }
    requires short { end - start ≤ LONGEST_LINE }
    requires within { end ≤ length buffer.old }
    requires size { length buffer.old ≡ LONGEST_LINE + 1 + READ_SIZE }
    ensures held { slice_range buffer.new result (result + (end - start))
        ≡ slice_range buffer.old start end }
    ensures room { result + (end - start) + READ_SIZE ≤ length buffer.new }
{
    if end <= LONGEST_LINE + 1 {
        return start;
    }
    buffer.copy_within(start..end, 0);
    0
}

// Reads once, into the room after the first `end` bytes.
fn read_into<S: Source>(source: &mut S, buffer: &mut [u8], end: usize) -> Result<usize, Failed>
    requires { end + READ_SIZE ≤ length buffer.old }
    ensures prefix { take end buffer.new ≡ take end buffer.old }
    ensures bound { IfOk result (λ count. count ≤ READ_SIZE) }
    ensures bytes { OnOk result (ReadConsumes (S.left source.old) (S.left source.new) result
        (drop end buffer.new)) }
    ensures kept { OnErr result (KeepsWhereKnown (S.left source.old) (S.left source.new)) }
    ensures cause { HasCause (S.fault_count source.old) (S.fault_count source.new) result }
{
    source.read(&mut buffer[end..end + READ_SIZE])
}
