//! The pool: it takes spans and gives them back.
ghost use Rattle.std.specs.Prelude.{◌≡◌, ◌≢◌, ℕ, ◌<◌, ◌≤◌, ◌+◌, ◌-◌, ◌∷◌, ◌^◌, ◌↔◌, ◌⊎◌, List};
ghost use Rattle.std.specs.Prelude.{length, vec_len, replicate, IsTrue, IsErr, IfOk, IfSome};
ghost use Rattle.std.specs.Prelude.{IfNone, OnOk, OnErr};
ghost use Rattle.region_pool.specs.Marks.{IsTaken, taken_count};
ghost use Rattle.region_pool.specs.Places.{IsLowestPlace, HasNoPlace};
ghost use Rattle.region_pool.specs.Spans.{Span, Holds, IsSpanAt, LiesInOneSpan, first_mark};
ghost use Rattle.region_pool.specs.Spans.{IsDisjoint, with_marks, with_span, without_span};

use crate::extent::{end_of_span, first_of_span};
use crate::mark::{Mark, is_free};
use crate::place::lowest_place;
use crate::ticket::{Purpose, Ticket};
use std::alloc::{AllocError, Global};
use std::marker::Model;

/// There was no memory for the marks.
#[derive(Clone, Copy)]
pub struct NoMemory;

/// No multiple of the alignment begins that many free frames.
#[derive(Clone, Copy)]
pub struct NoRoom;

/// A pool of frames, numbered from 0. Contracts see the list of their marks.
#[derive(Drop)]
pub struct Pool {
    marks: Vec<Mark>,
}

impl Model for Pool {
    ghost use Rattle.std.specs.Prelude.{List};
    ghost use Rattle.region_pool.specs.declared.mark.Mark.{Mark};
    ghost use Rattle.region_pool.specs.Marks.{IsPool};

    ghost Value = { List Mark };

    ghost view = { λ p. p.marks.items };

    ghost invariant = { λ p. IsPool p.marks.items };
}

/// Marks the frames of one span, the first of them by the span's purpose.
fn mark_frames(span: &mut [Mark], purpose: Purpose)
    requires { 1 ≤ length span.old }
    ensures { span.new ≡ first_mark purpose ∷ replicate (length span.old - 1) Mark.Next }
{
    span.fill(Mark::Next);
    span[0] = match purpose {
        Purpose::Host => Mark::Host,
        Purpose::Launch => Mark::Launch,
    };
}

/// Marks the frames of a span as taken.
fn mark_span(marks: &mut Vec<Mark>, first: usize, frames: usize, purpose: Purpose)
    requires some { 1 ≤ frames }
    requires within { first + frames ≤ vec_len marks.old }
    ensures { marks.new.items
        ≡ with_marks marks.old.items first frames
        (first_mark purpose ∷ replicate (frames - 1) Mark.Next) }
{
    mark_frames(&mut marks[first..first + frames], purpose);
}

/// Marks the frames of a span as free.
fn free_span(marks: &mut Vec<Mark>, first: usize, frames: usize)
    requires { first + frames ≤ vec_len marks.old }
    ensures { marks.new.items
        ≡ with_marks marks.old.items first frames (replicate frames Mark.Free) }
{
    marks[first..first + frames].fill(Mark::Free);
}

impl Pool {
    /// A pool of so many frames, all free.
    pub fn new(alloc: Global, frames: u32) -> Result<Pool, NoMemory>
        ensures { IfOk result (λ pool. pool ≡ replicate frames Mark.Free) }
    {
        match vec![in alloc; Mark::Free; frames as usize] {
            Ok(marks) => Ok(Pool { marks }),
            Err(AllocError) => Err(NoMemory),
        }
    }

    /// Where a span of `frames` frames would be taken: the least multiple of `align` that begins
    /// that many free frames, if there is one.
    pub fn place(&self, frames: u32, align: u32) -> Option<u32>
        requires some { 1 ≤ frames }
        requires aligned { 1 ≤ align }

        ensures found { IfSome result (IsLowestPlace self.now frames align) }
        ensures none { IfNone result (HasNoPlace self.now frames align) }
    {
        match lowest_place(&self.marks, frames as usize, align as usize) {
            Some(first) => Some(first as u32),
            None => None,
        }
    }

    /// Takes a span of `frames` frames at the lowest place, the least multiple of `align` that
    /// begins that many free frames. The spans that were held stay held.
    ///
    /// # Errors
    ///
    /// `NoRoom` where there is no such place. The pool is then as before.
    pub fn take(&mut self, frames: u32, align: u32, purpose: Purpose) -> Result<Ticket, NoRoom>
        requires some { 1 ≤ frames }
        requires aligned { 1 ≤ align }

        ensures no_room { IsErr result ↔ HasNoPlace self.old frames align }
        ensures unchanged { OnErr result (self.new ≡ self.old) }

        ensures lowest { IfOk result (λ ticket. IsLowestPlace self.old frames align ticket.first) }
        ensures frames { IfOk result (λ ticket. ticket.frames ≡ frames) }
        ensures purpose { IfOk result (λ ticket. ticket.purpose ≡ purpose) }
        ensures marked { IfOk result (λ ticket. self.new ≡ with_span self.old ticket) }
        ensures size { length self.new ≡ length self.old }

        ensures held { IfOk result (Holds self.new) }
        ensures others_held { OnOk result (
            (other : Span) → Holds self.old other → Holds self.new other) }
        ensures apart { IfOk result (λ ticket.
            (other : Span) → Holds self.old other → IsDisjoint ticket other) }
    {
        let first = lowest_place(&self.marks, frames as usize, align as usize).ok_or(NoRoom)?;
        mark_span(&mut self.marks, first, frames as usize, purpose);
        Ok(Ticket {
            first: first as u32,
            frames,
            purpose,
        })
    }

    /// Gives a span back: its frames become free. Every other span stays held.
    pub fn give(&mut self, ticket: Ticket)
        requires { Holds self.old ticket }
        ensures freed { self.new ≡ without_span self.old ticket }
        ensures size { length self.new ≡ length self.old }
        ensures others_held { (other : Span) → Holds self.old other → other ≢ ticket
            → Holds self.new other }
    {
        let Ticket {
            first,
            frames,
            purpose: _,
        } = ticket;
        free_span(&mut self.marks, first as usize, frames as usize);
    }

    /// How many frames are not free.
    pub fn taken(&self) -> u32
        ensures { result ≡ taken_count self.now }
    {
        self.marks.iter().filter(|mark| !is_free(**mark)).count() as u32
    }

    /// Whether the frame is taken. One past the end is not.
    pub fn is_taken(&self, frame: u32) -> bool
        ensures { IsTrue result ↔ IsTaken self.now frame }
    {
        match self.marks.get(frame as usize) {
            Some(mark) => !is_free(*mark),
            None => false,
        }
    }

    /// The first frame and the number of frames of the span that the frame lies in, if it is taken.
    pub fn span_at(&self, frame: u32) -> Option<(u32, u32)>
        ensures found { IfSome result (λ found. IsSpanAt self.now frame found.0 found.1) }
        ensures none { IfNone result (¬ IsTaken self.now frame) }
    {
        if !self.is_taken(frame) {
            return None;
        }
        let first = first_of_span(&self.marks, frame as usize);
        let end = end_of_span(&self.marks, frame as usize);
        Some((first as u32, (end - first) as u32))
    }
}

/// The law of held spans: two spans that one pool holds are the same, or have no frame in common.
pub fn held_spans_law(pool: &Pool, one: &Ticket, other: &Ticket)
    requires one { Holds pool.now one.now }
    requires other { Holds pool.now other.now }
    ensures { (one.now ≡ other.now) ⊎ IsDisjoint one.now other.now }
{}

/// The law of taken frames: each lies in one span that the pool holds, and in no other.
pub fn frame_span_law(pool: &Pool, frame: u32)
    requires { IsTaken pool.now frame }
    ensures { LiesInOneSpan pool.now frame }
{
    let _ = pool.span_at(frame);
}
