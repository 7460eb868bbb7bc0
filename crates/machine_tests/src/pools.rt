// Spans of a pool's frames. The lowest places were computed by another program, which tries each
// frame in turn.
ghost use Rattle.region_pool.specs.Spans.{Span, Holds, IsDisjoint};

use region_pool::{Pool, Purpose, Ticket, held_spans_law, place_law};
use std::alloc::Global;

// How many frames a span has, of what its first frame is a multiple, and where it goes.
type PlaceRow = (u32, u32, Option<u32>);

// Whether a span goes where the row says: it is taken, and given back at once.
fn is_place(pool: &mut Pool, row: PlaceRow) -> bool
    ensures { (other : Span) → Holds pool.old other → Holds pool.new other }
{
    let (frames, align, place) = row;
    if frames == 0 || align == 0 {
        return false;
    }
    let Ok(ticket) = pool.take(frames, align, Purpose::Launch) else {
        return place.is_none();
    };
    let first = ticket.first();
    pool.give(ticket);
    place == Some(first)
}

// Gives two spans back.
#[tactic(auto, using(crate::proofs::Apart::differ_from_apart))]
fn give_both(pool: &mut Pool, one: Ticket, other: Ticket)
    requires one { Holds pool.old one }
    requires other { Holds pool.old other }
    requires apart { IsDisjoint one other }
{
    pool.give(one);
    pool.give(other);
}

// The same of a pool of 20 frames, of which 0 to 2 and 8 to 9 are taken.
fn is_place_of_20(alloc: Global, row: PlaceRow) -> bool {
    let Ok(mut pool) = Pool::new(alloc, 20) else {
        return false;
    };
    let Ok(low) = pool.take(3, 1, Purpose::Host) else {
        return false;
    };
    let Ok(high) = pool.take(2, 8, Purpose::Host) else {
        pool.give(low);
        return false;
    };
    let is_right = is_place(&mut pool, row) && pool.taken() == 5;
    let are_there = low.first() == 0 && high.first() == 8;
    give_both(&mut pool, high, low);
    is_right && are_there && pool.taken() == 0
}

#[test]
fn finds_the_lowest_place(rt: HostRuntime) {
    let rows = [
        (1, 1, Some(3)),
        (5, 1, Some(3)),
        (6, 1, Some(10)),
        (10, 1, Some(10)),
        (11, 1, None),
        (4, 4, Some(4)),
        (5, 4, Some(12)),
        (8, 4, Some(12)),
        (9, 4, None),
        (3, 8, Some(16)),
        (5, 8, None),
        (1, 16, Some(16)),
        (1, 32, None),
        (1, u32::MAX, None),
        (u32::MAX, 1, None),
    ];
    for (i, row) in rows.iter().enumerate() {
        assert!(rt; is_place_of_20(rt.alloc(), *row), "row {i}");
    }
    place_law();
}

// A frame, whether it is taken, and the first frame and the number of frames of its span.
type FrameRow = (u32, bool, Option<(u32, u32)>);

fn is_frame(pool: &Pool, row: FrameRow) -> bool {
    let (frame, is_taken, span) = row;
    pool.is_taken(frame) == is_taken && pool.span_at(frame) == span
}

// Whether a ticket stands for this span.
fn is_span(ticket: &Ticket, first: u32, frames: u32) -> bool {
    ticket.first() == first && ticket.frames() == frames
}

// Whether frame 0 is the host's span, and 2 and 3 are a launch's.
fn are_spans(host: &Ticket, launch: &Ticket) -> bool {
    let are_whose = matches!(host.purpose(), Purpose::Host)
        && matches!(launch.purpose(), Purpose::Launch);
    are_whose && is_span(host, 0, 1) && is_span(launch, 2, 2)
}

// Whether a frame is as the row says, of a pool of four of which 0 is taken for the host, and 2 and
// 3 for a launch.
fn is_frame_of_4(alloc: Global, row: FrameRow) -> bool {
    let Ok(mut pool) = Pool::new(alloc, 4) else {
        return false;
    };
    let Ok(host) = pool.take(1, 1, Purpose::Host) else {
        return false;
    };
    let Ok(launch) = pool.take(2, 2, Purpose::Launch) else {
        pool.give(host);
        return false;
    };
    held_spans_law(&pool, &host, &launch);
    let is_right = is_frame(&pool, row) && pool.taken() == 3 && are_spans(&host, &launch);
    give_both(&mut pool, launch, host);
    is_right && pool.taken() == 0
}

#[test]
fn counts_what_is_taken(rt: HostRuntime) {
    let rows = [
        (0, true, Some((0, 1))),
        (1, false, None),
        (2, true, Some((2, 2))),
        (3, true, Some((2, 2))),
        (4, false, None),
    ];
    for (i, row) in rows.iter().enumerate() {
        assert!(rt; is_frame_of_4(rt.alloc(), *row), "row {i}");
    }
}

// Whether a pool of no frames has no place for one.
fn has_no_frames(alloc: Global) -> bool {
    let Ok(mut pool) = Pool::new(alloc, 0) else {
        return false;
    };
    is_place(&mut pool, (1, 1, None)) && is_frame(&pool, (0, false, None)) && pool.taken() == 0
}

#[test]
fn no_frames_have_no_place(rt: HostRuntime) {
    assert!(rt; has_no_frames(rt.alloc()), "no frames");
}
