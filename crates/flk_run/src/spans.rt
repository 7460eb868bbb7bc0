// The spans of memory that the host holds.
ghost use Rattle.std.specs.Prelude.{◌≡◌, ◌+◌, ◌≤◌, ◌<◌, ◌==◌, ◌∷◌, [], ◌++◌, vec_len, vec_capacity, position, OnOk};
ghost use Rattle.machine_memory.specs.Contents.{first_byte};

use crate::board::give;
use flk_base::NoMemory;
use late_launch::Board;
use region_pool::Ticket;
use std::alloc::Global;
use std::marker::Model;

/// The tickets of the spans that the host holds. They must be spent. Contracts see the spans.
pub struct Spans {
    pub(crate) tickets: Vec<Ticket>,
}

impl Model for Spans {
    ghost use Rattle.std.specs.Prelude.{List};
    ghost use Rattle.region_pool.specs.Spans.{Span};

    ghost Value = { List Span };

    ghost view = { λ s. s.tickets.items };
}

impl Spans {
    ghost use Rattle.flk_run.specs.Parts.{HoldsSpans, KeepsDevice};
    ghost use Rattle.flk_run.specs.Taking.{after_give_all};

    /// No spans, which allocate nothing.
    pub fn none(alloc: Global) -> Spans
        ensures { result ≡ [] }
    {
        Spans {
            tickets: Vec::new(alloc),
        }
    }

    /// Gives each span back, the last of them first: its bytes become zero.
    pub fn give_all(self, board: &mut Board)
        requires { HoldsSpans board.old.memory.marks self }
        ensures given { board.new.memory ≡ after_give_all board.old.memory self }
        ensures device { KeepsDevice board.old board.new }
    {
        let Spans { mut tickets } = self;
        while let Some(ticket) = tickets.pop() {
            give(board, ticket);
        }
        tickets.destroy_empty();
    }
}

/// Makes room for one more ticket.
pub(crate) fn room_for_ticket(tickets: &mut Vec<Ticket>) -> Result<(), NoMemory>
    ensures kept { tickets.new.items ≡ tickets.old.items }
    ensures room { OnOk result (vec_len tickets.new + 1 ≤ vec_capacity tickets.new) }
{
    match tickets.reserve(1) {
        Ok(()) => Ok(()),
        Err(_) => Err(NoMemory),
    }
}

/// Keeps a ticket, for which there is room.
pub(crate) fn keep(tickets: &mut Vec<Ticket>, ticket: Ticket)
    requires { vec_len tickets.old + 1 ≤ vec_capacity tickets.old }
    ensures { tickets.new.items ≡ tickets.old.items ++ ticket ∷ [] }
{
    match tickets.push(ticket) {
        Ok(()) => {}
        Err(_failed) => unreachable!(),
    }
}

/// Where the ticket is for the span that starts at an address.
pub(crate) fn ticket_at(tickets: &[Ticket], at: u32) -> Option<usize>
    ensures { result ≡ position (λ span. first_byte span.first == at) tickets.now }
{
    tickets
        .iter()
        .position(|ticket| 4096 * u64::from(ticket.first()) == u64::from(at))
}
