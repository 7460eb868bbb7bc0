// The monotonic counters.
ghost use Rattle.std.specs.Prelude.{◌≡◌, ◌<◌, IfSome, bytes_eq};
ghost use Rattle.tpm_state.specs.Counters.{counter_count, no_counters, counter_at, lowest_unused};
ghost use Rattle.tpm_state.specs.Counters.{with_counter, create, read, increment};
ghost use Rattle.tpm_state.specs.CounterFaults.{answer, create_fault, read_fault, increment_fault};

use std::marker::Model;

/// Why a counter was not created, read or incremented, with the number of the fault.
#[derive(Clone, Copy, Debug, PartialEq, Eq)]
pub enum CounterFault {
    /// All counters are in use.
    Full = 1,
    /// The value stands at 2^32 - 1: that of the counter, or for a creation the largest so far.
    End = 2,
    /// The counter is not in use.
    NoCounter = 3,
    /// The counter has another owner.
    NotOwner = 4,
}

const COUNTERS: usize = 16;

/// A counter: who may increment it, and its value.
#[derive(Clone, Copy)]
struct Counter {
    owner: [u8; 20],
    value: u32,
}

impl Model for Counter {
    ghost use Rattle.std.specs.Prelude.{ℕ, List};
    ghost use Rattle.tpm_state.specs.Counters as specs;

    ghost Value = { specs.Counter (List ℕ) };

    ghost view = { λ c. record { owner = c.owner; value = c.value } };

    ghost inverse = { λ c. record { owner = c.owner; value = c.value } };
}

/// The 16 counters, each unused or with an owner, 20 bytes, and a value; and the largest value that
/// any has had so far. Contracts see them as they are.
#[derive(Drop)]
pub struct Counters {
    slots: [Option<Counter>; COUNTERS],
    largest: u32,
}

impl Model for Counters {
    ghost use Rattle.std.specs.Prelude.{◌≡◌, ℕ, List, length};
    ghost use Rattle.tpm_state.specs.Counters as specs;

    ghost Value = { specs.Counters (List ℕ) };

    ghost view = { λ c. record { slots = c.slots; largest = c.largest } };

    ghost invariant = { λ c. length c.slots ≡ specs.counter_count };
}

impl Counters {
    /// Counters of which none was ever in use.
    pub fn blank() -> Counters
        ensures { result ≡ no_counters }
    {
        Counters {
            slots: [None; COUNTERS],
            largest: 0,
        }
    }

    /// Creates a counter for `owner`: its id is the lowest unused one, and its value one above the
    /// largest that any has had so far. `Full` where all are in use, and then `End` where that
    /// largest value is 2^32 - 1; where it fails nothing changes.
    pub fn create(&mut self, owner: &[u8; 20]) -> Result<u8, CounterFault>
        ensures answer { result ≡ answer create_fault (create owner.now self.old).1 }
        ensures counters { self.new ≡ (create owner.now self.old).0 }
    {
        let Some(id) = self.lowest_unused() else {
            return Err(CounterFault::Full);
        };
        if self.largest == u32::MAX {
            return Err(CounterFault::End);
        }
        let value = self.largest + 1;
        self.put(
            id,
            Counter {
                owner: *owner,
                value,
            },
        );
        Ok(id as u8)
    }

    /// The value of counter `id`, for anyone. `NoCounter` where it is not in use.
    pub fn read(&self, id: u8) -> Result<u32, CounterFault>
        ensures { result ≡ answer read_fault (read id self.now) }
    {
        match self.counter_at(usize::from(id)) {
            Some(counter) => Ok(counter.value),
            None => Err(CounterFault::NoCounter),
        }
    }

    /// Increments counter `id` for its owner, and gives its new value. `NoCounter` where it is not
    /// in use, then `NotOwner` where `who` is not its owner, then `End` where its value is
    /// 2^32 - 1; where it fails nothing changes.
    pub fn increment(&mut self, id: u8, who: &[u8; 20]) -> Result<u32, CounterFault>
        ensures answer { result
            ≡ answer increment_fault (increment bytes_eq id who.now self.old).1 }
        ensures counters { self.new ≡ (increment bytes_eq id who.now self.old).0 }
    {
        let at = usize::from(id);
        let Some(counter) = self.counter_at(at) else {
            return Err(CounterFault::NoCounter);
        };
        if counter.owner != *who {
            return Err(CounterFault::NotOwner);
        }
        if counter.value == u32::MAX {
            return Err(CounterFault::End);
        }
        let value = counter.value + 1;
        self.put(
            at,
            Counter {
                owner: counter.owner,
                value,
            },
        );
        Ok(value)
    }

    // The lowest unused id.
    fn lowest_unused(&self) -> Option<usize>
        ensures lowest { result ≡ lowest_unused self.now }
        ensures within { IfSome result (λ id. id < counter_count) }
    {
        self.slots.iter().position(|slot| slot.is_none())
    }

    // The counter in use at an id.
    fn counter_at(&self, id: usize) -> Option<Counter>
        ensures counter { result ≡ counter_at self.now id }
        ensures within { IfSome result (λ _. id < counter_count) }
    {
        match self.slots.get(id) {
            Some(slot) => *slot,
            None => None,
        }
    }

    // Puts a counter at an id.
    fn put(&mut self, id: usize, counter: Counter)
        requires { id < counter_count }
        ensures { self.new ≡ with_counter self.old id counter }
    {
        self.slots[id] = Some(counter);
        self.largest = self.largest.max(counter.value);
    }
}
