// The device.
ghost use Rattle.std.specs.Prelude.{◌≡◌, ◌<◌, ◌≤◌, ◌++◌, ◌+◌, length, Some, IfOk, OnOk, is_ok};
ghost use Rattle.std.specs.Option.{option_map};
ghost use Rattle.std.specs.Prelude.{if◌then◌else◌};
ghost use Rattle.tpm_state.specs.Refusals.Create as creates;
ghost use Rattle.tpm_state.specs.Refusals.ReadCounter as reads;
ghost use Rattle.tpm_state.specs.Refusals.Increment as increments;
ghost use Rattle.tpm_state.specs.CounterFaults as tpm;
ghost use Rattle.flk_base.specs.Plan.{ask};
ghost use Rattle.flk_base.specs.Stop.{Ends, or_lost, reported, reported_into, with_fuse};
ghost use Rattle.seal_device.specs.Blobs.{blob_size};
ghost use Rattle.seal_device.specs.Sealing.{present_chain, last_serial, seal, unseal, check_next};
ghost use Rattle.seal_device.specs.Commands.{Command, act, blank};
ghost use Rattle.seal_device.specs.Digests.{digests, on_device};
ghost use Rattle.seal_device.specs.Faults.{power_lost, register_fault, provision_answer};
ghost use Rattle.seal_device.specs.Faults.{seal_fault, unseal_fault, create_fault, read_fault};
ghost use Rattle.seal_device.specs.Faults.{increment_fault, quote_fault, random_fault};

use crate::bearings::{awaited, bearing_to_seal, is_standing};
use crate::blobs::{
    BLOB_ROOM, LONGEST_SEALED, borne_in, is_chain, is_tagged, unmask_into, write_blob,
};
use crate::faults::{
    CounterFault, Provisioned, QuoteFault, RandomFault, RegisterFault, SealFault, UnsealFault,
};
use crate::keys::Keys;
use flk_base::{Fuse, PowerLost};
use std::marker::Model;
use tpm_state::{Bank, Counters, NoRegister};

/// The device: its 24 registers, its counters, the keys once it has a seed, which is not kept, the
/// serial of the next record that it seals, and how many random words it gave. Contracts see the
/// device of the platform of digests. A call with a fuse takes its step first: where the power is
/// lost there, nothing else changes.
#[derive(Drop)]
pub struct Device {
    bank: Bank,
    counters: Counters,
    keys: Option<Keys>,
    serial: u64,
    drawn: u64,
}

impl Model for Device {
    ghost use Rattle.std.specs.Prelude.{◌≡◌, length};
    ghost use Rattle.tpm_state.specs.Chain.{register_count};
    ghost use Rattle.seal_device.specs.Digests.{DigestDevice};

    ghost Value = { DigestDevice };

    ghost view = { λ d. record {
      chains = d.bank;
      counters = d.counters;
      keys = d.keys;
      serial = d.serial;
      drawn = d.drawn;
      made = tt;
    } };

    ghost invariant = { λ d. length d.bank ≡ register_count };
}

impl Device {
    /// A device that was never used, as it is at power-on.
    pub fn blank() -> Device
        ensures { result ≡ blank digests }
    {
        Device {
            bank: Bank::power_on(),
            counters: Counters::blank(),
            keys: None,
            serial: 0,
            drawn: 0,
        }
    }

    /// The power comes back: each register starts anew, 17 to 22 at 20 bytes FF, the others at 20
    /// bytes 00. It takes no step.
    pub fn power_cycle(&mut self)
        ensures { self.new ≡ (act digests Command.PowerOn self.old).0 }
    {
        self.bank = Bank::power_on();
    }

    /// Measures an image for a late launch, in one step: register 17 is reset to 20 bytes 00 and
    /// extended by the image.
    #[tactic(auto, using(crate::proofs::Registers::extended_anew))]
    pub fn measure(&mut self, image: &[u8], fuse: &mut Fuse) -> Result<(), PowerLost>
        ensures { Ends (or_lost power_lost)
            (on_device (ask (Command.Measure image.now)) (with_fuse self.old fuse.old.left))
            (with_fuse self.new fuse.new.left) result }
    {
        fuse.step()?;
        self.bank.reset17();
        let extended = self.bank.extend(17, b"", image);
        prove!(extended.is_ok());
        Ok(())
    }

    /// Extends register `r` by the text that `prefix` and `text` are together. Where there is no
    /// such register, the step is taken all the same, and nothing else changes.
    pub fn extend(
        &mut self,
        r: u32,
        prefix: &[u8],
        text: &[u8],
        fuse: &mut Fuse,
    ) -> Result<(), RegisterFault>
        ensures { Ends (reported register_fault RegisterFault.PowerLost)
            (on_device (ask (Command.Extend r (prefix.now ++ text.now)))
            (with_fuse self.old fuse.old.left))
            (with_fuse self.new fuse.new.left) result }
    {
        if let Err(PowerLost) = fuse.step() {
            return Err(RegisterFault::PowerLost);
        }
        match self.bank.extend(r, prefix, text) {
            Ok(()) => Ok(()),
            Err(NoRegister) => Err(RegisterFault::NoRegister),
        }
    }

    /// The value of register `r`.
    pub fn read_register(&self, r: u32, fuse: &mut Fuse) -> Result<[u8; 20], RegisterFault>
        ensures { Ends (reported register_fault RegisterFault.PowerLost)
            (on_device (ask (Command.ReadRegister r)) (with_fuse self.now fuse.old.left))
            (with_fuse self.now fuse.new.left) result }
    {
        match fuse.step() {
            Err(PowerLost) => Err(RegisterFault::PowerLost),
            Ok(()) => match self.bank.read(r) {
                Ok(value) => Ok(value),
                Err(NoRegister) => Err(RegisterFault::NoRegister),
            },
        }
    }

    /// Takes a seed of any length: its keys are derived and kept, the seed is not. Where the device
    /// has one, it is refused, and nothing changes. It takes no step.
    pub fn provision(&mut self, seed: &[u8]) -> Result<(), Provisioned>
        ensures device { self.new ≡ (act digests (Command.Provision seed.now) self.old).0 }
        ensures answer { result
            ≡ provision_answer (act digests (Command.Provision seed.now) self.old).1 }
    {
        if self.keys.is_some() {
            return Err(Provisioned);
        }
        self.keys = Some(Keys::of_seed(seed));
        Ok(())
    }

    /// Seals bytes in register 17's present value: their blob stands in the first bytes of `out`,
    /// and its length is answered, 59 more than there are bytes. Each blob has the next serial.
    /// Where a counter is asked for, the blob bears its present value, or `ahead` the next one.
    /// A refusal leaves all but the fuse as it was, and so does lost power.
    pub fn seal(
        &mut self,
        bytes: &[u8],
        counter: Option<u8>,
        ahead: bool,
        out: &mut [u8; BLOB_ROOM],
        fuse: &mut Fuse,
    ) -> Result<usize, SealFault>
        ensures sealed { Ends (reported_into out.old seal_fault SealFault.PowerLost)
            (on_device (ask (Command.Seal bytes.now counter ahead))
            (with_fuse self.old fuse.old.left))
            (with_fuse self.new fuse.new.left) (result, out.new) }
        ensures size { IfOk result (λ size. size ≡ blob_size (length bytes.now)) }
    {
        if fuse.step().is_err() {
            return Err(SealFault::PowerLost);
        }
        let sealed = match &self.keys {
            None => Err(SealFault::Unprovisioned),
            Some(keys) => self.seal_under(keys, bytes, counter, ahead, out),
        };
        if sealed.is_ok() {
            self.serial += 1;
        }
        sealed
    }

    /// Unseals a blob that was sealed under this seed in register 17's present value, where the
    /// counter that it bears, if it bears one, has its value: the bytes that were sealed stand in
    /// the first bytes of `out`, and how many they are is answered. A refusal leaves all but the
    /// fuse as it was, and so does lost power.
    pub fn unseal(
        &self,
        blob: &[u8],
        out: &mut [u8; LONGEST_SEALED],
        fuse: &mut Fuse,
    ) -> Result<usize, UnsealFault>
        ensures unsealed { Ends (reported_into out.old unseal_fault UnsealFault.PowerLost)
            (on_device (ask (Command.Unseal blob.now)) (with_fuse self.now fuse.old.left))
            (with_fuse self.now fuse.new.left) (result, out.new) }
        ensures size { IfOk result (λ size. size ≤ LONGEST_SEALED) }
    {
        if fuse.step().is_err() {
            return Err(UnsealFault::PowerLost);
        }
        match &self.keys {
            None => Err(UnsealFault::Unprovisioned),
            Some(keys) => self.open_under(keys, blob, out),
        }
    }

    /// Tries a blob for the next value of the counter that it bears, in register 17's present
    /// value, and gives the counter's number: as an unseal, but the blob has to bear a counter, and
    /// its value has to be one above the counter's. It shows nothing and changes nothing but the
    /// fuse.
    pub fn check_next(&self, blob: &[u8], fuse: &mut Fuse) -> Result<u8, UnsealFault>
        ensures { Ends (reported unseal_fault UnsealFault.PowerLost)
            (on_device (ask (Command.CheckNext blob.now)) (with_fuse self.now fuse.old.left))
            (with_fuse self.now fuse.new.left) result }
    {
        if fuse.step().is_err() {
            return Err(UnsealFault::PowerLost);
        }
        match &self.keys {
            None => Err(UnsealFault::Unprovisioned),
            Some(keys) => self.next_under(keys, blob),
        }
    }

    /// Creates a counter that register 17's present value owns, and gives its number, the lowest
    /// unused one: it starts one above the largest value that any counter has had so far. A refusal
    /// leaves all but the fuse as it was, and so does lost power.
    pub fn new_counter(&mut self, fuse: &mut Fuse) -> Result<u8, CounterFault>
        ensures { Ends (reported create_fault CounterFault.PowerLost)
            (on_device (ask Command.NewCounter) (with_fuse self.old fuse.old.left))
            (with_fuse self.new fuse.new.left) result }
    {
        if fuse.step().is_err() {
            return Err(CounterFault::PowerLost);
        }
        let present = self.present_value();
        let created = self.counters.create(&present);
        match created {
            Ok(id) => return Ok(id),
            Err(fault) => return Err(counter_fault(fault)),
        }
    }

    /// The value of counter `id`, for anyone.
    pub fn read_counter(&self, id: u8, fuse: &mut Fuse) -> Result<u32, CounterFault>
        ensures { Ends (reported read_fault CounterFault.PowerLost)
            (on_device (ask (Command.ReadCounter id)) (with_fuse self.now fuse.old.left))
            (with_fuse self.now fuse.new.left) result }
    {
        if fuse.step().is_err() {
            return Err(CounterFault::PowerLost);
        }
        match self.counters.read(id) {
            Ok(value) => Ok(value),
            Err(fault) => Err(counter_fault(fault)),
        }
    }

    /// Increments counter `id`, where register 17 has the value that owns it, and gives its new
    /// value. A refusal leaves all but the fuse as it was, and so does lost power.
    pub fn increment(&mut self, id: u8, fuse: &mut Fuse) -> Result<u32, CounterFault>
        ensures { Ends (reported increment_fault CounterFault.PowerLost)
            (on_device (ask (Command.Increment id)) (with_fuse self.old fuse.old.left))
            (with_fuse self.new fuse.new.left) result }
    {
        if fuse.step().is_err() {
            return Err(CounterFault::PowerLost);
        }
        let present = self.present_value();
        let incremented = self.counters.increment(id, &present);
        match incremented {
            Ok(value) => return Ok(value),
            Err(fault) => return Err(counter_fault(fault)),
        }
    }

    /// The next random word, 20 bytes: each is the HMAC of its number, counted from 0. A refusal
    /// leaves all but the fuse as it was, and so does lost power.
    pub fn random(&mut self, fuse: &mut Fuse) -> Result<[u8; 20], RandomFault>
        ensures { Ends (reported random_fault RandomFault.PowerLost)
            (on_device (ask Command.Random) (with_fuse self.old fuse.old.left))
            (with_fuse self.new fuse.new.left) result }
    {
        if fuse.step().is_err() {
            return Err(RandomFault::PowerLost);
        }
        let Some(keys) = &self.keys else {
            return Err(RandomFault::Unprovisioned);
        };
        if self.drawn == u64::MAX {
            return Err(RandomFault::RandomEnd);
        }
        let word = keys.word(self.drawn);
        self.drawn += 1;
        Ok(word)
    }

    /// The quote of register 17's present value for a nonce, 40 bytes: the value, and its tag under
    /// the key for quotes. It changes nothing but the fuse.
    pub fn quote(&self, nonce: &[u8; 20], fuse: &mut Fuse) -> Result<[u8; 40], QuoteFault>
        ensures { Ends (reported quote_fault QuoteFault.PowerLost)
            (on_device (ask (Command.Quote nonce.now)) (with_fuse self.now fuse.old.left))
            (with_fuse self.now fuse.new.left) result }
    {
        if fuse.step().is_err() {
            return Err(QuoteFault::PowerLost);
        }
        match &self.keys {
            None => Err(QuoteFault::Unprovisioned),
            Some(keys) => Ok(keys.quote(nonce, &self.present_value())),
        }
    }

    /// The key for quotes, which whoever checks them needs; None exactly where the device has no
    /// seed. It takes no step.
    pub fn quote_key(&self) -> Option<[u8; 20]>
        ensures { result ≡ option_map (λ keys. keys.quoting) self.now.keys }
    {
        match &self.keys {
            None => None,
            Some(keys) => Some(keys.quoting),
        }
    }

    /// Register 17's value.
    fn present_value(&self) -> [u8; 20]
        ensures value { result ≡ present_chain digests self.now }
        ensures size { length result ≡ 20 }
    {
        let shown = self.bank.read(17);
        match shown {
            Ok(value) => value,
            Err(NoRegister) => unreachable!(),
        }
    }

    /// What bytes are sealed to under these keys.
    fn seal_under(
        &self,
        keys: &Keys,
        bytes: &[u8],
        counter: Option<u8>,
        ahead: bool,
        out: &mut [u8; BLOB_ROOM],
    ) -> Result<usize, SealFault>
        ensures sealed { (result, out.new) ≡ reported_into out.old seal_fault SealFault.PowerLost
            (Some (seal digests bytes.now counter ahead self.now keys.now).1) }
        ensures device { (seal digests bytes.now counter ahead self.now keys.now).0 ≡ (if is_ok result
            then record self.now { serial = self.now.serial + 1 }
            else self.now) }
        ensures next { OnOk result (self.now.serial < last_serial) }
        ensures size { IfOk result (λ size. size ≡ blob_size (length bytes.now)) }
    {
        let borne = match bearing_to_seal(self.serial, &self.counters, bytes, counter, ahead) {
            Err(fault) => return Err(fault),
            Ok(borne) => borne,
        };
        let present = self.present_value();
        Ok(write_blob(keys, self.serial, &present, borne, bytes, out))
    }

    /// What a blob opens to under these keys.
    fn open_under(
        &self,
        keys: &Keys,
        blob: &[u8],
        out: &mut [u8; LONGEST_SEALED],
    ) -> Result<usize, UnsealFault>
        ensures opened { (result, out.new)
            ≡ reported_into out.old unseal_fault UnsealFault.PowerLost
            (Some (unseal digests blob.now self.now keys.now).1) }
        ensures size { IfOk result (λ size. size ≤ LONGEST_SEALED) }
    {
        if !is_tagged(keys, blob) {
            return Err(UnsealFault::NotBlob);
        }
        if !is_chain(blob, &self.present_value()) {
            return Err(UnsealFault::WrongChain);
        }
        if !is_standing(&self.counters, borne_in(blob)) {
            return Err(UnsealFault::WrongCounter);
        }
        Ok(unmask_into(keys, blob, out))
    }

    /// The number of the counter of which a blob under these keys has the next value.
    fn next_under(&self, keys: &Keys, blob: &[u8]) -> Result<u8, UnsealFault>
        ensures { result ≡ reported unseal_fault UnsealFault.PowerLost
            (Some (check_next digests blob.now self.now keys.now).1) }
    {
        if !is_tagged(keys, blob) {
            return Err(UnsealFault::NotBlob);
        }
        if !is_chain(blob, &self.present_value()) {
            return Err(UnsealFault::WrongChain);
        }
        match awaited(&self.counters, borne_in(blob)) {
            None => Err(UnsealFault::WrongCounter),
            Some(id) => Ok(id),
        }
    }
}

/// The device's error for one of the counters.
fn counter_fault(fault: tpm_state::CounterFault) -> CounterFault
    ensures create { (refusal : creates.Refusal) → fault ≡ tpm.create_fault refusal
        → result ≡ create_fault refusal }
    ensures read { (refusal : reads.Refusal) → fault ≡ tpm.read_fault refusal
        → result ≡ read_fault refusal }
    ensures increment { (refusal : increments.Refusal) → fault ≡ tpm.increment_fault refusal
        → result ≡ increment_fault refusal }
{
    match fault {
        tpm_state::CounterFault::Full => CounterFault::Full,
        tpm_state::CounterFault::End => CounterFault::End,
        tpm_state::CounterFault::NoCounter => CounterFault::NoCounter,
        tpm_state::CounterFault::NotOwner => CounterFault::NotOwner,
    }
}
