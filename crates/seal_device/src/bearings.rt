// The counter that a record bears: with which value it is sealed, and when the counter has come to
// that value.
ghost use Rattle.std.specs.Prelude.{◌≡◌, ◌≤◌, ◌<◌, length, Some, OnOk};
ghost use Rattle.std.specs.Option.{option_map};
ghost use Rattle.tpm_state.specs.Counters.{counter_at};
ghost use Rattle.flk_base.specs.Stop.{reported};
ghost use Rattle.seal_device.specs.Bearings.{bearing, counter_stands, awaited};
ghost use Rattle.seal_device.specs.Sealing.{seal_bearing, last_serial};
ghost use Rattle.seal_device.specs.Faults.{seal_fault};

use crate::blobs::LONGEST_SEALED;
use crate::faults::SealFault;
use std::marker::Model;
use tpm_state::Counters;

// A counter that a record bears, by its number, and the value.
#[derive(Clone, Copy)]
pub(crate) struct Borne {
    pub(crate) id: u8,
    pub(crate) value: u32,
}

impl Model for Borne {
    ghost use Rattle.seal_device.specs.Sealed.{Bearing};

    ghost Value = { Bearing };

    ghost view = { λ b. record { id = b.id; value = b.value } };

    ghost inverse = { λ b. record { id = b.id; value = b.value } };
}

// The value of a counter, if it is in use.
fn value_at(counters: &Counters, id: u8) -> Option<u32>
    ensures { result ≡ option_map (λ counter. counter.value) (counter_at counters.now id) }
{
    match counters.read(id) {
        Ok(value) => Some(value),
        Err(_) => None,
    }
}

// Whether the counter that is borne, if one is, has its value.
pub(crate) fn is_standing(counters: &Counters, borne: Option<Borne>) -> bool
    ensures { result ≡ counter_stands counters.now borne }
{
    match borne {
        None => true,
        Some(borne) => value_at(counters, borne.id) == Some(borne.value),
    }
}

// The number of the counter of which the value that is borne is the next, if there is such a one.
pub(crate) fn awaited(counters: &Counters, borne: Option<Borne>) -> Option<u8>
    ensures { result ≡ awaited counters.now borne }
{
    let borne = borne?;
    let value = value_at(counters, borne.id)?;
    if value < u32::MAX && value + 1 == borne.value {
        Some(borne.id)
    } else {
        None
    }
}

// What a record bears that is sealed by this counter.
fn bearing_at(counters: &Counters, id: u8, ahead: bool) -> Result<Option<Borne>, SealFault>
    ensures { result ≡ reported seal_fault SealFault.PowerLost
        (Some (bearing counters.now (Some id) ahead)) }
{
    match value_at(counters, id) {
        None => Err(SealFault::NoCounter),
        Some(value) => {
            if !ahead {
                Ok(Some(Borne { id, value }))
            } else if value == u32::MAX {
                Err(SealFault::CounterEnd)
            } else {
                Ok(Some(Borne {
                    id,
                    value: value + 1,
                }))
            }
        }
    }
}

// What the record of bytes bears that are sealed now, or why they are not sealed.
pub(crate) fn bearing_to_seal(
    serial: u64,
    counters: &Counters,
    bytes: &[u8],
    counter: Option<u8>,
    ahead: bool,
) -> Result<Option<Borne>, SealFault>
    ensures bearing { result ≡ reported seal_fault SealFault.PowerLost
        (Some (seal_bearing serial counters.now bytes.now counter ahead)) }
    ensures short { OnOk result (length bytes.now ≤ LONGEST_SEALED) }
    ensures next { OnOk result (serial < last_serial) }
{
    if bytes.len() > LONGEST_SEALED {
        return Err(SealFault::TooLong);
    }
    let borne = match counter {
        None => None,
        Some(id) => match bearing_at(counters, id, ahead) {
            Err(fault) => return Err(fault),
            Ok(borne) => borne,
        },
    };
    if serial == u64::MAX {
        return Err(SealFault::SerialEnd);
    }
    Ok(borne)
}
