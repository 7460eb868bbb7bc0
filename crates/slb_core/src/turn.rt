//! One instruction.
ghost use Rattle.std.specs.Prelude.{◌≡◌, ◌≤◌, length};
ghost use Rattle.i386_profile.specs.Effects.{state};
ghost use Rattle.slb_core.specs.Turns.{executed, Reaches};
ghost use Rattle.slb_core.specs.Spans.{with_region};

use i386_profile::{Cpu, FaultKind, Step, Undecoded, decode, exec};
use late_launch::Launched;

/// How many bytes the segment has.
pub(crate) const SEGMENT_SIZE: usize = 65_536;

/// Carries out the instruction at eip.
fn step(segment: &mut [u8; SEGMENT_SIZE], cpu: &mut Cpu) -> Step
    ensures reached { Reaches (executed (state cpu.old segment.old)) result (state cpu.new segment.new) }
    ensures size { length segment.new ≡ 65536 }
{
    let eip = cpu.eip as usize;
    if eip >= SEGMENT_SIZE {
        return Step::Fault(FaultKind::Segment);
    }
    match decode(segment, eip) {
        Err(Undecoded) => Step::Fault(FaultKind::Instruction),
        Ok((ins, count)) => {
            cpu.eip += count as u32;
            exec(&ins, cpu, segment)
        }
    }
}

/// Carries out the instruction at eip in the region.
#[tactic(auto, using(crate::proofs::Loans::comes_back))]
pub(crate) fn execute(session: &mut Launched, cpu: &mut Cpu) -> Step
    ensures reached { Reaches (executed (state cpu.old session.old.region)) result (state cpu.new session.new.region) }
    ensures others { session.new ≡ with_region session.old session.new.region }
{
    match session.region().as_mut_array() {
        Some(segment) => step(segment, cpu),
        None => unreachable!(),
    }
}
