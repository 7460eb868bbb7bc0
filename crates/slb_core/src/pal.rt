//! Launched code, turn by turn.
ghost use Rattle.std.specs.Prelude.{◌≡◌};
ghost use Rattle.i386_profile.specs.Effects.{state};
ghost use Rattle.seal_device.specs.Digests.{on_device};
ghost use Rattle.late_launch.specs.States.{session_device};
ghost use Rattle.slb_core.specs.Pal.{pal, outside};
ghost use Rattle.slb_core.specs.Sessions.{permits_of};
ghost use Rattle.slb_core.specs.Reports.{CodeEnds};

use crate::services::{PAGE_SIZE, Turned, take_turn};
use flk_base::PowerLost;
use i386_profile::Cpu;
use late_launch::{End, Launched};
use machine_memory::Dma;

/// How a session ended, and after how many turns.
#[derive(Clone, Copy)]
pub(crate) struct Ended {
    pub(crate) end: End,
    pub(crate) turns: u32,
}

/// How launched code ended, after how many turns, and how many bytes of state a job is to keep of it.
#[derive(Clone, Copy)]
pub(crate) struct CodeEnded {
    pub(crate) end: End,
    pub(crate) turns: u32,
    pub(crate) kept: u16,
}

/// Runs the code in the region, a job's or not, for at most `budget` turns. Each does the device writes of its number
/// first.
pub(crate) fn run(
    session: &mut Launched,
    start: Cpu,
    job: bool,
    budget: u32,
    dma: &mut Dma,
    outputs: &mut [u8; PAGE_SIZE],
) -> Result<CodeEnded, PowerLost>
    ensures { CodeEnds
        (on_device (pal job (permits_of session.old) budget 0 (state start session.old.region) (outside session.old.around.bytes dma.old)) (session_device session.old))
        session.old session.new dma.new outputs.new result }
{
    let mut cpu = start;
    for done in 0..budget {
        session.device_writes(dma, done + 1);
        match take_turn(session, &mut cpu, job, outputs) {
            Ok(Turned::Next) => (),
            Ok(Turned::Over(ending)) => {
                return Ok(CodeEnded {
                    end: ending.end,
                    turns: done + 1,
                    kept: ending.kept,
                });
            }
            Err(PowerLost) => return Err(PowerLost),
        }
    }
    Ok(CodeEnded {
        end: End::Budget,
        turns: budget,
        kept: 0,
    })
}
