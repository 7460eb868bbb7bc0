//! Laws of sessions (specs/). Each function does nothing: its clause is a law, which is proved because it stands here.
ghost use Rattle.std.specs.Prelude.{◌≡◌, ℕ, List, true, Some, IfSome};
ghost use Rattle.flk_base.specs.Plan.{Machine};
ghost use Rattle.flk_base.specs.Stop.{Fused, fused};
ghost use Rattle.machine_memory.specs.ArmedWrites.{Armed};
ghost use Rattle.seal_device.specs.Commands.{Command, Reply, costs};
ghost use Rattle.slb_core.specs.Pal.{CodeStart};
ghost use Rattle.slb_core.specs.JobInputs.{Asked, CanBeAsked, job_inputs, asked_of};
ghost use Rattle.slb_core.specs.Jobs.{in_mode, runs_code, KeepsBlob};
ghost use Rattle.slb_core.specs.Sessions.{Setting, serving};
ghost use Rattle.slb_core.specs.Resume.{AreDoneUntil};

/// On every device, and with every fuse: where a session ends, memory around its region is what it was when the
/// session began, after the device writes that waited for the turns from 0 to the last one, turn by turn and in one
/// turn as they were armed, each done wholly where it is permitted, and else not at all. These writes are done or
/// blocked then, and no others.
pub fn device_writes_law<S>()
    ensures { (device : Machine Command Reply S) (before : Fused S)
        (setting : Setting) (count : ℕ) (nonce : List ℕ) (writes : List Armed) →
        IfSome (fused costs device (serving setting count nonce writes) before).1
        (λ ended. AreDoneUntil setting.permits setting.bytes writes ended.turns ended.outside) }
{}

/// The inputs that ask a job for something are read as what they ask for.
pub fn job_inputs_law()
    ensures { (asked : Asked) → CanBeAsked asked → asked_of (job_inputs asked) ≡ Some asked }
{}

/// On every device, and with every fuse: where a session that runs a job's code is done, its outputs are the blob of the
/// job's state and the outputs of the code.
pub fn job_outputs_law<S>()
    ensures { (device : Machine Command Reply S) (before : Fused S) (start : CodeStart) (asked : Asked) →
        runs_code asked.mode ≡ true →
        IfSome (fused costs device (in_mode asked.mode start asked) before).1
        (λ ended. KeepsBlob ended.end ended.outputs) }
{}
