//! Laws of calls in parts. Each function does nothing: its clauses are laws, which are proved because they stand here.
ghost use Rattle.std.specs.Prelude.{◌≡◌, ◌≢◌, ℕ, List, Bool, true};
ghost use Rattle.flk_base.specs.Plan.{Plan};
ghost use Rattle.job_store.specs.Commands.{MayReply};
ghost use Rattle.job_store.specs.Simulated.{Simulated};
ghost use Rattle.job_engine.specs.declared.ends.JobEnd.{JobEnd};
ghost use Rattle.job_engine.specs.Jobs.{Job};
ghost use Rattle.job_engine.specs.Calls.{Part, Gives, CallEnd, births_told, steps_told, finds_told, IsRefused, new_course, step_course, recover_course};
ghost use Rattle.job_engine.specs.Runs.{Ended, With, OutOfMemory, Machines, MayEnd};
ghost use Rattle.job_engine.specs.Ends.{ends_birth, ends_step, ends_recovery, IsOneOf, refuses_at_once};
ghost use Rattle.job_engine.specs.Whole.{SimulatedMay, KnownMay, both, on_both, whole_plan, value_in, EndsWhole};

use job_store::Disk;

/// The law of whole calls. On the disk in memory a call in parts ends as one plan over commands to device and slots,
/// run with the fuse, where memory lasts for some number of whole parts: by what that disk does, and in the words of
/// calls over any disk, by what it makes known.
pub fn whole_law<X>()
    ensures simulated { (roomy : Bool) (image : List ℕ) (parts : Plan Part Gives X) (old new : Machines Simulated)
        (end : Ended X) → MayEnd SimulatedMay roomy image parts old new end →
        EndsWhole roomy image parts old new end }
    ensures known { (roomy : Bool) (image : List ℕ) (parts : Plan Part Gives X) (old new : Machines Simulated)
        (end : Ended X) → MayEnd KnownMay roomy image parts old new end →
        EndsWhole roomy image parts old new end }
{}

/// A call in parts that does not end for want of memory ends as the plan of all its parts, which knows nothing of
/// memory: with the plan's value, or without power where the fuse cuts the plan.
pub fn lasting_law<X>()
    ensures simulated { (roomy : Bool) (image : List ℕ) (parts : Plan Part Gives X) (old new : Machines Simulated)
        (end : Ended X) → MayEnd SimulatedMay roomy image parts old new end → end ≢ OutOfMemory →
        on_both (whole_plan roomy image parts) (both old) ≡ (both new, value_in end) }
    ensures known { (roomy : Bool) (image : List ℕ) (parts : Plan Part Gives X) (old new : Machines Simulated)
        (end : Ended X) → MayEnd KnownMay roomy image parts old new end → end ≢ OutOfMemory →
        on_both (whole_plan roomy image parts) (both old) ≡ (both new, value_in end) }
{}

/// The law of ends, on any disk. A call that carried out its parts and came to a value ended in one of the ways of its
/// kind: where it is done its output has as many bytes as that says, and with any other end there is none. Want of
/// memory is no such value. A call that is refused at once is so in one of five ways.
pub fn call_ends_law<D: Disk>()
    ensures births { (roomy : Bool) (image : List ℕ) (j : ℕ) (inputs : List ℕ) (old new : Machines D) (over : CallEnd) →
        MayEnd (MayReply D.contents D.fault_count D.call_gives) roomy image (births_told j inputs) old new (With over) →
        IsOneOf ends_birth over }
    ensures steps { (roomy : Bool) (image : List ℕ) (inputs : List ℕ) (j : ℕ) (old new : Machines D) (over : CallEnd) →
        MayEnd (MayReply D.contents D.fault_count D.call_gives) roomy image (steps_told inputs j) old new (With over) →
        IsOneOf ends_step over }
    ensures finds { (roomy : Bool) (image : List ℕ) (j : ℕ) (old new : Machines D) (over : CallEnd) →
        MayEnd (MayReply D.contents D.fault_count D.call_gives) roomy image (finds_told j) old new (With over) →
        IsOneOf ends_recovery over }
    ensures new { (jobs : List Job) (name image inputs : List ℕ) (why : JobEnd) →
        new_course jobs name image inputs ≡ IsRefused why → refuses_at_once why ≡ true }
    ensures step { (jobs : List Job) (name inputs : List ℕ) (why : JobEnd) →
        step_course jobs name inputs ≡ IsRefused why → refuses_at_once why ≡ true }
    ensures recover { (jobs : List Job) (name : List ℕ) (why : JobEnd) →
        recover_course jobs name ≡ IsRefused why → refuses_at_once why ≡ true }
{}
