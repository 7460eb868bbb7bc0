// Laws of events and scripts (specs/). Each function does nothing: its clauses are laws, which are
// proved because they stand here.
ghost use Rattle.std.specs.Prelude.{◌≡◌, false, List, [], ℕ, Some};
ghost use Rattle.std.specs.FinMap.{empty};
ghost use Rattle.machine_memory.specs.HostMemory.{is_untaken};
ghost use Rattle.late_launch.specs.Boards.{blank_board};
ghost use Rattle.flk_run.specs.Parts.{known_if, platform_of};
ghost use Rattle.flk_base.specs.Stop.{Limit};
ghost use Rattle.seal_device.specs.Digests.{digests};
ghost use Rattle.seal_device.specs.Lists.{lists};
ghost use Rattle.seal_device.specs.Rules.{Rules};
ghost use Rattle.seal_device.specs.Agreement.{digested, Noted};
ghost use Rattle.seal_device.specs.Ledger.{Ledger};
ghost use Rattle.script_text.specs.Grammar.{Request};
ghost use Rattle.job_store.specs.Simulated.{Simulated};
ghost use Rattle.flk_run.specs.Platform.{Around, Platform, ListPlatform, platform_digested, blank};
ghost use Rattle.flk_run.specs.Events.{event, step, run_on, transcript, after_all, script, lines_of, after_outcomes};
ghost use Rattle.flk_run.specs.Agreement.{step_digested, ComparesNothing, NothingCompared, NothingComparedBy, FairBy, may_compare};

/// Where no command compares, an event does by digests what it does by lists, seen by digests, and
/// answers the same; so does a script. An event that neither runs a session nor unseals a blob
/// compares nothing. A platform that was never used is one by digests.
pub fn scripts_by_lists()
    ensures compares { (w : Around) (fuse : Limit) (request : Request) → may_compare request ≡ false
        → ComparesNothing (event w fuse request) }
    ensures event { (request : Request) (p : ListPlatform)
        → NothingCompared (event p.around p.fuse request) (digested p.device, p.disk) →
        step digests request (platform_digested p) ≡ step_digested (step lists request p) }
    ensures transcript { (n : ℕ) (requests : List Request) (p : ListPlatform)
        → NothingComparedBy requests (platform_digested p) →
        transcript digests n requests (platform_digested p) ≡ transcript lists n requests p }
    ensures platform { (requests : List Request) (p : ListPlatform)
        → NothingComparedBy requests (platform_digested p) →
        after_all digests requests (platform_digested p)
        ≡ platform_digested (after_all lists requests p) }
    ensures blank { (disk : Simulated) → platform_digested (blank lists disk) ≡ blank digests disk }
{}

/// Where each command that compares is fair, a script does by digests what it does by lists, seen by
/// digests, and writes the same transcript: the strings that were hashed up to it are clean, and the
/// blob that it is shown is not forged. The ledger is that of the run so far.
pub fn fair_scripts_agree()
    ensures transcript { (n : ℕ) (requests : List Request) (p : ListPlatform) (ledger : Ledger)
        → Noted p.device ledger → FairBy requests (platform_digested p) ledger →
        transcript digests n requests (platform_digested p) ≡ transcript lists n requests p }
    ensures platform { (requests : List Request) (p : ListPlatform) (ledger : Ledger)
        → Noted p.device ledger → FairBy requests (platform_digested p) ledger →
        after_all digests requests (platform_digested p)
        ≡ platform_digested (after_all lists requests p) }
{}

/// A board that was never used is, beside any disk, the platform that was never used.
pub fn blank_board_is_blank()
    ensures { (disk : Simulated) → known_if (is_untaken blank_board.memory)
        (platform_of blank_board [] disk empty) ≡ Some (blank digests disk) }
{}

/// A whole script is one plan over the commands of the device: its run leaves the platform that the
/// events leave, one after another, and its answers are the transcript's.
pub fn script_is_one_plan<H, M>()
    ensures platform { (R : Rules H M) (requests : List Request) (p : Platform H M) →
        after_outcomes (run_on R (script p.around p.fuse requests) p)
        ≡ after_all R requests p }
    ensures transcript { (R : Rules H M) (n : ℕ) (requests : List Request) (p : Platform H M) →
        lines_of n (run_on R (script p.around p.fuse requests) p).1.answers
        ≡ transcript R n requests p }
{}
