// Laws of the commands on a device of lists and on one of digests (specs/). Each function does
// nothing: its clauses are laws, which are proved because they stand here.
ghost use Rattle.std.specs.Prelude.{◌≡◌, ◌≢◌, ◌<◌, ◌≤◌, ◌+◌, ◌^◌, Bool, true, false, List, ℕ};
ghost use Rattle.std.specs.Prelude.{[], length, Option, Some, None, Ok, Err, slice_get, All, Contains};
ghost use Rattle.flk_base.specs.Plan.{Plan, ask, EndAlike};
ghost use Rattle.flk_base.specs.Stop.{Limit, Fused, with_fuse, limited, fused};
ghost use Rattle.tpm_state.specs.Chain.{Chain, value, power_start, register_count};
ghost use Rattle.tpm_state.specs.Counters.{Counter, no_counters, counter_at, InRange, Grew};
ghost use Rattle.tpm_state.specs.Counters.{Created, Incremented};
ghost use Rattle.seal_device.specs.Keys.{Keys, keys_of};
ghost use Rattle.seal_device.specs.Quoted.{Quoted};
ghost use Rattle.seal_device.specs.Rules.{Device, Rules};
ghost use Rattle.seal_device.specs.Refusals.Seed as seeds;
ghost use Rattle.seal_device.specs.Refusals.Seal as seals;
ghost use Rattle.seal_device.specs.Refusals.Unseal as unseals;
ghost use Rattle.seal_device.specs.Refusals.Quote as quotes;
ghost use Rattle.seal_device.specs.Refusals.Random as randoms;
ghost use Rattle.seal_device.specs.Sealing.{present_chain};
ghost use Rattle.seal_device.specs.Drawing.{last_word, random_word};
ghost use Rattle.seal_device.specs.Commands.{Command, Reply, act, blank, compares, costs};
ghost use Rattle.seal_device.specs.Commands.{launch_register, launch_start};
ghost use Rattle.seal_device.specs.Digests.{DigestDevice, digests, on_device};
ghost use Rattle.seal_device.specs.Ledger.{Ledger, no_ledger, strings, hashed_by, noted, Clean};
ghost use Rattle.seal_device.specs.Lists.{ListDevice, lists};
ghost use Rattle.seal_device.specs.Agreement.{Knows, digested, reply_digested};
ghost use Rattle.seal_device.specs.Agreement.{fused_digested, end_digested, Noted, Agrees};
ghost use Rattle.seal_device.specs.Agreement.{FusedAgree, FairPlan, UnforgedPlan, ComparesNothing};

/// By digests a command that compares nothing does what it does by lists, seen by digests, and
/// replies the same; so does a plan of such commands, wherever its fuse stops it. A device that was
/// never used is one by digests.
pub fn digested_is_a_homomorphism<X>()
    ensures command { (c : Command) (d : ListDevice) → compares c ≡ false →
        act digests c (digested d) ≡ reply_digested (act lists c d) }
    ensures plan { (plan : Plan Command Reply X) (before : Fused ListDevice) →
        ComparesNothing plan →
        on_device plan (fused_digested before)
        ≡ end_digested (fused costs (act lists) plan before) }
    ensures blank { digested (blank lists) ≡ blank digests }
{}

/// The ledger has what a device of lists knows after each command, and after each plan, wherever
/// its fuse stops it: the strings of its chains, of its records and of its quotes, the records'
/// blobs, and the quotes' bytes. An empty one has what a device knows that was never used. What
/// strings a command adds to it the device knows after it, but for a check, which adds those of the
/// chain that the quote is claimed to be of, where there are keys to check it by.
pub fn ledger_has_what_is_known<X>()
    ensures command { (c : Command) (d : ListDevice) (ledger : Ledger) → Noted d ledger →
        Noted (noted lists c (d, ledger)).0.0 (noted lists c (d, ledger)).0.1 }
    ensures plan { (plan : Plan Command Reply X) (before : Fused (ListDevice × Ledger)) →
        Noted before.state.0 before.state.1 →
        Noted (fused costs (noted lists) plan before).0.state.0
        (fused costs (noted lists) plan before).0.state.1 }
    ensures blank { Noted (blank lists) no_ledger }
    ensures only { (c : Command) (d : ListDevice) → length d.chains ≡ register_count →
        ((claim : Quoted Chain) (bytes : List ℕ) → c ≢ Command.Check claim bytes) →
        All (Knows (act lists c d).0) (hashed_by lists c d) }
    ensures checked { (claim : Quoted Chain) (bytes : List ℕ) (d : ListDevice) (keys : Keys) →
        d.keys ≡ Some keys →
        hashed_by lists (Command.Check claim bytes) d ≡ strings claim.chain }
    ensures unchecked { (claim : Quoted Chain) (bytes : List ℕ) (d : ListDevice) →
        d.keys ≡ None → hashed_by lists (Command.Check claim bytes) d ≡ [] }
{}

/// From devices that agree, a plan that is fair as far as its fuse lets it run ends alike on both:
/// they agree, with one ledger and as much left of the fuse, and the value is one. A plan that is
/// fair as a whole is fair so far, and one that compares nothing is fair.
pub fn fair_plans_agree<X>()
    ensures ledgers { (plan : Plan Command Reply X) (fuse : Limit)
        (w : ListDevice × Ledger) (v : DigestDevice × Ledger) →
        FairPlan (limited costs plan fuse) v → Agrees w v →
        EndAlike FusedAgree (fused costs (noted lists) plan (with_fuse w fuse))
        (fused costs (noted digests) plan (with_fuse v fuse)) }
    ensures devices { (plan : Plan Command Reply X) (before : Fused ListDevice) (ledger : Ledger) →
        FairPlan (limited costs plan before.fuse) (digested before.state, ledger) →
        Noted before.state ledger →
        on_device plan (fused_digested before)
        ≡ end_digested (fused costs (act lists) plan before) }
    ensures whole { (plan : Plan Command Reply X) (fuse : Limit) (v : DigestDevice × Ledger) →
        FairPlan plan v → FairPlan (limited costs plan fuse) v }
    ensures nothing { (plan : Plan Command Reply X) (v : DigestDevice × Ledger) →
        ComparesNothing plan → FairPlan plan v }
{}

/// A plan is fair as far as its fuse lets it run, if what was hashed is clean where it ends and no
/// blob was forged that it showed. So from devices that were never used it does by digests what it
/// does by lists, if all that was hashed by digests is clean, and no blob was forged.
pub fn clean_runs_agree<X>()
    ensures fair { (plan : Plan Command Reply X) (before : Fused (DigestDevice × Ledger)) →
        Clean (fused costs (noted digests) plan before).0.state.1.hashed →
        UnforgedPlan (limited costs plan before.fuse) before.state →
        FairPlan (limited costs plan before.fuse) before.state }
    ensures agrees { (plan : Plan Command Reply X) (fuse : Limit) →
        Clean (fused costs (noted digests) plan
        (with_fuse (blank digests, no_ledger) fuse)).0.state.1.hashed →
        UnforgedPlan (limited costs plan fuse) (blank digests, no_ledger) →
        on_device plan (with_fuse (blank digests) fuse)
        ≡ end_digested (fused costs (act lists) plan (with_fuse (blank lists) fuse)) }
{}

/// Where strings that were hashed for two chains are clean, the chains show one value only if they
/// are one: so it is in a device of lists whose ledger is clean, of its registers and of its
/// counters' owners.
pub fn clean_values_are_apart()
    ensures chains { (hashed : List (List ℕ)) (one other : Chain) → Clean hashed →
        All (Contains hashed) (strings one) → All (Contains hashed) (strings other) →
        value one ≡ value other → one ≡ other }
    ensures registers { (d : ListDevice) (ledger : Ledger) (one other : Chain) →
        Noted d ledger → Clean ledger.hashed →
        Contains d.chains one → Contains d.chains other →
        value one ≡ value other → one ≡ other }
    ensures owners { (d : ListDevice) (ledger : Ledger) (id : ℕ) (counter : Counter Chain)
        (other : Chain) → Noted d ledger → Clean ledger.hashed →
        counter_at d.counters id ≡ Some counter → Contains d.chains other →
        value counter.owner ≡ value other → counter.owner ≡ other }
{}

/// What commands do to the registers, by the rules of any platform. At power-on the chains are
/// those of a device that was never used. A launch leaves register 17 the launch's start, extended
/// by the image; an extend leaves register r extended by the text; and both leave every other
/// register as it was. So do the other commands leave all. There are always 24.
pub fn commands_by_registers<H, M>()
    ensures blank { (R : Rules H M) (r : ℕ) → r < register_count →
        slice_get (blank R).chains r ≡ Some (R.start (power_start r)) }
    ensures power_on { (R : Rules H M) (d : Device H M) →
        (act R Command.PowerOn d).0.chains ≡ (blank R).chains }
    ensures measure { (R : Rules H M) (image : List ℕ) (d : Device H M) →
        length d.chains ≡ register_count →
        slice_get (act R (Command.Measure image) d).0.chains launch_register
        ≡ Some (R.extended (R.start launch_start) image) }
    ensures measure_others { (R : Rules H M) (image : List ℕ) (d : Device H M) (r : ℕ) →
        r ≢ launch_register →
        slice_get (act R (Command.Measure image) d).0.chains r ≡ slice_get d.chains r }
    ensures extend { (R : Rules H M) (r : ℕ) (text : List ℕ) (d : Device H M) (chain : H) →
        slice_get d.chains r ≡ Some chain →
        slice_get (act R (Command.Extend r text) d).0.chains r ≡ Some (R.extended chain text) }
    ensures extend_others { (R : Rules H M) (r other : ℕ) (text : List ℕ) (d : Device H M) →
        other ≢ r →
        slice_get (act R (Command.Extend r text) d).0.chains other ≡ slice_get d.chains other }
    ensures read { (R : Rules H M) (r : ℕ) (d : Device H M) →
        (act R (Command.ReadRegister r) d).0 ≡ d }
    ensures provision { (R : Rules H M) (seed : List ℕ) (d : Device H M) →
        (act R (Command.Provision seed) d).0.chains ≡ d.chains }
    ensures seal { (R : Rules H M) (bytes : List ℕ) (counter : Option ℕ) (ahead : Bool)
        (d : Device H M) → (act R (Command.Seal bytes counter ahead) d).0.chains ≡ d.chains }
    ensures unseal { (R : Rules H M) (bytes : List ℕ) (d : Device H M) →
        (act R (Command.Unseal bytes) d).0 ≡ d }
    ensures check_next { (R : Rules H M) (bytes : List ℕ) (d : Device H M) →
        (act R (Command.CheckNext bytes) d).0 ≡ d }
    ensures quote { (R : Rules H M) (nonce : List ℕ) (d : Device H M) →
        (act R (Command.Quote nonce) d).0.chains ≡ d.chains }
    ensures check { (R : Rules H M) (claim : Quoted Chain) (bytes : List ℕ) (d : Device H M) →
        (act R (Command.Check claim bytes) d).0 ≡ d }
    ensures new_counter { (R : Rules H M) (d : Device H M) →
        (act R Command.NewCounter d).0.chains ≡ d.chains }
    ensures read_counter { (R : Rules H M) (id : ℕ) (d : Device H M) →
        (act R (Command.ReadCounter id) d).0 ≡ d }
    ensures increment { (R : Rules H M) (id : ℕ) (d : Device H M) →
        (act R (Command.Increment id) d).0.chains ≡ d.chains }
    ensures random { (R : Rules H M) (d : Device H M) →
        (act R Command.Random d).0.chains ≡ d.chains }
    ensures count { (R : Rules H M) (c : Command) (d : Device H M) →
        length d.chains ≡ register_count → length (act R c d).0.chains ≡ register_count }
{}

/// What commands do to the keys, to the serial and to the count of random words, by the rules of
/// any platform. The keys of a seed come once, and then stay. Without them nothing is sealed,
/// unsealed, tried, quoted, checked or drawn. What is sealed gets the serial, and the next one is one more: it never
/// falls, and stays below 2^64; what is refused changes nothing, and no other command changes the
/// serial. So it is with the number of the next random word, and no other command draws one.
pub fn commands_by_keys<H, M>()
    ensures provision { (R : Rules H M) (seed : List ℕ) (d : Device H M) → d.keys ≡ None →
        act R (Command.Provision seed) d ≡ (record d { keys = Some (keys_of seed) }, Ok tt) }
    ensures provisioned { (R : Rules H M) (seed : List ℕ) (d : Device H M) (keys : Keys) →
        d.keys ≡ Some keys → act R (Command.Provision seed) d ≡ (d, Err seeds.Provisioned) }
    ensures stay { (R : Rules H M) (c : Command) (d : Device H M) (keys : Keys) →
        d.keys ≡ Some keys → (act R c d).0.keys ≡ Some keys }
    ensures no_keys_to_seal { (R : Rules H M) (bytes : List ℕ) (counter : Option ℕ) (ahead : Bool)
        (d : Device H M) → d.keys ≡ None →
        act R (Command.Seal bytes counter ahead) d ≡ (d, Err seals.Unprovisioned) }
    ensures no_keys_to_unseal { (R : Rules H M) (bytes : List ℕ) (d : Device H M) → d.keys ≡ None →
        act R (Command.Unseal bytes) d ≡ (d, Err unseals.Unprovisioned) }
    ensures no_keys_to_try { (R : Rules H M) (bytes : List ℕ) (d : Device H M) → d.keys ≡ None →
        act R (Command.CheckNext bytes) d ≡ (d, Err unseals.Unprovisioned) }
    ensures no_keys_to_quote { (R : Rules H M) (nonce : List ℕ) (d : Device H M) →
        d.keys ≡ None → act R (Command.Quote nonce) d ≡ (d, Err quotes.Unprovisioned) }
    ensures no_keys_to_check { (R : Rules H M) (claim : Quoted Chain) (bytes : List ℕ)
        (d : Device H M) → d.keys ≡ None →
        act R (Command.Check claim bytes) d ≡ (d, Err quotes.Unprovisioned) }
    ensures no_keys_to_draw { (R : Rules H M) (d : Device H M) → d.keys ≡ None →
        act R Command.Random d ≡ (d, Err randoms.Unprovisioned) }
    ensures sealed { (R : Rules H M) (bytes blob : List ℕ) (counter : Option ℕ) (ahead : Bool)
        (d : Device H M) → (act R (Command.Seal bytes counter ahead) d).1 ≡ Ok blob →
        (act R (Command.Seal bytes counter ahead) d).0.serial ≡ d.serial + 1 }
    ensures refused { (R : Rules H M) (bytes : List ℕ) (counter : Option ℕ) (ahead : Bool)
        (d : Device H M) (refusal : seals.Refusal) →
        (act R (Command.Seal bytes counter ahead) d).1 ≡ Err refusal →
        (act R (Command.Seal bytes counter ahead) d).0 ≡ d }
    ensures serial { (R : Rules H M) (c : Command) (d : Device H M) → d.serial < 2 ^ 64 →
        (d.serial ≤ (act R c d).0.serial) × ((act R c d).0.serial < 2 ^ 64) }
    ensures drawn { (R : Rules H M) (d : Device H M) (keys : Keys) → d.keys ≡ Some keys →
        d.drawn ≢ last_word → act R Command.Random d
        ≡ (record d { drawn = d.drawn + 1 }, Ok (random_word keys d.drawn)) }
    ensures last_word { (R : Rules H M) (d : Device H M) (keys : Keys) → d.keys ≡ Some keys →
        d.drawn ≡ last_word → act R Command.Random d ≡ (d, Err randoms.RandomEnd) }
    ensures words { (R : Rules H M) (c : Command) (d : Device H M) → c ≢ Command.Random →
        (act R c d).0.drawn ≡ d.drawn }
    ensures serials { (R : Rules H M) (c : Command) (d : Device H M) →
        ((bytes : List ℕ) (counter : Option ℕ) (ahead : Bool) →
        c ≢ Command.Seal bytes counter ahead) → (act R c d).0.serial ≡ d.serial }
{}

/// What commands do to the counters, by the rules of any platform. They stay in their ranges; each
/// that is in use stays so, with its owner, and its value never falls: so it is over each command
/// and over each plan, wherever its fuse stops it. A counter stays as it is under each command that
/// is given while register 17 stands in another chain than its owner. A new one is owned by
/// register 17's chain. No command but a creation and an increment changes any.
pub fn commands_by_counters<H, M, X>()
    ensures in_range { (R : Rules H M) (c : Command) (d : Device H M) → InRange d.counters →
        InRange (act R c d).0.counters }
    ensures grow { (R : Rules H M) (c : Command) (d : Device H M) →
        Grew d.counters (act R c d).0.counters }
    ensures plans_in_range { (R : Rules H M) (plan : Plan Command Reply X)
        (before : Fused (Device H M)) → InRange before.state.counters →
        InRange (fused costs (act R) plan before).0.state.counters }
    ensures plans_grow { (R : Rules H M) (plan : Plan Command Reply X)
        (before : Fused (Device H M)) →
        Grew before.state.counters (fused costs (act R) plan before).0.state.counters }
    ensures blank { (R : Rules H M) → (blank R).counters ≡ no_counters }
    ensures owner { (R : Rules H M) (c : Command) (d : Device H M) (id : ℕ)
        (counter : Counter H) → counter_at d.counters id ≡ Some counter →
        R.same counter.owner (present_chain R d) ≡ false →
        counter_at (act R c d).0.counters id ≡ Some counter }
    ensures new_counter { (R : Rules H M) (d : Device H M) (id : ℕ) →
        (act R Command.NewCounter d).1 ≡ Ok id →
        Created (present_chain R d) d.counters id (act R Command.NewCounter d).0.counters }
    ensures increment { (R : Rules H M) (d : Device H M) (id value : ℕ) →
        (act R (Command.Increment id) d).1 ≡ Ok value →
        Incremented R.same id (present_chain R d) d.counters value
        (act R (Command.Increment id) d).0.counters }
    ensures others { (R : Rules H M) (c : Command) (d : Device H M) → c ≢ Command.NewCounter →
        ((id : ℕ) → c ≢ Command.Increment id) → (act R c d).0.counters ≡ d.counters }
{}

/// A command that costs nothing, as power-on, the taking of a seed and the check of a quote, takes
/// nothing from the fuse and is done at any. Each other command takes a step; where the fuse has none left the power is
/// lost before it, and nothing changes.
pub fn commands_and_the_fuse()
    ensures power_on { costs Command.PowerOn ≡ false }
    ensures provision { (seed : List ℕ) → costs (Command.Provision seed) ≡ false }
    ensures check { (claim : Quoted Chain) (bytes : List ℕ) →
        costs (Command.Check claim bytes) ≡ false }
    ensures free { (c : Command) (before : Fused DigestDevice) → costs c ≡ false →
        on_device (ask c) before ≡ (
          with_fuse (act digests c before.state).0 before.fuse,
          Some (act digests c before.state).1,
        ) }
    ensures step { (c : Command) (d : DigestDevice) (left : ℕ) → costs c ≡ true →
        on_device (ask c) (with_fuse d (Some (left + 1)))
        ≡ (with_fuse (act digests c d).0 (Some left), Some (act digests c d).1) }
    ensures lost { (c : Command) (d : DigestDevice) → costs c ≡ true →
        on_device (ask c) (with_fuse d (Some 0)) ≡ (with_fuse d (Some 0), None) }
{}
