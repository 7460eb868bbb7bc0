// Laws of counters, over any kind of owner (specs/). Each function does nothing: its clauses are
// laws, which are proved because they stand here.
ghost use Rattle.std.specs.Prelude.{◌≡◌, ◌≢◌, ◌<◌, ◌↔◌, ℕ, Bool, Some, Ok, Err, option_map};
ghost use Rattle.tpm_state.specs.Refusals.Create as creates;
ghost use Rattle.tpm_state.specs.Refusals.Increment as increments;
ghost use Rattle.tpm_state.specs.Counters.{Counter, Counters, no_counters, counter_at, create, read};
ghost use Rattle.tpm_state.specs.Counters.{increment, InRange, Grew, AllInUse, Created, Incremented};
ghost use Rattle.tpm_state.specs.Counters.{counter_map, counters_map, reply_map};

/// Counters that were never used are in their ranges, and each call keeps them there.
pub fn counters_stay_in_range<O>()
    ensures blank { InRange (no_counters {O = O}) }
    ensures create { (owner : O) (c : Counters O) → InRange c → InRange (create owner c).0 }
    ensures increment { (same : O → O → Bool) (id : ℕ) (who : O) (c : Counters O) → InRange c →
        InRange (increment same id who c).0 }
{}

/// Over any calls each counter that is in use stays in use at its id, with its owner, and no value
/// falls.
pub fn counters_only_grow<O>()
    ensures create { (owner : O) (c : Counters O) → Grew c (create owner c).0 }
    ensures increment { (same : O → O → Bool) (id : ℕ) (who : O) (c : Counters O) →
        Grew c (increment same id who c).0 }
    ensures nothing { (c : Counters O) → Grew c c }
    ensures one_after_other { (a b c : Counters O) → Grew a b → Grew b c → Grew a c }
{}

/// What is given is new, over any calls: an id is given once; a new counter begins above each value
/// that any counter had; an increment gives a value above each that its counter had. So a value
/// that a counter has left is not met again.
pub fn numbers_are_given_once<O>()
    ensures ids { (owner : O) (a b : Counters O) (id : ℕ) (counter : Counter O) →
        Grew a b → counter_at a id ≡ Some counter → (create owner b).1 ≢ Ok id }
    ensures first_values { (owner : O) (a b : Counters O) (id new : ℕ) (counter made : Counter O) →
        InRange a → Grew a b → counter_at a id ≡ Some counter → (create owner b).1 ≡ Ok new →
        counter_at (create owner b).0 new ≡ Some made → counter.value < made.value }
    ensures next_values { (same : O → O → Bool) (id : ℕ) (who : O) (a b : Counters O)
        (counter : Counter O) (value : ℕ) →
        Grew a b → counter_at a id ≡ Some counter → (increment same id who b).1 ≡ Ok value →
        counter.value < value }
    ensures left { (a b c : Counters O) (id : ℕ) (first second third : Counter O) →
        Grew a b → Grew b c → counter_at a id ≡ Some first → counter_at b id ≡ Some second →
        counter_at c id ≡ Some third → second.value ≢ first.value → third.value ≢ first.value }
{}

/// What a creation does, and an increment: where it is refused, nothing; and a creation is refused
/// as full exactly where every id is in use.
pub fn calls_by_counters<O>()
    ensures created { (owner : O) (c : Counters O) (id : ℕ) → (create owner c).1 ≡ Ok id →
        Created owner c id (create owner c).0 }
    ensures create_refused { (owner : O) (c : Counters O) (refusal : creates.Refusal) →
        (create owner c).1 ≡ Err refusal → (create owner c).0 ≡ c }
    ensures full { (owner : O) (c : Counters O) →
        ((create owner c).1 ≡ Err creates.Full) ↔ AllInUse c }
    ensures incremented { (same : O → O → Bool) (id : ℕ) (who : O) (c : Counters O) (value : ℕ) →
        (increment same id who c).1 ≡ Ok value →
        Incremented same id who c value (increment same id who c).0 }
    ensures increment_refused { (same : O → O → Bool) (id : ℕ) (who : O) (c : Counters O)
        (refusal : increments.Refusal) →
        (increment same id who c).1 ≡ Err refusal → (increment same id who c).0 ≡ c }
{}

/// With each owner made another, counters that were never used are so, a counter is created and
/// read as before, and incremented as before where its owner is the same as the one who asks there
/// exactly where it is here.
pub fn counters_by_owners<O, P>()
    ensures blank { (f : O → P) → counters_map f no_counters ≡ no_counters }
    ensures at { (f : O → P) (c : Counters O) (id : ℕ) →
        counter_at (counters_map f c) id ≡ option_map (counter_map f) (counter_at c id) }
    ensures create { (f : O → P) (owner : O) (c : Counters O) →
        create (f owner) (counters_map f c) ≡ reply_map f (create owner c) }
    ensures read { (f : O → P) (id : ℕ) (c : Counters O) →
        read id (counters_map f c) ≡ read id c }
    ensures increment { (f : O → P) (same : O → O → Bool) (same' : P → P → Bool)
        (id : ℕ) (who : O) (c : Counters O) →
        ((counter : Counter O) → counter_at c id ≡ Some counter →
        same' (f counter.owner) (f who) ≡ same counter.owner who) →
        increment same' id (f who) (counters_map f c) ≡ reply_map f (increment same id who c) }
    ensures in_range { (f : O → P) (c : Counters O) → InRange c → InRange (counters_map f c) }
{}
