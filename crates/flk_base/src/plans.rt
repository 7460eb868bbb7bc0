// Laws of plans and stops (specs/Plan, Stop, Parts). Each function does nothing: its clauses are
// laws, which are proved because they stand here. A fact is a test here, and replies have one type.
ghost use Rattle.std.specs.Prelude.{◌≡◌, ℕ, ◌+◌, ◌≤◌, Bool, IsTrue, Some, None, Result, Ok, Err};
ghost use Rattle.std.specs.Prelude.{List, ◌++◌, length};
ghost use Rattle.flk_base.specs.Plan.{Plan, ask, Ask, Machine, run, followed_by, Throughout};
ghost use Rattle.flk_base.specs.Plan.{EndAlike, AnswerAlike};
ghost use Rattle.flk_base.specs.Stop.{Fused, with_fuse, limited, fused, then_fused, Ends, or_lost};
ghost use Rattle.flk_base.specs.Stop.{commands, after, cost, prefix, cut};
ghost use Rattle.flk_base.specs.Parts.{expanded, by_plans, reported_in_parts, EndsInParts};

/// Two plans, one after the other, run as the first does and then, from the state where it ends, as
/// the second. With a fuse the second has what the first left of it, unless the power was lost.
pub fn one_after_other<C, R, X, Y, S>()
    ensures whole { (m : Machine C (λ _. R) S)
        (p : Plan C (λ _. R) X) (f : X → Plan C (λ _. R) Y) (s : S) →
        run m (followed_by p f) s ≡ run m (f (run m p s).1) (run m p s).0 }
    ensures stopped { (costs : C → Bool) (m : Machine C (λ _. R) S)
        (p : Plan C (λ _. R) X) (f : X → Plan C (λ _. R) Y) (before : Fused S) →
        fused costs m (followed_by p f) before ≡ then_fused costs m f (fused costs m p before) }
{}

/// Two machines answer a plan alike, if they answer each command alike from states that agree: each
/// command at all, or each of which a fact holds, where it holds throughout the plan.
pub fn plans_alike<C, R, X, S, T>()
    ensures { (m : Machine C (λ _. R) S) (n : Machine C (λ _. R) T)
        (fact : C → T → Bool) (agree : S → T → Bool) →
        AnswerAlike m n (λ c t. IsTrue (fact c t)) (λ s t. IsTrue (agree s t)) →
        (p : Plan C (λ _. R) X) (s : S) (t : T) →
        Throughout n (λ c t. IsTrue (fact c t)) p t → IsTrue (agree s t) →
        EndAlike (λ s t. IsTrue (agree s t)) (run m p s) (run n p t) }
{}

/// What each command keeps, each plan keeps.
pub fn plans_keep<C, R, X, S>()
    ensures { (m : Machine C (λ _. R) S) (kept : S → Bool) →
        ((c : C) (s : S) → IsTrue (kept s) → IsTrue (kept (m c s).0)) →
        (p : Plan C (λ _. R) X) (s : S) → IsTrue (kept s) → IsTrue (kept (run m p s).0) }
{}

/// The prefix of a list of commands begins it, at most `n` of its commands cost, and it is the
/// longest such list.
pub fn prefix_is_longest<C>()
    ensures begins { (costs : C → Bool) (n : ℕ) (given : List C) →
        (rest : List C) × (given ≡ prefix costs n given ++ rest) }
    ensures cost { (costs : C → Bool) (n : ℕ) (given : List C) →
        cost costs (prefix costs n given) ≤ n }
    ensures longest { (costs : C → Bool) (n : ℕ) (other rest : List C) → cost costs other ≤ n →
        length other ≤ length (prefix costs n (other ++ rest)) }
{}

/// A limited plan gives this prefix of the plan's commands. A plan with a fuse ends as the finished
/// list of its commands does, cut at the fuse's number; without a number nothing is cut. All the
/// commands of a plan lead to where its run ends.
pub fn stops<C, R, X, S>()
    ensures given { (costs : C → Bool) (m : Machine C (λ _. R) S) (p : Plan C (λ _. R) X)
        (n : ℕ) (s : S) →
        commands m (limited costs p (Some n)) s ≡ prefix costs n (commands m p s) }
    ensures cut { (costs : C → Bool) (m : Machine C (λ _. R) S) (p : Plan C (λ _. R) X)
        (before : Fused S) →
        fused costs m p before ≡ cut costs m p before.state before.fuse }
    ensures whole { (costs : C → Bool) (m : Machine C (λ _. R) S) (p : Plan C (λ _. R) X) (s : S) →
        fused costs m p (with_fuse s None) ≡ (with_fuse (run m p s).0 None, Some (run m p s).1) }
    ensures end { (m : Machine C (λ _. R) S) (p : Plan C (λ _. R) X) (s : S) →
        after m (commands m p s) s ≡ (run m p s).0 }
{}

/// Where a plan with a fuse ends with its value, what its commands cost and what is left make the
/// fuse. With more in the fuse it ends alike, and leaves as much more.
pub fn fuses_add_up<C, R, X, S>()
    ensures left { (costs : C → Bool) (m : Machine C (λ _. R) S) (p : Plan C (λ _. R) X)
        (s t : S) (x : X) (n left : ℕ) →
        fused costs m p (with_fuse s (Some n)) ≡ (with_fuse t (Some left), Some x) →
        cost costs (commands m p s) + left ≡ n }
    ensures more { (costs : C → Bool) (m : Machine C (λ _. R) S) (p : Plan C (λ _. R) X)
        (s t : S) (x : X) (n left more : ℕ) →
        fused costs m p (with_fuse s (Some n)) ≡ (with_fuse t (Some left), Some x) →
        fused costs m p (with_fuse s (Some (n + more)))
        ≡ (with_fuse t (Some (left + more)), Some x) }
{}

/// Two calls with a fuse, one after the other. Where the first ended whole, and the second as its
/// plan does from there, they ended as the joined plan does; and where the first lost the power, so
/// did the joined plan.
pub fn calls_in_turn<C, R, X, Y, S, E>()
    ensures whole { (costs : C → Bool) (m : Machine C (λ _. R) S)
        (p : Plan C (λ _. R) X) (f : X → Plan C (λ _. R) Y)
        (lost : E) (before between after : Fused S) (x : X) (answer : Result Y E) →
        Ends (or_lost lost) (fused costs m p before) between (Ok x) →
        Ends (or_lost lost) (fused costs m (f x) between) after answer →
        Ends (or_lost lost) (fused costs m (followed_by p f) before) after answer }
    ensures lost { (costs : C → Bool) (m : Machine C (λ _. R) S)
        (p : Plan C (λ _. R) X) (f : X → Plan C (λ _. R) Y)
        (lost : E) (before after : Fused S) →
        Ends (or_lost lost) (fused costs m p before) after (Err lost) →
        Ends (or_lost lost) (fused costs m (followed_by p f) before) after (Err lost) }
{}

/// A plan of parts as a plan of commands runs as the parts do, each by its own plan.
pub fn parts_in_place<C, B, R, Q, X, S>()
    ensures { (own : B → Plan C (λ _. R) Q) (m : Machine C (λ _. R) S)
        (p : Plan B (λ _. Q) X) (s : S) →
        run m (expanded own p) s ≡ run (by_plans own m) p s }
{}

/// A call that carries out one part, and then the rest. Where the part was reported as a value, and
/// the rest ended as its plan does from there, all ended as the plan of all does. Where it was
/// reported as an error, all ended with that error there, if the plan does so where the error is of
/// the part's answer, and not of power or memory.
pub fn parts_in_turn<C, B, R, Q, X, Y, Z, S, E>()
    ensures value { (no_memory lost : E) (reports : X → Result Y E)
        (costs : C → Bool) (m : Machine C (λ _. R) S) (own : B → Plan C (λ _. R) Q)
        (b : B) (first : Q → Result Z E) (next : Q → Plan B (λ _. Q) X)
        (before between after : Fused S) (z : Z) (answer : Result Y E) →
        EndsInParts (reported_in_parts no_memory lost first)
        costs m own (ask b) before between (Ok z) →
        ((a : Q) → Ok z ≡ first a →
        EndsInParts (reported_in_parts no_memory lost reports)
        costs m own (next a) between after answer) →
        EndsInParts (reported_in_parts no_memory lost reports)
        costs m own (Ask b next) before after answer }
    ensures error { (no_memory lost : E) (reports : X → Result Y E)
        (costs : C → Bool) (m : Machine C (λ _. R) S) (own : B → Plan C (λ _. R) Q)
        (b : B) (first : Q → Result Z E) (next : Q → Plan B (λ _. Q) X)
        (before after : Fused S) (error : E) →
        EndsInParts (reported_in_parts no_memory lost first)
        costs m own (ask b) before after (Err error) →
        ((a : Q) → Err error ≡ first a →
        EndsInParts (reported_in_parts no_memory lost reports)
        costs m own (next a) after after (Err error)) →
        EndsInParts (reported_in_parts no_memory lost reports)
        costs m own (Ask b next) before after (Err error) }
{}
