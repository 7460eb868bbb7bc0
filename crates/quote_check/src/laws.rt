// Laws of sessions and their chains (specs/). Each function does nothing: its clauses are laws,
// which are proved because they stand here.
ghost use Rattle.std.specs.Prelude.{◌≡◌, ℕ, List, [], ◌∷◌, ◌++◌, map};
ghost use Rattle.tpm_state.specs.Chain.{Zeros, From, ◌▷◌, value, extended_value};
ghost use Rattle.tpm_state.specs.Sessions.{Session, pal_text, closing, extended_by};
ghost use Rattle.tpm_state.specs.Sessions.{running_chain, session_chain};

/// What the calls of a `Check` come to, in their order: `new`, an `extend` for each text of the
/// session's code, and the closing texts of `verdict`, give the value of the session's chain.
pub fn value_law()
    ensures begun { (image : List ℕ) →
        value (From Zeros ▷ image) ≡ value (running_chain image []) }
    ensures more { (image text : List ℕ) (texts : List (List ℕ)) →
        extended_value (value (running_chain image texts)) (pal_text text)
        ≡ value (running_chain image (texts ++ text ∷ [])) }
    ensures closed { (s : Session) →
        extended_by (value (running_chain s.image s.texts))
        (closing s.inputs s.outputs s.end s.nonce)
        ≡ value (session_chain s) }
    ensures whole { (s : Session) →
        extended_by (extended_by (value (From Zeros ▷ s.image)) (map pal_text s.texts))
        (closing s.inputs s.outputs s.end s.nonce)
        ≡ value (session_chain s) }
{}

/// A chain is that of one session: no text of the code can be taken for one of those that close
/// a session.
pub fn chain_law()
    ensures { (s t : Session) → session_chain s ≡ session_chain t → s ≡ t }
{}
