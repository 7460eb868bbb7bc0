// What a check tells of the commands before it (specs/Histories). The function does nothing: its
// clauses are laws, which are proved because they stand here.
ghost use Rattle.std.specs.Prelude.{◌≡◌, ◌↔◌, true, List, ℕ, Some, Ok};
ghost use Rattle.tpm_state.specs.Sessions.{Session, session_chain};
ghost use Rattle.seal_device.specs.Keys.{Keys};
ghost use Rattle.seal_device.specs.Quoted.{Quoted, quote_bytes};
ghost use Rattle.seal_device.specs.Commands.{Command, act, blank};
ghost use Rattle.seal_device.specs.Lists.{lists};
ghost use Rattle.run_laws.specs.Histories.{device_after, quote_of_session, HeldAndQuoted};

/// What a yes to a check tells of all commands that a device was given since it was new, by lists:
/// they launched the session's image, extended register 17 by the texts of its code and then by those
/// with which it closes, by nothing else and with no launch or power-on between, and then quoted
/// register 17 for the nonce; and the bytes are that quote's. Where they did so, and the bytes are
/// these, the answer is yes.
pub fn check_law()
    ensures says { (commands : List Command) (keys : Keys) (s : Session) (nonce bytes : List ℕ) →
        (device_after (blank lists) commands).keys ≡ Some keys →
        ((act lists (Command.Check (quote_of_session s nonce) bytes)
        (device_after (blank lists) commands)).1 ≡ Ok true)
        ↔ (HeldAndQuoted keys s nonce commands
        × (quote_bytes keys (quote_of_session s nonce) ≡ bytes)) }
{}
