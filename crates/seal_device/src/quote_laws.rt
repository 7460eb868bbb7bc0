// Laws of quotes and of what a check says of them. Each function does nothing: its clauses are laws,
// which are proved because they stand here.
ghost use Rattle.std.specs.Prelude.{◌≡◌, ◌≢◌, ◌↔◌, ℕ, List, Bool, true, Some, Ok, Contains};
ghost use Rattle.flk_base.specs.Plan.{Plan};
ghost use Rattle.flk_base.specs.Stop.{Fused, fused};
ghost use Rattle.tpm_state.specs.Chain.{Chain};
ghost use Rattle.seal_device.specs.Keys.{Keys};
ghost use Rattle.seal_device.specs.Quoted.{Quoted, quote_bytes};
ghost use Rattle.seal_device.specs.Quoting.{new_quote, with_quote};
ghost use Rattle.seal_device.specs.Commands.{Command, Reply, act, costs};
ghost use Rattle.seal_device.specs.Digests.{DigestDevice, digests};
ghost use Rattle.seal_device.specs.Lists.{ListDevice, lists, same_quote};

/// What a check says of a quote. A device of lists keeps each quote that it makes, with register 17's
/// chain as it stands then and the nonce, whatever is done after it, and wherever the power is lost;
/// no other command adds one. It says yes of bytes exactly where they are those of a quote that it
/// keeps, of the chain and for the nonce that are claimed. A device of digests says yes exactly where
/// they are the quote of the chain's value for the nonce.
pub fn quote_law<X>()
    ensures quoted { (d : ListDevice) (keys : Keys) (nonce : List ℕ) → d.keys ≡ Some keys →
        let q = new_quote lists nonce d in
        act lists (Command.Quote nonce) d ≡ (with_quote lists q d, Ok (quote_bytes keys q)) }
    ensures kept { (q : Quoted Chain) (plan : Plan Command Reply X) (before : Fused ListDevice) →
        Contains before.state.made.quotes q →
        Contains (fused costs (act lists) plan before).0.state.made.quotes q }
    ensures only { (c : Command) (d : ListDevice) → ((nonce : List ℕ) → c ≢ Command.Quote nonce) →
        (act lists c d).0.made.quotes ≡ d.made.quotes }
    ensures says { (d : ListDevice) (keys : Keys) (claim : Quoted Chain) (bytes : List ℕ) →
        d.keys ≡ Some keys →
        ((act lists (Command.Check claim bytes) d).1 ≡ Ok true)
        ↔ (Contains d.made.quotes claim × (quote_bytes keys claim ≡ bytes)) }
    ensures by_digests { (d : DigestDevice) (keys : Keys) (claim : Quoted Chain) (bytes : List ℕ) →
        d.keys ≡ Some keys →
        ((act digests (Command.Check claim bytes) d).1 ≡ Ok true)
        ↔ (quote_bytes keys claim ≡ bytes) }
    ensures same { (one other : Quoted Chain) → (same_quote one other ≡ true) ↔ (one ≡ other) }
{}
