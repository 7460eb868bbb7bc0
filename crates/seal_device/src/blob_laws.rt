// Laws of blobs and of what they open to. Each function does nothing: its clauses are laws, which
// are proved because they stand here.
ghost use Rattle.std.specs.Prelude.{◌≡◌, ◌≢◌, ◌↔◌, ◌<◌, ◌≤◌, List, ℕ, Bool, length, Option, Some};
ghost use Rattle.std.specs.Prelude.{Ok, Err, IsTrue, Contains, if◌then◌else◌};
ghost use Rattle.std.specs.Option.{ok_or};
ghost use Rattle.flk_base.specs.Plan.{Plan};
ghost use Rattle.flk_base.specs.Stop.{Limit, with_fuse, fused};
ghost use Rattle.tpm_state.specs.Chain.{Chain};
ghost use Rattle.tpm_state.specs.Counters.{read};
ghost use Rattle.seal_device.specs.Keys.{Keys};
ghost use Rattle.seal_device.specs.Sealed.{Bearing, Sealed, InRange};
ghost use Rattle.seal_device.specs.Bearings.{bearing, counter_stands, awaited};
ghost use Rattle.seal_device.specs.Blobs.{blob, blob_size, tag_ok, parsed};
ghost use Rattle.seal_device.specs.Sealing.{present_chain};
ghost use Rattle.seal_device.specs.Commands.{Command, Reply, act, costs};
ghost use Rattle.seal_device.specs.Ledger.{Ledger};
ghost use Rattle.seal_device.specs.Lists.{ListDevice, lists, same_chain, blob_of, OpensTo};
ghost use Rattle.seal_device.specs.Agreement.{Noted};
ghost use Rattle.seal_device.specs.Refusals.Unseal as unseals;

/// The blob of a record whose numbers are in range, and whose value of register 17 has 20 bytes,
/// has the form and the tag, and is read as that record. So it determines its record. It has 59
/// bytes more than were sealed.
pub fn blob_law()
    ensures tag { (keys : Keys) (r : Sealed (List ℕ)) → InRange r → length r.chain ≡ 20 →
        IsTrue (tag_ok keys (blob keys r)) }
    ensures read { (keys : Keys) (r : Sealed (List ℕ)) → InRange r → length r.chain ≡ 20 →
        parsed keys (blob keys r) ≡ Some r }
    ensures determines { (keys : Keys) (r s : Sealed (List ℕ)) → InRange r → InRange s →
        length r.chain ≡ 20 → length s.chain ≡ 20 → blob keys r ≡ blob keys s → r ≡ s }
    ensures length { (keys : Keys) (r : Sealed (List ℕ)) → length r.chain ≡ 20 →
        length (blob keys r) ≡ blob_size (length r.bytes) }
{}

/// What a blob opens to on a device of lists. Where sealing bytes gave a blob, then after whatever
/// else is done, and wherever the power is lost in it: in any chain of register 17 but that in
/// which it stood then, the blob is refused for that. In that chain it opens to these bytes where
/// the counter that it bears, if it bears one, has the value that it bears; where it has another,
/// it is refused for that. It is tried for the next value of its counter in the same way. Once the
/// counter has passed the value, the blob never opens again, whatever is done and in whatever
/// chain, and is never again the next one; once the counter has reached it, the blob is never again
/// the next one. Bytes that are no blob of a record that the device keeps are no blob to it. And
/// what opens is such a record.
pub fn opening_law<X>()
    ensures opens { (d : ListDevice) (ledger : Ledger) (bytes : List ℕ) (counter : Option ℕ)
        (ahead : Bool) (blob : List ℕ) (borne : Option Bearing) (plan : Plan Command Reply X)
        (fuse : Limit) →
        Noted d ledger → (act lists (Command.Seal bytes counter ahead) d).1 ≡ Ok blob →
        bearing d.counters counter ahead ≡ Ok borne →
        let sealed = (act lists (Command.Seal bytes counter ahead) d).0 in
        let later = (fused costs (act lists) plan (with_fuse sealed fuse)).0.state in
        present_chain lists later ≡ present_chain lists d →
        act lists (Command.Unseal blob) later ≡ (
          later,
          (if counter_stands later.counters borne then Ok bytes else Err unseals.WrongCounter),
        ) }
    ensures tried { (d : ListDevice) (ledger : Ledger) (bytes : List ℕ) (counter : Option ℕ)
        (ahead : Bool) (blob : List ℕ) (borne : Option Bearing) (plan : Plan Command Reply X)
        (fuse : Limit) →
        Noted d ledger → (act lists (Command.Seal bytes counter ahead) d).1 ≡ Ok blob →
        bearing d.counters counter ahead ≡ Ok borne →
        let sealed = (act lists (Command.Seal bytes counter ahead) d).0 in
        let later = (fused costs (act lists) plan (with_fuse sealed fuse)).0.state in
        present_chain lists later ≡ present_chain lists d →
        act lists (Command.CheckNext blob) later
        ≡ (later, ok_or (awaited later.counters borne) unseals.WrongCounter) }
    ensures wrong_chain { (d : ListDevice) (ledger : Ledger) (bytes : List ℕ) (counter : Option ℕ)
        (ahead : Bool) (blob : List ℕ) (plan : Plan Command Reply X) (fuse : Limit) →
        Noted d ledger → (act lists (Command.Seal bytes counter ahead) d).1 ≡ Ok blob →
        let sealed = (act lists (Command.Seal bytes counter ahead) d).0 in
        let later = (fused costs (act lists) plan (with_fuse sealed fuse)).0.state in
        present_chain lists later ≢ present_chain lists d →
        (act lists (Command.Unseal blob) later ≡ (later, Err unseals.WrongChain))
        × (act lists (Command.CheckNext blob) later ≡ (later, Err unseals.WrongChain)) }
    ensures passed { (d : ListDevice) (ledger : Ledger) (bytes : List ℕ) (counter : Option ℕ)
        (ahead : Bool) (blob : List ℕ) (b : Bearing) (value : ℕ)
        (plan more : Plan Command Reply X) (fuse fuse' : Limit) →
        Noted d ledger → (act lists (Command.Seal bytes counter ahead) d).1 ≡ Ok blob →
        bearing d.counters counter ahead ≡ Ok (Some b) →
        let sealed = (act lists (Command.Seal bytes counter ahead) d).0 in
        let between = (fused costs (act lists) plan (with_fuse sealed fuse)).0.state in
        let later = (fused costs (act lists) more (with_fuse between fuse')).0.state in
        read b.id between.counters ≡ Ok value → b.value < value →
        ((content : List ℕ) → (act lists (Command.Unseal blob) later).1 ≢ Ok content)
        × ((id : ℕ) → (act lists (Command.CheckNext blob) later).1 ≢ Ok id) }
    ensures reached { (d : ListDevice) (ledger : Ledger) (bytes : List ℕ) (counter : Option ℕ)
        (ahead : Bool) (blob : List ℕ) (b : Bearing) (value : ℕ)
        (plan more : Plan Command Reply X) (fuse fuse' : Limit) →
        Noted d ledger → (act lists (Command.Seal bytes counter ahead) d).1 ≡ Ok blob →
        bearing d.counters counter ahead ≡ Ok (Some b) →
        let sealed = (act lists (Command.Seal bytes counter ahead) d).0 in
        let between = (fused costs (act lists) plan (with_fuse sealed fuse)).0.state in
        let later = (fused costs (act lists) more (with_fuse between fuse')).0.state in
        read b.id between.counters ≡ Ok value → b.value ≤ value →
        (id : ℕ) → (act lists (Command.CheckNext blob) later).1 ≢ Ok id }
    ensures not_blob { (d : ListDevice) (keys : Keys) (bytes : List ℕ) → d.keys ≡ Some keys →
        ((r : Sealed Chain) → Contains d.made.records r → blob_of keys r ≢ bytes) →
        (act lists (Command.Unseal bytes) d ≡ (d, Err unseals.NotBlob))
        × (act lists (Command.CheckNext bytes) d ≡ (d, Err unseals.NotBlob)) }
    ensures opened { (d : ListDevice) (bytes content : List ℕ) →
        (act lists (Command.Unseal bytes) d).1 ≡ Ok content → OpensTo d bytes content }
    ensures same { (one other : Chain) → IsTrue (same_chain one other) ↔ (one ≡ other) }
{}
