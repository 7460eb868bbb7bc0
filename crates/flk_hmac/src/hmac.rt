//! HMAC-SHA-1 (RFC 2104).
ghost use Rattle.std.specs.Prelude.{◌≡◌, ℕ, ◌-◌, ◌≤◌, List, [], ◌++◌, length, replicate};
ghost use Rattle.flk_hmac.specs.Hmac.{Holds, block_key, padded_block, mac, derive};

use sha1::Sha1;

const BLOCK_LEN: usize = 64;

// The pad bytes of the inner and of the outer hash.
const IPAD: u8 = 0x36;

const OPAD: u8 = 0x5c;

/// A key of at most a block, with zeros after it.
fn zero_padded_key(key: &[u8]) -> [u8; BLOCK_LEN]
    requires { length key.now ≤ 64 }
    ensures { result ≡ key.now ++ replicate (64 - length key.now) 0 }
{
    let mut block = [0; BLOCK_LEN];
    block[..key.len()].copy_from_slice(key);
    block
}

/// The key as one block.
#[tactic(auto, unfolding(crate::specs::Hmac::block_key))]
fn key_block(key: &[u8]) -> [u8; BLOCK_LEN]
    ensures { result ≡ block_key key.now }
{
    if key.len() > BLOCK_LEN {
        zero_padded_key(&Sha1::digest(key))
    } else {
        zero_padded_key(key)
    }
}

/// The block with each byte exclusive-or the pad byte.
#[tactic(auto, unfolding(crate::specs::Hmac::padded_block))]
fn padded_block(block: &[u8; BLOCK_LEN], pad: u8) -> [u8; BLOCK_LEN]
    ensures { result ≡ padded_block block.now pad }
{
    let mut out = *block;
    for byte in out.iter_mut() {
        *byte ^= pad;
    }
    out
}

/// HMAC-SHA-1 of a text that comes in pieces: `new` with the key, an `update` for each piece, and
/// `finish`. The result is `mac` of the pieces joined.
#[derive(Drop)]
pub struct Hmac {
    block: [u8; BLOCK_LEN],
    inner: Sha1,
}

impl Hmac {
    /// The state of the empty text under a key of any length.
    pub fn new(key: &[u8]) -> Hmac
        ensures { Holds result key.now [] }
    {
        let block = key_block(key);
        let mut inner = Sha1::new();
        inner.update(&padded_block(&block, IPAD));
        Hmac { block, inner }
    }

    /// Adds a piece to the text.
    pub fn update(&mut self, bytes: &[u8])
        ensures { (key text : List ℕ) → Holds self.old key text
            → Holds self.new key (text ++ bytes.now) }
    {
        self.inner.update(bytes);
    }

    /// The HMAC of the text.
    pub fn finish(self) -> [u8; 20]
        ensures { (key text : List ℕ) → Holds self key text → result ≡ mac key text }
    {
        let mut outer = Sha1::new();
        outer.update(&padded_block(&self.block, OPAD));
        outer.update(&self.inner.finalize());
        outer.finalize()
    }
}

/// HMAC-SHA-1 of `bytes` under a key of any length.
pub fn mac(key: &[u8], bytes: &[u8]) -> [u8; 20]
    ensures { result ≡ mac key.now bytes.now }
{
    let mut hmac = Hmac::new(key);
    hmac.update(bytes);
    hmac.finish()
}

/// The key that a seed gives for a label, so that each use of one seed has a key of its own.
pub fn derive(seed: &[u8], label: &[u8]) -> [u8; 20]
    ensures { result ≡ derive seed.now label.now }
{
    mac(seed, label)
}
