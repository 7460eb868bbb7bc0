//! A verifier of quotes: whether a quote of register 17 is that of a session that one describes,
//! by its image, the texts of its code, what went in and came out, how it ended, and the nonce.
//! No call allocates, and none has a refusal.
#![tactic(auto)]

mod check;
mod laws;

pub use check::Check;
pub use laws::{chain_law, value_law};
