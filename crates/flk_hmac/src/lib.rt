//! HMAC-SHA-1 (RFC 2104), of a text in one call or in pieces, and what is made from it: a mask of
//! bytes, and quotes. No call allocates, and none has a refusal.
#![tactic(auto)]

mod comparing;
mod hmac;
mod masking;
mod quotes;

pub use comparing::is_same;
pub use hmac::{Hmac, derive, mac};
pub use masking::{mask, mask_law};
pub use quotes::quote_of;
