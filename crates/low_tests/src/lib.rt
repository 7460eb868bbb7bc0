//! Tests of the crates at the bottom: flk_base, flk_hmac, tpm_state, quote_check, seal_device and
//! slb_image, by their public calls alone. Each row is a function to `bool`, and each test a loop
//! over rows.
#![tactic(auto)]

#[cfg(test)]
mod blobs;
#[cfg(test)]
mod bytes;
#[cfg(test)]
mod counters;
#[cfg(test)]
mod device;
#[cfg(test)]
mod device_calls;
#[cfg(test)]
mod edges;
#[cfg(test)]
mod images;
#[cfg(test)]
mod macs;
#[cfg(test)]
mod quotes;
#[cfg(test)]
mod registers;
#[cfg(test)]
mod streams;
