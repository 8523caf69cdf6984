//! A Bloom filter over keys of 64 bits: ten bits a key, six probes (Bloom, "Space/time trade-offs in hash coding
//! with allowable errors", 1970). Its bytes are what a device keeps.
#![tactic(auto)]

mod filter;
mod hash;

pub use filter::{BITS_A_KEY, Bloom, BloomFault, FEWEST_BITS, KEY_LIMIT, PROBES, bits_for};
pub use hash::mix;
