//! The filter: a run of bits, of which six are set for each key.

ghost use Rattle.std.specs.Prelude.{◌≡◌, ℕ, ◌+◌, ◌*◌, ◌/◌, ◌%◌, ◌^◌, ◌<◌, ◌≤◌, ◌==◌, ◌||◌, ◌↔◌, length, IsTrue, IfOk, OnOk, IsErrOf, All};
ghost use Rattle.bloom_bits.specs.Filter.{bits_for as filter_bits, bit_count, IsFilterOf, is_set as has_bit, is_probe, IsFilter, MayHave, HoldsExactly};
ghost use Rattle.std.specs.List.{list_any};

use crate::hash::Probes;
use std::alloc::{AllocError, Global};
use std::error::Error;
use std::fmt;
use std::marker::Model;

/// How many bits are set for a key.
pub const PROBES: u64 = 6;

/// The fewest bits of a filter.
pub const FEWEST_BITS: u64 = 64;

/// How many bits a key adds to a filter. With six probes about 0.9 % of absent keys are taken for present ones.
pub const BITS_A_KEY: u64 = 10;

/// The keys of a filter are fewer, so that the number of its bits is a `u32`.
pub const KEY_LIMIT: usize = 1 << 28;

const BYTE_BITS: u64 = 8;

/// The number of bits of a filter of so many keys: ten a key in whole bytes, and never below 64.
pub fn bits_for(keys: u32) -> u64
    ensures { result ≡ filter_bits keys }
{
    let bits = BITS_A_KEY * u64::from(keys);
    FEWEST_BITS.max(bits.div_ceil(BYTE_BITS) * BYTE_BITS)
}

/// Why bytes are no filter.
#[derive(Clone, Copy, Debug, PartialEq, Eq)]
pub enum BloomFault {
    /// Fewer than 64 bits, or not eight times as many as bytes.
    BadBloom,
    OutOfMemory,
}

impl fmt::Display for BloomFault {
    ghost use Rattle.std.specs.Prelude.{Some};
    ghost use Rattle.bloom_bits.specs.Fault.{fault_text};

    ghost output = { λ fault. Some (fault_text fault) };

    fn fmt<W: fmt::Write>(&self, f: &mut fmt::Formatter<W>) -> fmt::Result {
        match self {
            BloomFault::BadBloom => write!(f, "not the bits of a filter"),
            BloomFault::OutOfMemory => write!(f, "out of memory"),
        }
    }
}

impl Error for BloomFault {}

impl From<AllocError> for BloomFault {
    ghost use Rattle.std.specs.Prelude.{◌≡◌};
    ghost use Rattle.bloom_bits.specs.declared.filter.BloomFault.TheVariants.{OutOfMemory};

    ghost from_gives = { λ _ fault. fault ≡ OutOfMemory };

    fn from(_error: AllocError) -> BloomFault {
        BloomFault::OutOfMemory
    }
}

/// A filter, seen as its bytes. It never denies a key that was added; of other keys it denies nearly all.
#[derive(Debug, Drop)]
pub struct Bloom {
    bytes: Vec<u8>,
}

impl Model for Bloom {
    ghost use Rattle.std.specs.Prelude.{ℕ, List};
    ghost use Rattle.bloom_bits.specs.Filter.{IsFilter};

    ghost Value = { List ℕ };

    ghost view = { λ filter. filter.bytes.items };

    ghost invariant = { λ filter. IsFilter filter.bytes.items };
}

impl Bloom {
    /// The filter of these keys. Only want of memory refuses it.
    pub fn build(alloc: Global, keys: &[u64]) -> Result<Bloom, AllocError>
        requires { length keys.now < KEY_LIMIT }
        ensures bits { IfOk result (λ filter. bit_count filter ≡ filter_bits (length keys.now)) }
        ensures exact { IfOk result (HoldsExactly keys.now) }
        ensures added { IfOk result (λ filter. All (MayHave filter) keys.now) }
    {
        let bytes = filter_bytes(alloc, keys)?;
        Ok(Bloom { bytes })
    }

    /// False only for a key that was not added: it is true exactly where the six probes of the key are set.
    pub fn maybe(&self, key: u64) -> bool
        ensures { IsTrue result ↔ MayHave self.now key }
    {
        may_have(&self.bytes, key)
    }

    /// How many bits the filter has, set or not.
    pub fn bits(&self) -> u32
        ensures bits { result ≡ bit_count self.now }
    {
        self.bytes.len() as u32 * 8
    }

    /// The bytes that a device keeps; `decode` gives the filter back.
    pub fn bytes(&self) -> &[u8]
        ensures bytes { result.now ≡ self.now }
        ensures filter { IsFilter self.now }
    {
        &self.bytes
    }

    /// The filter that these bytes were of.
    pub fn decode(alloc: Global, bytes: &[u8], bits: u32) -> Result<Bloom, BloomFault>
        ensures same { IfOk result (λ filter. filter ≡ bytes.now) }
        ensures sound { OnOk result (IsFilterOf bits bytes.now) }
        ensures bad { IsErrOf result BloomFault.BadBloom ↔ ¬ (IsFilterOf bits bytes.now) }
    {
        let bits = u64::from(bits);
        if bits < FEWEST_BITS || bits % BYTE_BITS != 0 || bits / BYTE_BITS != bytes.len() as u64 {
            return Err(BloomFault::BadBloom);
        }
        Ok(Bloom {
            bytes: Vec::from_slice(alloc, bytes)?,
        })
    }
}

// Whether a bit is set.
#[inline]
fn is_set(bytes: &[u8], bit: u64) -> bool
    requires { bit < bit_count bytes.now }
    ensures { result ≡ has_bit bytes.now bit }
{
    bytes[(bit / BYTE_BITS) as usize] >> (bit % BYTE_BITS) & 1 == 1
}

// Sets a bit; all others stay.
#[inline]
fn set_bit(bytes: &mut [u8], bit: u64)
    requires { bit < bit_count bytes.old }
    ensures { (b : ℕ) → has_bit bytes.new b ≡ (has_bit bytes.old b || b == bit) }
{
    bytes[(bit / BYTE_BITS) as usize] |= 1 << (bit % BYTE_BITS);
}

// Whether all probes of the key are set: it ends at the first that is not.
#[inline]
fn may_have(bytes: &[u8], key: u64) -> bool
    requires { IsFilter bytes.now }
    ensures { IsTrue result ↔ MayHave bytes.now key }
{
    let bits = bytes.len() as u64 * BYTE_BITS;
    let probes = Probes::of_key(key);
    for j in 0..PROBES {
        if !is_set(bytes, probes.at(j, bits)) {
            return false;
        }
    }
    true
}

// Sets the probes of one key.
fn add_key(bytes: &mut [u8], key: u64)
    requires { IsFilter bytes.old }
    ensures { (b : ℕ) → has_bit bytes.new b ≡ (has_bit bytes.old b || is_probe PROBES key (bit_count bytes.old) b) }
{
    let bits = bytes.len() as u64 * BYTE_BITS;
    let probes = Probes::of_key(key);
    for number in 0..PROBES {
        set_bit(bytes, probes.at(number, bits));
    }
}

// Sets the probes of each key.
fn add_keys(bytes: &mut [u8], keys: &[u64])
    requires { IsFilter bytes.old }
    ensures { (b : ℕ) → has_bit bytes.new b ≡ (has_bit bytes.old b || list_any (λ key. is_probe PROBES key (bit_count bytes.old) b) keys.now) }
{
    for key in keys {
        add_key(bytes, *key);
    }
}

// The bytes of the filter of these keys.
fn filter_bytes(alloc: Global, keys: &[u64]) -> Result<Vec<u8>, AllocError>
    requires { length keys.now < KEY_LIMIT }
    ensures bits { IfOk result (λ bytes. bit_count bytes.items ≡ filter_bits (length keys.now)) }
    ensures exact { IfOk result (λ bytes. HoldsExactly keys.now bytes.items) }
{
    let bits = bits_for(keys.len() as u32);
    let mut bytes = vec![in alloc; 0; (bits / BYTE_BITS) as usize]?;
    add_keys(&mut bytes, keys);
    Ok(bytes)
}
