//! The hashes of a key, from which its probes follow (double hashing: Kirsch and Mitzenmacher, "Less hashing, same
//! performance", 2006).

ghost use Rattle.std.specs.Prelude.{◌≡◌, ℕ, ◌+◌, ◌*◌, ◌%◌, ◌<◌};
ghost use Rattle.bloom_bits.specs.Hash.{mix as mixed, wrapped_sum, first_hash, probe_step};

const GAMMA: u64 = 0x9E37_79B9_7F4A_7C15;

const FIRST_FACTOR: u64 = 0xBF58_476D_1CE4_E5B9;

const SECOND_FACTOR: u64 = 0x94D0_49BB_1331_11EB;

/// The output step of SplitMix64 (Steele, Lea and Flood, "Fast splittable pseudorandom number generators", 2014): a
/// bijection of the numbers of 64 bits that spreads each bit over all.
#[tactic(auto, unfolding(crate::specs::Hash::mix))]
pub fn mix(z: u64) -> u64
    ensures { result ≡ mixed z }
{
    let first = (z ^ (z >> 30)).wrapping_mul(FIRST_FACTOR);
    let second = (first ^ (first >> 27)).wrapping_mul(SECOND_FACTOR);
    second ^ (second >> 31)
}

/// Where the probes of one key stand, for any number of bits.
#[derive(Clone, Copy)]
pub struct Probes {
    pub first: u64,
    pub step: u64,
}

impl Probes {
    #[tactic(auto, unfolding(crate::specs::Hash::first_hash, crate::specs::Hash::probe_step))]
    pub fn of_key(key: u64) -> Probes
        ensures first { result.first ≡ first_hash key }
        ensures step { result.step ≡ probe_step key }
    {
        let first = mix(key.wrapping_add(GAMMA));
        Probes {
            first,
            step: mix(first.wrapping_add(GAMMA)) | 1,
        }
    }

    /// The bit of probe `j` among so many bits.
    #[inline]
    pub fn at(&self, j: u64, bits: u64) -> u64
        requires { 0 < bits }
        ensures { result ≡ wrapped_sum self.now.first (j * self.now.step) % bits }
    {
        self.first.wrapping_add(j.wrapping_mul(self.step)) % bits
    }
}
