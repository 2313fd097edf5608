//! A hash of bytes.

ghost use Rattle.std.specs.Prelude.{◌≡◌};
ghost use Rattle.pm_words.specs.Hash.{fnv64_of};

const BASIS: u64 = 14_695_981_039_346_656_037;

const PRIME: u64 = 1_099_511_628_211;

/// The FNV-1a hash of 64 bits.
pub fn fnv64(bytes: &[u8]) -> u64
    ensures hash { result ≡ fnv64_of bytes.now }
{
    let mut hash = BASIS;
    for &byte in bytes {
        hash = (hash ^ u64::from(byte)).wrapping_mul(PRIME);
    }
    hash
}
