// The register of a thread that says which keys are open to it.
ghost use Rattle.std.specs.Prelude.{◌≡◌, ◌≤◌};
ghost use Rattle.tr_types.specs.Permission.{has_bit as spec_bit};
ghost use Rattle.kern_model.specs.Rights as rights;

/// Key 0 alone is open.
const CLOSED: u32 = 0x5555_5554;

/// The register PKRU of a thread. For key k of 0 to 15, bit 2k forbids each access under it, and bit
/// 2k + 1 each store.
#[derive(Clone, Copy, Debug, PartialEq, Eq)]
pub struct Pkru(pub u32);

impl Pkru {
    /// As a thread starts: key 0 alone is open, which is never a coffer's.
    pub fn closed() -> Pkru
        ensures { result.0 ≡ rights.closed_pkru }
    {
        Pkru(CLOSED)
    }

    /// This key of 1 to 15 is open beside key 0, for loads and stores or for loads alone.
    pub fn only(key: u8, writable: bool) -> Pkru
        requires least { 1 ≤ key }
        requires greatest { key ≤ 15 }
        ensures { result.0 ≡ rights.only_pkru key writable }
    {
        let access = 1u32 << (2 * key);
        let stores = if writable { 0 } else { 1u32 << (2 * key + 1) };
        Pkru(CLOSED - access + stores)
    }

    /// Whether loads under this key of 0 to 15 are allowed.
    pub fn may_read(self, key: u8) -> bool
        requires { key ≤ 15 }
        ensures { result ≡ rights.may_read self.0 key }
    {
        !has_bit(self.0, 2 * key)
    }

    /// Whether stores under this key of 0 to 15 are allowed.
    pub fn may_write(self, key: u8) -> bool
        requires { key ≤ 15 }
        ensures { result ≡ rights.may_write self.0 key }
    {
        self.may_read(key) && !has_bit(self.0, 2 * key + 1)
    }
}

fn has_bit(word: u32, index: u8) -> bool
    requires { index ≤ 31 }
    ensures { result ≡ spec_bit word index }
{
    (word >> index) % 2 == 1
}
