// An address, and a prefix of addresses.
ghost use Rattle.std.specs.Prelude.{◌≡◌, ℕ, ◌+◌, ◌-◌, ◌*◌, ◌/◌, ◌≤◌, ◌<◌};
ghost use Rattle.fib_addr.specs.Prefixes.{masked, contains, host, size_of, nibble, IsPrefix};

use std::marker::Model;

/// An IPv4 address (RFC 791), ordered by its number; the first written byte is the highest.
#[derive(Clone, Copy, Debug, PartialEq, Eq, PartialOrd, Ord, Hash)]
pub struct Addr(pub u32);

impl Model for Addr {
    ghost use Rattle.std.specs.Prelude.{ℕ};

    ghost Value = { ℕ };

    ghost view = { λ a. a.0 };

    ghost inverse = { λ n. record { 0 = n } };
}

/// The addresses that share their first bits: the bits, with every bit past the length cleared, and a length of at most 32.
///
/// Prefixes are ordered by their bits, then by their length.
#[derive(Clone, Copy, Debug, PartialEq, Eq, PartialOrd, Ord, Hash)]
pub struct Prefix {
    start: Addr,
    length: u8,
}

impl Model for Prefix {
    ghost use Rattle.fib_addr.specs.Prefixes.{Prefix as PrefixValue, IsPrefix};

    ghost Value = { PrefixValue };

    ghost view = { λ p. record { bits = p.start; len = p.length } };

    ghost invariant = { λ p. IsPrefix (record { bits = p.start; len = p.length }) };

    ghost inverse = { λ v. record { start = v.bits; length = v.len } };
}

impl Prefix {
    /// The prefix of this length that contains the address: the bits past `len` are cleared.
    pub fn masked(addr: Addr, len: u8) -> Prefix
        requires { len ≤ 32 }
        ensures { result ≡ masked addr len }
    {
        Prefix {
            start: Addr(cleared(addr.0, len)),
            length: len,
        }
    }

    /// The prefix of this address alone, of length 32.
    pub fn host(addr: Addr) -> Prefix
        ensures { result ≡ host addr }
    {
        Prefix {
            start: addr,
            length: 32,
        }
    }

    /// Its lowest address.
    pub fn bits(&self) -> Addr
        ensures { result ≡ self.now.bits }
    {
        self.start
    }

    /// Its length in bits, at most 32. A caller learns from it that the value is a prefix.
    pub fn len(&self) -> u8
        ensures value { result ≡ self.now.len }
        ensures bound { result ≤ 32 }
        ensures prefix { IsPrefix self.now }
    {
        self.length
    }

    /// Its highest address.
    pub fn last(&self) -> Addr
        ensures { result ≡ self.now.bits + size_of self.now.len - 1 }
    {
        Addr(highest(self.start.0, self.length))
    }

    /// Whether the address is one of it.
    pub fn contains(&self, addr: Addr) -> bool
        ensures { result ≡ contains self.now addr }
    {
        let size = 1u64 << (32 - self.length);
        u64::from(addr.0) / size == u64::from(self.start.0) / size
    }
}

/// The bits without those past the length.
fn cleared(bits: u32, len: u8) -> u32
    requires { len ≤ 32 }
    ensures { result ≡ bits / size_of len * size_of len }
{
    let size = 1u64 << (32 - len);
    (u64::from(bits) / size * size) as u32
}

/// The highest address of the prefix that begins there.
fn highest(bits: u32, len: u8) -> u32
    requires { IsPrefix (record { bits = bits; len = len }) }
    ensures { result ≡ bits + size_of len - 1 }
{
    let size = 1u64 << (32 - len);
    (u64::from(bits) + size - 1) as u32
}

/// The depth-th group of four bits of the address from the left, for a depth from 0 to 7.
pub fn nibble(addr: Addr, depth: u8) -> u8
    requires { depth < 8 }
    ensures value { result ≡ nibble addr depth }
    ensures bound { result < 16 }
{
    let size = 1u64 << (28 - 4 * depth);
    (u64::from(addr.0) / size % 16) as u8
}
