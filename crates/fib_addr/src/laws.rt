// Laws of the definitions, each the contract of a call without a body.
ghost use Rattle.std.specs.Prelude.{◌≡◌, ℕ, List, ◌<◌, ◌^◌};
ghost use Rattle.fib_addr.specs.Prefixes.{Prefix, IsPrefix};
ghost use Rattle.fib_addr.specs.Longest.{longest, IsLongest};
ghost use Rattle.fib_addr.specs.Texts.{AddressesAreReadBack, PrefixesAreReadBack, MacsAreReadBack};

/// Each printed address is read back to its value.
pub fn addresses_are_read_back()
    ensures { AddressesAreReadBack }
{}

/// Each printed prefix is read back to its address and length.
pub fn prefixes_are_read_back()
    ensures { PrefixesAreReadBack }
{}

/// Each printed MAC is read back to its value.
pub fn macs_are_read_back()
    ensures { MacsAreReadBack }
{}

/// The longest match is one of the prefixes or that of every address, contains the address, and no prefix that does is longer.
pub fn longest_is_longest()
    ensures { (a : ℕ) (ps : List Prefix) → a < 2 ^ 32 → IsLongest a ps (longest a ps) }
{}

/// No other prefix is the longest match: of one length, one prefix contains the address.
pub fn longest_is_unique()
    ensures { (a : ℕ) (ps : List Prefix) (p q : Prefix) → IsPrefix p → IsPrefix q → IsLongest a ps p → IsLongest a ps q → p ≡ q }
{}
