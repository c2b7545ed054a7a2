// Hardware addresses.
ghost use Rattle.std.specs.Prelude.{◌≡◌, ◌<◌, ◌^◌, SomeIff};
ghost use Rattle.fib_addr.specs.Texts.{mac_number};

use std::marker::Model;

/// A hardware address of 48 bits (IEEE 802 MAC-48), as a number whose highest byte is written first.
#[derive(Clone, Copy, Debug, PartialEq, Eq, PartialOrd, Ord, Hash)]
pub struct Mac {
    number: u64,
}

impl Model for Mac {
    ghost use Rattle.std.specs.Prelude.{ℕ, ◌<◌, ◌^◌};

    ghost Value = { ℕ };

    ghost view = { λ m. m.number };

    ghost invariant = { λ m. m.number < 2 ^ 48 };

    ghost inverse = { λ n. record { number = n } };
}

impl Mac {
    /// The address of that number; None exactly where the number is 2^48 or more.
    pub fn new(bits: u64) -> Option<Mac>
        ensures { SomeIff result (bits < 2 ^ 48) bits }
    {
        if bits < 1 << 48 {
            Some(Mac { number: bits })
        } else {
            None
        }
    }

    /// The address of six bytes as they are written: the three of the maker, then the three of the device.
    pub fn of_bytes(high: [u8; 3], low: [u8; 3]) -> Mac
        ensures { result ≡ mac_number high low }
    {
        let [a, b, c] = high;
        let [d, e, f] = low;
        let number = u64::from_be_bytes([0, 0, a, b, c, d, e, f]);
        Mac { number }
    }

    /// Its number, below 2^48.
    pub fn bits(&self) -> u64
        ensures value { result ≡ self.now }
        ensures bound { result < 2 ^ 48 }
    {
        self.number
    }
}
