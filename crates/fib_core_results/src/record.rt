// What a pass answers.
ghost use Rattle.std.specs.Prelude.{◌≡◌};
ghost use Rattle.fib_core_results.specs.Trails.{version_at};
ghost use Rattle.fib_core_results.specs.Versions.{packed, unpacked};

use fib_addr::Addr;
use fib_resolve::End;

/// The tables' version: the numbers of the last settled and of the last accepted change. The fresh tables are number 0.
#[derive(Clone, Copy, Debug, PartialEq, Eq)]
pub struct Version {
    pub settled: u32,
    pub applied: u32,
}

impl Version {
    /// The version after that many changes, all of them settled.
    pub fn settled_at(changes: u32) -> Version
        ensures { result ≡ version_at changes }
    {
        Version {
            settled: changes,
            applied: changes,
        }
    }

    /// The version as one word: `settled` in its upper 32 bits, `applied` in its lower.
    #[tactic(auto, using(crate::proofs::Versions::unpacked_packed), unfolding(crate::specs::Versions::packed))]
    pub fn encode(self) -> u64
        ensures code { result ≡ packed self }
        ensures read_back { unpacked result ≡ self }
    {
        self.settled as u64 * 0x1_0000_0000 + self.applied as u64
    }

    /// The version of such a word.
    #[tactic(auto, unfolding(crate::specs::Versions::unpacked))]
    pub fn decode(word: u64) -> Version
        ensures { result ≡ unpacked word }
    {
        Version {
            settled: (word / 0x1_0000_0000) as u32,
            applied: (word % 0x1_0000_0000) as u32,
        }
    }
}

/// What a pass answers for a packet to `addr` with that flow hash.
#[derive(Clone, Copy, Debug, PartialEq, Eq)]
pub struct Record {
    pub addr: Addr,
    pub hash: u32,
    /// The version that the worker knew as it loaded its first cell.
    pub lo: Version,
    /// The version that it loaded after its last cell.
    pub hi: Version,
    /// Where the packet ends.
    pub end: End,
}
