// What comes of a change of the tables.
ghost use Rattle.std.specs.Prelude.{◌≡◌};

use fib_addr::Prefix;
use fib_base_list::List;
use std::alloc::AllocError;
use std::marker::Model;

/// The prefixes that a change touches: those of which pairs, cover, a mark of a loop, a met need, or the flag or the MAC of an end differ.
/// Each stands once, and is an entry before or after. Contracts see the list.
#[derive(Drop)]
pub struct Touched {
    held: List<Prefix>,
}

impl Model for Touched {
    ghost use Rattle.std.specs.Prelude.{List as Items};
    ghost use Rattle.fib_addr.specs.Prefixes.{Prefix as PrefixValue};

    ghost Value = { Items PrefixValue };

    ghost view = { λ s. s.held };
}

impl Touched {
    /// These prefixes.
    pub fn of(list: List<Prefix>) -> Touched
        ensures { result ≡ list }
    {
        Touched { held: list }
    }

    /// The touched prefixes.
    pub fn list(&self) -> &[Prefix]
        ensures { result.now ≡ self.now }
    {
        self.held.as_slice()
    }
}

/// A prefix that has another rank than before, and the rank that it had: 0 where it was no entry.
#[derive(Clone, Copy, Debug)]
pub struct Moved {
    pub prefix: Prefix,
    pub rank: u32,
}

/// What comes of a change: what it touches, and what has another rank.
#[derive(Drop)]
pub struct Followed {
    pub touched: Touched,
    pub moved: List<Moved>,
}

/// Why a change was not followed.
#[derive(Clone, Copy, PartialEq, Eq, Debug)]
pub enum FollowError {
    /// The size of the tables, which is above the most that is allowed.
    TooMany(u32),
    /// There was no memory for the entries.
    Memory,
}

impl From<AllocError> for FollowError {
    ghost use Rattle.fib_entries_rows.specs.declared.changes.FollowError.TheVariants.{Memory};

    ghost from_gives = { λ _ e. e ≡ Memory };

    fn from(_: AllocError) -> FollowError {
        FollowError::Memory
    }
}
