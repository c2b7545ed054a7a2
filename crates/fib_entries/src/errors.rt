// Why a change of the tables is not made.
use fib_resolve::Refusal;

/// Why a change of the tables was not made.
#[derive(Clone, Copy, Debug, PartialEq, Eq)]
pub enum ChangeError {
    /// The edit is refused, whatever room its tables have, with the first reason that applies.
    Refused(Refusal),
    /// The edit isn't refused so, but its tables take more objects than are allowed: how many, at most 2 ^ 32 - 1.
    TooMany(u32),
    /// There was no memory.
    Memory,
}
