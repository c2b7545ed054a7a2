// What everything of the control plane is written over.
ghost use Rattle.std.specs.Prelude.{ℕ, false, slice_index, slice_index_or, true, ◌*◌, ◌+◌, ◌<◌, ◌≡◌};
ghost use Rattle.fib_union.specs.Marks.{is_even};
ghost use Rattle.fib_core_lawful.specs.State.{left_of};
ghost use Rattle.fib_core_board.specs.Boards.{Board as Seen, board_begun, board_scanned, board_settled, board_stored, word_in};
ghost use Rattle.fib_core_board.specs.May.{MayBegin, MaySettle, MayStore};
ghost use Rattle.fib_core_board.specs.Told.{IsBoard};

use fib_core::{Version, Word};
use fib_resolve::Tables;

/// Shared words in the control plane's hands: the cells of numbered objects, sixteen each, the version, and the workers' pass words.
///
/// Every call answers, and none but those that begin or make a board takes memory. What the calls ask is the rule's: a board on which
/// workers run loses nothing by it.
pub trait Board {
    /// What contracts see.
    ghost view: { Self → Seen };

    /// What holds of every board. Does nothing.
    fn tells(&self)
        ensures { IsBoard (view self.now) };

    /// How many objects there are. The number never changes.
    fn objects(&self) -> u32
        ensures { result ≡ (view self.now).objects };

    /// How many workers there are. The number never changes.
    fn workers(&self) -> u32
        ensures { result ≡ (view self.now).workers };

    /// The version, as the control plane stored it last.
    fn version(&self) -> Version
        ensures { result ≡ (view self.now).log.version };

    /// The word in a cell.
    fn load(&self, object: u32, slot: u32) -> Word
        requires object { object < (view self.now).objects }
        requires slot { slot < 16 }
        ensures { result ≡ word_in (view self.now) (16 * object + slot) };

    /// Stores another word into a cell. The edge that it replaces is retired where passes may stand on it, and leaves at once where not.
    fn store(&mut self, object: u32, slot: u32, word: Word)
        requires slot { slot < 16 }
        requires may { MayStore (view self.old) (16 * object + slot) word }
        ensures { view self.new ≡ board_stored (view self.old) (16 * object + slot) word };

    /// Begins a version with these tables.
    fn begin_version(&mut self, next: &Tables)
        requires { MayBegin (view self.old) next.now }
        ensures { view self.new ≡ board_begun (view self.old) next.now };

    /// Settles the version: the cells stand for its tables.
    fn settle_version(&mut self)
        requires { MaySettle (view self.old) }
        ensures { view self.new ≡ board_settled (view self.old) };

    /// Loads a worker's pass word. Retired edges are marked by it, and those that are passed for all workers leave. The word
    /// is even where that worker isn't out: so once nobody is out, looks at all workers leave nothing retired.
    fn scan(&mut self, worker: u32) -> u64
        requires { worker < (view self.old).workers }
        ensures board { view self.new ≡ board_scanned worker result (view self.old) }
        ensures rests { slice_index_or (view self.old).out worker false ≡ false → is_even result ≡ true };

    /// How many passes are left to a worker: 2^63 - 1 at first. While the worker is out it is what it was when the worker left.
    fn passes_left(&self, worker: u32) -> u64
        requires { worker < (view self.now).workers }
        ensures { result ≡ left_of (slice_index (view self.now).rests worker) };
}
