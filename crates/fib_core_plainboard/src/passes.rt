// Passes, step by step, wherever they run over a plain board.
ghost use Rattle.std.specs.Prelude.{IfNone, IfSome, IsTrue, None, Some, ℕ, slice_index, slice_index_or, false, ◌<◌, ◌↔◌, ◌≡◌};
ghost use Rattle.fib_resolve.specs.declared.types.End.{End as Ending};
ghost use Rattle.fib_core_results.specs.Steady.{IsSteady};
ghost use Rattle.fib_core_results.specs.Trails.{IsRecordOk};
ghost use Rattle.fib_core.specs.Trails.{Follows};
ghost use Rattle.fib_core_lawful.specs.State.{left_of};
ghost use Rattle.fib_core_board.specs.Boards.{Board, Pass};
ghost use Rattle.fib_core_plainboard.specs.Passes.{FoundEdge, HasEnd, IsAlong, IsOnItsWay, IsRunning};
ghost use Rattle.fib_core_plainboard.specs.Passes.{answer_of, hopped_on, loads_in, pass_begun, pass_ended, pass_of};

use fib_addr::Addr;
use fib_core::Record;
use fib_resolve::End;

/// Workers' passes over a plain board, each step of which is a call: on the board itself, or on what holds it.
///
/// A worker's number is out while its pass runs. The calls change nothing but the board.
pub trait Passes {
    /// The board on which they run.
    ghost board: { Self → Board };

    /// The last is the first with that board in place of its own.
    ghost is_with: { Self → Board → Self → Type 0 };

    /// Begins a pass of that worker for a packet to `addr` with that flow hash. It knows the version as it is now.
    ///
    /// No pass of that worker may run, and it must have passes left.
    fn begin(&mut self, worker: u32, addr: Addr, hash: u32)
        requires worker { worker < (board self.old).workers }
        requires rests { pass_of (board self.old) worker ≡ None }
        requires left { 0 < left_of (slice_index (board self.old).rests worker) }
        ensures pass { is_with self.old (pass_begun (board self.old) worker addr hash) self.new }
        ensures on { IsOnItsWay (board self.new) worker };

    /// The running pass of that worker loads the next cell of its walk, or the three words of the adjacency on which it
    /// stands. Its end; None exactly where the hop loaded an edge. It must have had no end yet.
    fn hop(&mut self, worker: u32) -> Option<End>
        requires { IsOnItsWay (board self.old) worker }
        ensures pass { is_with self.old (hopped_on (board self.old) worker) self.new }
        ensures follows { (q : Pass) → pass_of (board self.new) worker ≡ Some q → Follows q.addr q.hash q.loads }
        ensures on { IfNone result (IsOnItsWay (board self.new) worker × FoundEdge (loads_in (pass_of (board self.new) worker))) }
        ensures ended { IfSome result (λ e. HasEnd (board self.new) worker e
            × (FoundEdge (loads_in (pass_of (board self.new) worker)) → ⊥)) }
        ensures along { IsAlong (board self.new) (loads_in (pass_of (board self.new) worker)) };

    /// Ends the running pass of that worker, which has its end. The answer is right and steady over the versions that the
    /// pass spanned, from that at its begin to that of now. The worker has one pass less left.
    fn end(&mut self, worker: u32) -> Record
        requires { (e : Ending) × HasEnd (board self.old) worker e }
        ensures pass { is_with self.old (pass_ended (board self.old) worker) self.new }
        ensures answer { (q : Pass) → pass_of (board self.old) worker ≡ Some q → result ≡ answer_of q (board self.old).log.version }
        ensures right { IsRecordOk (board self.old).log.history result }
        ensures steady { IsSteady (board self.old).log.history result };

    /// Whether a pass of that worker runs. Its number is out exactly then.
    fn running(&self, worker: u32) -> bool
        requires { worker < (board self.now).workers }
        ensures running { IsTrue result ↔ IsRunning (board self.now) worker }
        ensures out { slice_index_or (board self.now).out worker false ≡ result };

    /// Each running pass goes along the union, at every moment: it visits no object twice, and only live ones. Does nothing.
    fn tells_of_passes(&self)
        ensures { (n : ℕ) (q : Pass) → pass_of (board self.now) n ≡ Some q → IsAlong (board self.now) q.loads };

    ghost boarded: { (p q : Self) (b : Board) → is_with p b q → board q ≡ b };
}
