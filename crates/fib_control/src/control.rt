// The control plane as one value.
ghost use Rattle.std.specs.Prelude.{◌≡◌, ◌+◌, ◌-◌, ◌/◌, ◌^◌, ◌<◌, ◌≤◌, [], ℕ, IfErr, IfOk, IsErrOf, IsTrue, None, Ok, OnErr, OnOk, Some, length};
ghost use Rattle.std.specs.Prelude.{false, true, vec_capacity, ◌↔◌};
ghost use Rattle.std.specs.List.{AllByRecursion};
ghost use Rattle.fib_addr.specs.Prefixes.{Prefix as PrefixValue};
ghost use Rattle.fib_reach.specs.Walks.{AllDiffer};
ghost use Rattle.fib_resolve_changes.specs.Ranks.{IsRanked};
ghost use Rattle.fib_resolve.specs.Edits.{edited};
ghost use Rattle.fib_resolve.specs.Reachable.{IsWritten};
ghost use Rattle.fib_resolve.specs.Refusals.{edited_in_turn, refused};
ghost use Rattle.fib_resolve.specs.Sizes.{size};
ghost use Rattle.fib_resolve.specs.Resolution.{resolve};
ghost use Rattle.fib_resolve.specs.Tables.{IsSound, fresh};
ghost use Rattle.fib_core.specs.Walk.{walk};
ghost use Rattle.fib_core_board.specs.Boards.{IsFresh};
ghost use Rattle.fib_pool.specs.Objects.{free_in};
ghost use Rattle.fib_ply.specs.Rows.{held};
ghost use Rattle.fib_core.specs.declared.word.Word.{Word};
ghost use Rattle.fib_stack_ledger.specs.Deferred.{late_at};
ghost use Rattle.fib_control_quiet.specs.Rest.{IsAccounted};
ghost use Rattle.fib_stack.specs.Done.{IsCounted, IsStored, IsTurnDone, LeavesAll, RunDone, StaysLate, StoresDiffering, TurnDone};
ghost use Rattle.fib_entries_rows.specs.Known.{StandsFor, rank_of};
ghost use Rattle.fib_plane.specs.Views.{promise_of, view_of};
ghost use Rattle.fib_stack.specs.Joined.{Joined};
ghost use Rattle.fib_stack.specs.Moments.{moment, parts_of};
ghost use Rattle.fib_stack.specs.Records.{SamePlane};
ghost use Rattle.fib_stack.specs.Steps.{Retried};
ghost use Rattle.fib_control.specs.Controls.{ArePassed, Control as Value, IsBatchNotCrowded, IsBeneath, IsBusy, IsChanged, IsDoneAfter, IsNotCrowded};
ghost use Rattle.fib_control.specs.Controls.{IsQuiet, IsSettled, Takes, TellsApply, TellsApplyAll, but_settled, noted, parts_in, promise_in};
ghost use Rattle.fib_control.specs.Controls.{rank_by, state_now, tables_in, view_in};
ghost use Rattle.fib_control.specs.Turning.{HaveTurned};

use crate::batches::change_all;
use crate::beginning::first_table;
use crate::errors::{ApplyError, BatchApplyError, Busy};
use crate::following::{Limits, change};
use crate::looking::{is_flow, look_up};
use fib_addr::{Addr, Prefix};
use fib_config::Config;
use fib_core::Version;
use fib_core_board::Board;
use fib_entries::Entries;
use fib_plane::Plane;
use fib_plane_view::Objects;
use fib_ply::PrefixTable;
use fib_resolve::{Edit, End, Tables};
use fib_stack::{Stack, Turn, Want};
use fib_stack_queue::Queue;
use std::alloc::{AllocError, Global};
use std::marker::Model;

/// Tables under change, and the shared words that stand for them: exactly, whenever nothing is queued, deferred or retired.
///
/// A change makes a version more and queues the prefixes that it touches; a turn restacks one of them, the targets of packets before those that
/// lead to them. A scan lets go what no pass stands on any more, a retry stores what would have closed a cycle before, and then the version may be
/// settled. Nothing of the tables is ever copied.
pub struct Control<B: Board> {
    config: Config,
    room: u32,
    entries: Entries,
    pub(crate) shared: Plane<B>,
    table: PrefixTable,
    stack: Stack,
    queue: Queue,
    done: Vec<Prefix>,
    alloc: Global,
}

// The prover follows what a drop does here, once, and not at every way out past an owner.
impl<B: Board + Drop> Drop for Control<B> {
    fn drop(self) {
        let Control {
            config: _,
            room: _,
            entries: _,
            shared: _,
            table: _,
            stack: _,
            queue: _,
            done: _,
            alloc: _,
        } = self;
    }
}

impl<B: Board> Model for Control<B> {
    ghost use Rattle.std.specs.Prelude.{◌≡◌};
    ghost use Rattle.fib_control.specs.Controls.{Control as Seen};
    ghost use Rattle.fib_control.specs.inner.Standing.{IsStanding};

    ghost Value = { Seen };

    ghost view = { λ c. record {
      setup = c.config;
      entries = c.entries;
      plane = c.shared.plane;
      rows = c.table.rows.members;
      plies =
          c.table.plies;
      known = c.stack.ledger.rows;
      late = c.stack.late.members;
      queue = c.queue.members;
      done = c.done.items;
    } };

    ghost invariant = { λ c. IsStanding (record {
      setup = c.config;
      entries = c.entries;
      plane = c.shared.plane;
      rows = c.table.rows.members;
      plies = c.table.plies;
      known =
          c.stack.ledger.rows;
      late = c.stack.late.members;
      queue = c.queue.members;
      done = c.done.items;
    }) × (c.room ≡ c.config.room) };
}

impl<B: Board + Drop> Control<B> {
    /// Over a fresh board: the tables are those without interfaces and routes, in version (0, 0), for which the cells stand. The room is half of the
    /// objects.
    pub fn new(alloc: Global, board: B) -> Result<Control<B>, AllocError>
        requires { IsFresh (B.view board) }
        ensures setup { IfOk result (λ c. c.setup ≡ record { tables = fresh; room = (B.view board).objects / 2 }) }
        ensures rest { IfOk result (λ c. promise_in c ≡ promise_of (B.view board)) }
        ensures quiet { IfOk result IsQuiet }
        ensures done { IfOk result (λ c. c.done ≡ []) }
    {
        board.tells();
        let room = board.objects() / 2;
        let config = Config::new(alloc, room)?;
        let entries = Entries::new(alloc)?;
        let mut shared = Plane::new(alloc, board)?;
        let table = first_table(alloc, &mut shared, &entries)?;
        shared.scan();
        Ok(Control {
            config,
            room,
            entries,
            shared,
            table,
            stack: Stack::new(alloc),
            queue: Queue::new(alloc),
            done: Vec::new(alloc),
            alloc,
        })
    }
}

impl<B: Board> Control<B> {
    /// The tables as they are. They are well formed.
    pub fn tables(&self) -> &Tables
        ensures value { result.now ≡ tables_in self.now }
        ensures sound { IsSound result.now }
    {
        self.config.tables()
    }

    /// What is known of their entries.
    pub fn entries(&self) -> &Entries
        ensures value { result.now ≡ self.now.entries }
        ensures stands { StandsFor result.now (tables_in self.now) }
    {
        &self.entries
    }

    /// The last version that was settled and the last that was begun.
    pub fn version(&self) -> Version
        ensures { result ≡ self.now.plane.board.log.version }
    {
        self.shared.version()
    }

    /// How many objects aren't free. On a quiet control as many as the size of the tables says; and already where nothing is queued each of them is
    /// one that the size counts, or an edge of the union leads to it, current or retired.
    pub fn used(&self) -> u32
        ensures used { result ≡ length self.now.plane.objects - free_in self.now.plane.objects }
        ensures quiet { IsQuiet self.now → result ≡ size (tables_in self.now) }
        ensures counted { self.now.queue ≡ [] → IsAccounted (tables_in self.now) self.now.plane }
    {
        self.shared.tells();
        self.table.tells();
        self.stack.tells();
        self.shared.used()
    }

    /// Where a packet to `addr` with that flow hash ends: the walk over the cells as they are. On a quiet control that is resolution over the
    /// tables.
    pub fn lookup(&self, addr: Addr, hash: u32) -> End
        ensures walk { result ≡ walk self.now.plane.board.union.cells addr hash }
        ensures quiet { IsQuiet self.now → result ≡ resolve (tables_in self.now) addr hash }
    {
        self.shared.tells();
        self.table.tells();
        self.stack.tells();
        is_flow(addr, hash);
        look_up(&self.shared, addr, hash)
    }

    /// The number of a prefix's balance; None exactly where the prefix isn't in the prefix table.
    pub fn object_of(&self, prefix: Prefix) -> Option<u32>
        ensures { result ≡ held self.now.rows prefix }
    {
        self.table.object(prefix)
    }

    /// How many buckets are deferred: they drop in place of an edge that would have closed a cycle.
    pub fn deferred(&self) -> u32
        ensures { result ≡ length self.now.late }
    {
        self.stack.deferred()
    }

    /// How many copies of replaced edges are kept for passes that may stand on them.
    pub fn retired(&self) -> u32
        ensures { result ≡ length self.now.plane.board.union.retired }
    {
        self.shared.retired()
    }

    /// Makes a change of the tables: the edit is made, a version begins, and what the edit touches is queued. Answers the number of the version.
    ///
    /// Refused comes exactly where `Config::edit` refuses, and Crowded exactly where it doesn't but fewer objects are free than the edited tables
    /// take; a quiet control is never crowded. After a fault nothing has changed. The edit is one that a line can write, and there are fewer than
    /// 2^32 versions.
    pub fn apply(&mut self, edit: &Edit) -> Result<u32, ApplyError>
        requires written { IsWritten edit.now }
        requires version { self.old.plane.board.log.version.applied < 2 ^ 32 - 1 }
        ensures accepted { OnOk result (refused (tables_in self.old) self.old.setup.room edit.now ≡ None) }
        ensures changed { OnOk result (IsChanged self.old self.new (edited (tables_in self.old) edit.now)) }
        ensures fits { OnOk result (size (edited (tables_in self.old) edit.now) ≤ free_in self.old.plane.objects) }
        ensures version { IfOk result (λ a. a ≡ self.old.plane.board.log.version.applied + 1) }
        ensures why { IfErr result (TellsApply self.old edit.now) }
        ensures quiet { IsQuiet self.old → IfErr result IsNotCrowded }
        ensures err { OnErr result (self.new ≡ self.old) }
    {
        self.shared.tells();
        self.table.tells();
        self.stack.tells();
        let limits = Limits {
            room: self.room,
            free: self.shared.free(),
        };
        match change(
            self.alloc,
            &mut self.config,
            &mut self.entries,
            &mut self.queue,
            edit,
            limits,
        ) {
            Ok(()) => {
                self.shared.begin_version(self.config.tables());
                self.done.clear();
                Ok(self.shared.version().applied)
            }
            Err(error) => Err(error),
        }
    }

    /// Makes one change of several edits: each is made on the tables that those before it give, one version begins, and what they touch together is
    /// queued. Answers the number of the version.
    ///
    /// Refused comes exactly where `Config::edit_all` refuses, and says the same. Crowded comes exactly where it doesn't but fewer objects are free
    /// than the tables after all edits take; a quiet control is never crowded. After a fault nothing has changed. Each edit is one that a line can
    /// write, and there are fewer than 2^32 edits and versions.
    pub fn apply_all(&mut self, edits: &[Edit]) -> Result<u32, BatchApplyError>
        requires written { AllByRecursion IsWritten edits.now }
        requires few { length edits.now < 2 ^ 32 }
        requires version { self.old.plane.board.log.version.applied < 2 ^ 32 - 1 }
        ensures made { OnOk result (edited_in_turn (tables_in self.old) self.old.setup.room edits.now ≡ Ok (tables_in self.new)) }
        ensures changed { OnOk result (IsChanged self.old self.new (tables_in self.new)) }
        ensures fits { OnOk result (size (tables_in self.new) ≤ free_in self.old.plane.objects) }
        ensures version { IfOk result (λ a. a ≡ self.old.plane.board.log.version.applied + 1) }
        ensures why { IfErr result (TellsApplyAll self.old edits.now) }
        ensures quiet { IsQuiet self.old → IfErr result IsBatchNotCrowded }
        ensures err { OnErr result (self.new ≡ self.old) }
    {
        self.shared.tells();
        self.table.tells();
        self.stack.tells();
        let limits = Limits {
            room: self.room,
            free: self.shared.free(),
        };
        match change_all(
            self.alloc,
            &mut self.config,
            &mut self.entries,
            &mut self.queue,
            edits,
            limits,
        ) {
            Ok(()) => {}
            Err(error) => return Err(error),
        }
        self.shared.begin_version(self.config.tables());
        self.done.clear();
        let version = self.shared.version();
        Ok(version.applied)
    }

    /// How many prefixes wait for their turn.
    pub fn queued(&self) -> usize
        ensures { result ≡ length self.now.queue }
    {
        self.queue.len()
    }

    /// Whether nothing is queued, deferred or retired. Then the shared words stand for the tables.
    pub fn is_quiet(&self) -> bool
        ensures { IsTrue result ↔ IsQuiet self.now }
    {
        self.queued() == 0 && self.deferred() == 0 && self.retired() == 0
    }

    /// Gives the queued prefix of the least rank its turn. An entry's object gets its wanted buckets, and then it is added to the prefix table if it
    /// isn't there; a prefix that left the entries leaves the table. Idle exactly where nothing is queued.
    ///
    /// After want of memory the prefix is still queued and all is as before, but for room and the count of stores. An object is always found.
    pub fn turn(&mut self) -> Result<Turn, AllocError>
        ensures turn { IfOk result (λ t. TurnDone (tables_in self.old) (rank_by self.old) t (state_now self.old) (state_now self.new)) }
        ensures run { IfOk result (λ t. RunDone (tables_in self.old) t (view_in self.old) (view_in self.new) (state_now self.new)) }
        ensures dropped { IfOk result (λ t. IsCounted t self.new.late) }
        ensures stores { IfOk result (λ t. IsStored t self.old.plane.board.stored self.new.plane.board.stored) }
        ensures exact { IfOk result (λ t. StoresDiffering (tables_in self.old) t (held self.old.rows)
            (view_in self.old) (view_in self.new)) }
        ensures done { IfOk result (λ t. IsDoneAfter t self.old.done self.new.done) }
        ensures same { IsBeneath self.old self.new }
        ensures takes { Takes self.old self.new }
        ensures err { OnErr result (SamePlane (view_in self.old) (view_in self.new)) }
        ensures parts { OnErr result ((parts_in self.new ≡ parts_in self.old) × (self.new.done ≡ self.old.done)) }
    {
        if self.queue.len() == 0 {
            return Ok(Turn::Idle);
        }
        if self.done.reserve(1).is_err() {
            return Err(AllocError);
        }
        match restack(
            &mut self.stack,
            &mut self.shared,
            &self.config,
            &self.entries,
            &mut self.table,
            &mut self.queue,
        ) {
            Ok(turn) => {
                note(&mut self.done, &turn);
                Ok(turn)
            }
            Err(want) => Err(memory_of(want)),
        }
    }

    /// Looks which replaced edges no pass stands on any more: exactly these are retired no longer, and what they alone kept is given back. Answers how
    /// many copies are left; none where no worker is out.
    pub fn scan(&mut self) -> u32
        ensures left { result ≡ length self.new.plane.board.union.retired }
        ensures copies { ArePassed self.old self.new }
        ensures alone { (promise_in self.old).alone ≡ true → self.new.plane.board.union.retired ≡ [] }
        ensures same { IsBeneath self.old self.new }
        ensures takes { Takes self.old self.new }
        ensures parts { (parts_in self.new ≡ parts_in self.old) × (self.new.done ≡ self.old.done) }
    {
        self.shared.tells();
        if self.shared.retired() == 0 {
            return 0;
        }
        self.shared.scan()
    }

    /// Tries each deferred bucket whose prefix isn't queued: its edge is stored where it closes no cycle any more. Answers how many are deferred still;
    /// none where nothing is queued or retired.
    pub fn retry(&mut self) -> u32
        ensures left { result ≡ length self.new.late }
        ensures calm { self.old.queue ≡ [] → self.old.plane.board.union.retired ≡ [] → (result ≡ 0) × IsQuiet self.new }
        ensures retried { Retried (state_now self.old) (state_now self.new) }
        ensures why { (e : PrefixValue) (k : ℕ) (w : Word) → late_at self.new.late e k ≡ Some w
            → StaysLate (view_in self.new) (parts_in self.new) e w }
        ensures same { IsBeneath self.old self.new }
        ensures takes { Takes self.old self.new }
        ensures parts { (self.new.rows ≡ self.old.rows) × (self.new.plies ≡ self.old.plies) × (self.new.queue ≡ self.old.queue)
            × (self.new.done ≡ self.old.done) }
    {
        self.stack.retry(&mut self.shared, &self.table, &self.queue)
    }

    /// The prefixes that had a turn since the last change differ, and ranks are as turns need them. Does nothing.
    pub fn tells(&self)
        ensures once { AllDiffer self.now.done }
        ensures ranked { IsRanked (tables_in self.now) (rank_by self.now) }
    {
        // What stands of every control tells it, once a field is used.
        let _room = self.room;
    }

    /// Between two accepted changes calls take and keep at most as many objects as the size of the tables says, less twenty. Does nothing.
    pub fn takes_few(&self)
        ensures { (d : Value) → 0 < self.now.plane.board.log.version.applied → Takes self.now d
            → (view_in self.now).free + 20 ≤ (view_in d).free + size (tables_in self.now) }
    {
        // What stands of every control tells it, once a field is used.
        let _room = self.room;
    }

    /// Turns until nothing is queued. After want of memory the turns that were done stand.
    ///
    /// Those have a turn that were queued, and those that a turn wakes, whose answer it changed; each once. An entry that had an object keeps it.
    pub fn walk(&mut self) -> Result<(), AllocError>
        ensures none { OnOk result (self.new.queue ≡ []) }
        ensures turned { HaveTurned self.old self.new }
        ensures same { IsBeneath self.old self.new }
        ensures takes { Takes self.old self.new }
    {
        'turns: loop {
            if self.queued() == 0 {
                return Ok(());
            }
            self.tells();
            self.turn()?;
            self.tells();
        }
    }

    /// Settles the last version where no worker is out, and answers its number: turns until nothing is queued, a scan and a retry leave nothing that
    /// waits. After want of memory the turns that were done stand.
    pub fn settle_alone(&mut self) -> Result<u32, AllocError>
        requires { (promise_in self.old).alone ≡ true }
        ensures quiet { OnOk result (IsQuiet self.new) }
        ensures version { IfOk result (λ n. (n ≡ self.old.plane.board.log.version.applied)
            × (self.new.plane.board.log.version.settled ≡ n)) }
        ensures tables { self.new.setup ≡ self.old.setup }
        ensures entries { self.new.entries ≡ self.old.entries }
        ensures board { but_settled self.new.plane.board ≡ but_settled self.old.plane.board }
        ensures takes { Takes self.old self.new }
        ensures turned { HaveTurned self.old self.new }
    {
        self.walk()?;
        self.scan();
        self.retry();
        match self.mark_settled() {
            Ok(version) => Ok(version),
            Err(_) => unreachable!(),
        }
    }

    /// Settles the last version, whose number it answers, where nothing is queued, deferred or retired. Else it says how much is.
    pub fn mark_settled(&mut self) -> Result<u32, Busy>
        ensures quiet { OnOk result (IsQuiet self.old) }
        ensures settled { OnOk result (IsSettled self.old self.new) }
        ensures version { IfOk result (λ n. n ≡ self.old.plane.board.log.version.applied) }
        ensures busy { IfErr result (λ b. IsBusy b self.old) }
        ensures err { OnErr result (self.new ≡ self.old) }
    {
        self.shared.tells();
        self.table.tells();
        self.stack.tells();
        let busy = Busy {
            queued: self.queue.len(),
            deferred: self.stack.deferred(),
            retired: self.shared.retired(),
        };
        if !is_calm(&busy) {
            return Err(busy);
        }
        self.shared.settle_version();
        Ok(self.shared.version().applied)
    }
}

// Whether nothing waits.
fn is_calm(busy: &Busy) -> bool
    ensures yes { result ≡ true → (busy.now.queued ≡ 0) × (busy.now.deferred ≡ 0) × (busy.now.retired ≡ 0) }
    ensures no { result ≡ false → 0 < busy.now.queued + busy.now.deferred + busy.now.retired }
{
    busy.queued == 0 && busy.deferred == 0 && busy.retired == 0
}

// A turn of the stack's, with the control's own tables.
fn restack<B: Board>(
    stack: &mut Stack,
    shared: &mut Plane<B>,
    config: &Config,
    entries: &Entries,
    table: &mut PrefixTable,
    queue: &mut Queue,
) -> Result<Turn, Want>
    requires stands { StandsFor entries.now config.now.tables }
    requires joined { Joined config.now.tables (rank_of entries.now.rows) (promise_of shared.old.plane.board) (view_of shared.old.plane)
        (parts_of table.old stack.old queue.old) }
    ensures turn { let before = moment (view_of shared.old.plane) table.old stack.old queue.old in
        let after = moment (view_of shared.new.plane) table.new stack.new queue.new in
        IfOk result (λ t. IsTurnDone config.now.tables (rank_of entries.now.rows) t before after) }
    ensures leaves { let before = moment (view_of shared.old.plane) table.old stack.old queue.old in
        let after = moment (view_of shared.new.plane) table.new stack.new queue.new in
        LeavesAll config.now.tables (rank_of entries.now.rows) (promise_of shared.new.plane.board) (IsErrOf result Want.Object)
        before after }
    ensures err { OnErr result (SamePlane (view_of shared.old.plane) (view_of shared.new.plane)) }
    ensures parts { OnErr result (parts_of table.new stack.new queue.new ≡ parts_of table.old stack.old queue.old) }
    ensures promise { promise_of shared.new.plane.board ≡ promise_of shared.old.plane.board }
{
    let tables = config.tables();
    stack.turn(shared, tables, entries, table, queue)
}

// A turn that wants no object wants memory.
fn memory_of(want: Want) -> AllocError
    requires { want ≡ Want.Object → ⊥ }
{
    match want {
        Want::Memory => AllocError,
        Want::Object => unreachable!(),
    }
}

// Notes which prefix had a turn. There must be room.
fn note(done: &mut Vec<Prefix>, turn: &Turn)
    requires { length done.old.items < vec_capacity done.old }
    ensures { done.new.items ≡ noted turn.now done.old.items }
{
    match turn {
        Turn::Restacked { entry, .. } => {
            let Ok(()) = done.push(*entry) else {
                unreachable!()
            };
        }
        Turn::Idle => {}
    }
}
