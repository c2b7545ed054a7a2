// What is kept of all prefixes, and the turns that keep it.
ghost use Rattle.std.specs.Prelude.{◌≡◌, ◌↔◌, ◌≤◌, ◌<◌, ◌^◌, ◌-◌, ℕ, ◌++◌, ◌∷◌, [], Contains};
ghost use Rattle.std.specs.Prelude.{None, Some, IfOk, IfSome, OnErr, OnOk, is_some, length, min, vec_capacity};
ghost use Rattle.std.specs.Set.{is_member};
ghost use Rattle.fib_addr.specs.Prefixes.{Prefix as PrefixValue, same_prefix};
ghost use Rattle.fib_resolve.specs.Pairs.{best, entries};
ghost use Rattle.fib_resolve.specs.declared.types.Tables.{Tables as TablesValue};
ghost use Rattle.fib_resolve_changes.specs.Ranks.{has_entry};
ghost use Rattle.fib_entries_rows.specs.Changes.{AreTouched};
ghost use Rattle.fib_entries_rows.specs.Known.{StandsFor, rank_of};
ghost use Rattle.fib_stack_queue.specs.Queues.{IsLeast, rank_in};
ghost use Rattle.fib_stack_waking.specs.Waking.{AreRanked};
ghost use Rattle.fib_urpf.specs.Interfaces.{has};
ghost use Rattle.fib_urpf.specs.Kept.{IsFor, IsSame, state_of};
ghost use Rattle.fib_urpf.specs.ReversePath.{loose, strict};
ghost use Rattle.fib_urpf.specs.Sets.{set_of};
ghost use Rattle.fib_urpf.specs.States.{Followed, Turned};

use crate::interfaces::Interfaces;
use crate::queueing::{entries_of, queued_of, rekey};
use crate::sets::Sets;
use fib_addr::{Addr, Prefix};
use fib_cover::PrefixSet;
use fib_entries::{Entries, Touched};
use fib_resolve::Tables;
use fib_stack_queue::{Queue, Queued};
use fib_stack_waking::{enqueue, wake_all, woken_where};
use std::alloc::{AllocError, Global};
use std::marker::Model;

/// The reverse path interfaces that are kept of each prefix, and the prefixes that wait for a turn, the least rank first. With nothing queued
/// they are those of the tables that were given last.
pub struct Urpf {
    queue: Queue,
    sets: Sets,
    /// The prefixes that were entries at their last turns.
    members: PrefixSet,
    /// The prefixes that had a turn since the last change.
    done: Vec<Prefix>,
    alloc: Global,
}

// The prover follows what a drop does here, once, and not at every way out past an owner.
impl Drop for Urpf {
    fn drop(self) {
        let Urpf {
            queue: _,
            sets: _,
            members: _,
            done: _,
            alloc: _,
        } = self;
    }
}

impl Model for Urpf {
    ghost use Rattle.fib_urpf.specs.Kept.{Kept};

    ghost Value = { Kept };

    ghost view = { λ u. record { queue = u.queue.members; rows = u.sets.rows; members = u.members; done = u.done.items } };
}

/// Whether the prefix is an entry.
fn is_entry(entries: &Entries, prefix: Prefix) -> bool
    ensures { (S : TablesValue) → StandsFor entries.now S → result ≡ has_entry S prefix }
{
    entries.chosen(prefix).is_some()
}

/// Knows whether the prefix is an entry.
fn know(members: &mut PrefixSet, prefix: Prefix, is_entry: bool) -> Result<(), AllocError>
    ensures here { OnOk result (is_member same_prefix members.new prefix ≡ is_entry) }
    ensures others { OnOk result ((d : PrefixValue) → (d ≡ prefix → ⊥)
        → is_member same_prefix members.new d ≡ is_member same_prefix members.old d) }
    ensures err { OnErr result (members.new ≡ members.old) }
{
    if is_entry {
        members.insert(prefix)?;
    } else {
        members.remove(prefix);
    }
    Ok(())
}

/// All room for a turn that wakes so many. After want of memory all but the room is as before.
fn make_room(
    alloc: Global,
    queue: &mut Queue,
    sets: &mut Sets,
    done: &mut Vec<Prefix>,
    woken: usize,
) -> Result<(), AllocError>
    ensures queue { queue.new.members ≡ queue.old.members }
    ensures sets { set_of sets.new.rows ≡ set_of sets.old.rows }
    ensures done { done.new.items ≡ done.old.items }
    ensures for_queue { OnOk result (woken ≤ queue.new.spare) }
    ensures for_set { OnOk result (0 < sets.new.spare) }
    ensures for_done { OnOk result (length done.new.items < vec_capacity done.new) }
{
    queue.reserve(alloc, woken)?;
    done.reserve(1)?;
    sets.reserve()
}

/// The longest member that contains the address; the default prefix where none does.
fn best_of(members: &PrefixSet, addr: Addr) -> Prefix
    ensures { (S : TablesValue) → ((q : PrefixValue) → Contains members.now q ↔ Contains (entries S) q)
        → result ≡ best S addr }
{
    // Read so that the proof knows the address's range, and that members are prefixes.
    let _number = addr.0;
    let _count = members.len();
    match members.best(addr) {
        Some(prefix) => prefix,
        None => Prefix::masked(Addr(0), 0),
    }
}

/// The prefix had its turn. There must be room.
fn note(done: &mut Vec<Prefix>, entry: Prefix)
    requires { length done.old.items < vec_capacity done.old }
    ensures { done.new.items ≡ done.old.items ++ entry ∷ [] }
{
    let Ok(()) = done.push(entry) else {
        unreachable!()
    };
}

impl Urpf {
    /// All entries of the tables are queued. The entries must stand for the tables.
    pub fn new(alloc: Global, tables: &Tables, entries: &Entries) -> Result<Urpf, AllocError>
        requires stands { StandsFor entries.now tables.now }
        ensures stands { IfOk result (λ u. IsFor u tables.now (rank_of entries.now.rows)) }
        ensures queued { IfOk result (λ u. (e : PrefixValue) → is_some (rank_in u.queue e) ≡ has_entry tables.now e) }
        ensures done { IfOk result (λ u. u.done ≡ []) }
    {
        // Only clauses name the tables.
        let _tables = tables;
        let all = entries_of(alloc, entries)?;
        let mut queue = Queue::new(alloc);
        queue.reserve(alloc, all.len())?;
        enqueue(&mut queue, entries, &all);
        Ok(Urpf {
            queue,
            sets: Sets::new(alloc),
            members: PrefixSet::new(alloc),
            done: Vec::new(alloc),
            alloc,
        })
    }

    /// How many prefixes wait for a turn; more than 2 ^ 32 - 1 are told as so many.
    pub fn queued(&self) -> u32
        ensures { result ≡ min (length self.now.queue) (2 ^ 32 - 1) }
    {
        let queued = self.queue.len();
        if queued < u32::MAX as usize {
            queued as u32
        } else {
            u32::MAX
        }
    }

    /// The tables changed: what the change touched is queued, and all that is queued stands under the entries' new ranks. The entries must
    /// stand for the tables, and the touched prefixes be those of the change from the tables that were given last. After want of memory all is
    /// as before.
    pub fn follow(
        &mut self,
        touched: &Touched,
        tables: &Tables,
        entries: &Entries,
    ) -> Result<(), AllocError>
        requires stands { StandsFor entries.now tables.now }
        requires before { (S : TablesValue) × (old : PrefixValue → ℕ) × IsFor self.old S old × AreTouched S tables.now touched.now }
        ensures followed { OnOk result ((S : TablesValue) → AreTouched S tables.now touched.now →
            Followed S tables.now (state_of self.old) (state_of self.new)) }
        ensures stands { OnOk result (IsFor self.new tables.now (rank_of entries.now.rows)) }
        ensures err { OnErr result (self.new ≡ self.old) }
    {
        // Only clauses name the tables.
        let _tables = tables;
        let queued = queued_of(self.alloc, &self.queue)?;
        let touched = touched.list();
        self.queue
            .reserve(self.alloc, queued.len() + touched.len())?;
        rekey(&mut self.queue, entries, &queued);
        enqueue(&mut self.queue, entries, touched);
        self.done.clear();
        Ok(())
    }

    /// Takes a queued prefix of the least rank, and keeps its interfaces anew; where that changed them, all with an edge to it that isn't
    /// looped are queued. None exactly where nothing is queued. The tables and the entries must be those that were given last. After want of
    /// memory all is as before.
    pub fn turn(&mut self, tables: &Tables, entries: &Entries) -> Result<Option<Prefix>, AllocError>
        requires stands { StandsFor entries.now tables.now }
        requires before { IsFor self.old tables.now (rank_of entries.now.rows) }
        ensures none { IfOk result (λ r. r ≡ None ↔ self.old.queue ≡ []) }
        ensures idle { IfOk result (λ r. r ≡ None → self.new ≡ self.old) }
        ensures some { IfOk result (λ r. IfSome r (λ e.
            Turned tables.now (rank_of entries.now.rows) e (state_of self.old) (state_of self.new))) }
        ensures once { IfOk result (λ r. IfSome r (λ e. Contains self.old.done e → ⊥)) }
        ensures stands { IsFor self.new tables.now (rank_of entries.now.rows) }
        ensures err { OnErr result (IsSame self.old self.new) }
    {
        // Only clauses name the tables.
        let _tables = tables;
        let Some(next) = self.queue.least() else {
            return Ok(None);
        };
        let entry = next.prefix;
        self.take(next, entries)?;
        Ok(Some(entry))
    }

    /// Takes a queued prefix of the least rank.
    fn take(&mut self, next: Queued, entries: &Entries) -> Result<(), AllocError>
        requires { IsLeast self.old.queue next }
        ensures turned { OnOk result ((S : TablesValue) → StandsFor entries.now S
            → AreRanked (rank_of entries.now.rows) self.old.queue
            → Turned S (rank_of entries.now.rows) next.prefix (state_of self.old) (state_of self.new)) }
        ensures ranked { OnOk result (AreRanked (rank_of entries.now.rows) self.old.queue
            → AreRanked (rank_of entries.now.rows) self.new.queue) }
        ensures err { OnErr result (IsSame self.old self.new) }
    {
        let entry = next.prefix;
        let set = self.sets.gathered(entries.marked(entry));
        let same = set.is_same(self.sets.of(entry));
        let woken = woken_where(self.alloc, entries, entry, !same)?;
        make_room(
            self.alloc,
            &mut self.queue,
            &mut self.sets,
            &mut self.done,
            woken.len(),
        )?;
        know(&mut self.members, entry, is_entry(entries, entry))?;
        self.sets.keep(entry, set);
        self.queue.remove(entry);
        wake_all(&mut self.queue, &woken);
        note(&mut self.done, entry);
        Ok(())
    }

    /// What is kept of the longest member that contains the address.
    fn checked(&self, addr: Addr) -> Interfaces
        requires { self.now.queue ≡ [] }
        ensures { (S : TablesValue) (rank : PrefixValue → ℕ) → IsFor self.now S rank
            → (i : ℕ) → i < 256 → has result i ≡ strict S addr i }
    {
        self.sets.of(best_of(&self.members, addr))
    }

    /// Whether a packet from that source may come over the interface: it is one of those over which packets to the source can leave. Nothing
    /// may be queued. Numbers of interfaces are below 256.
    pub fn strict(&self, addr: Addr, interface: u32) -> bool
        requires quiet { self.now.queue ≡ [] }
        requires number { interface < 256 }
        ensures { (S : TablesValue) (rank : PrefixValue → ℕ) → IsFor self.now S rank → result ≡ strict S addr interface }
    {
        self.checked(addr).has(interface)
    }

    /// Whether a packet from that source may come over any interface. Nothing may be queued.
    pub fn loose(&self, addr: Addr) -> bool
        requires quiet { self.now.queue ≡ [] }
        ensures { (S : TablesValue) (rank : PrefixValue → ℕ) → IsFor self.now S rank → result ≡ loose S addr }
    {
        !self.checked(addr).is_empty()
    }
}
