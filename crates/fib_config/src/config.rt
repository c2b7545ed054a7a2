// The configuration.
ghost use Rattle.std.specs.Prelude.{◌≡◌, ℕ, ◌≤◌, ◌<◌, ◌^◌, ◌-◌, OnOk, OnErr, IfOk, IfErr, None, Ok, filter, length};
ghost use Rattle.std.specs.List.{AllByRecursion};
ghost use Rattle.fib_addr.specs.Prefixes.{contains};
ghost use Rattle.fib_resolve.specs.Tables.{fresh, IsSound};
ghost use Rattle.fib_resolve.specs.Forwarding.{is_up};
ghost use Rattle.fib_resolve.specs.Resolution.{mac_of};
ghost use Rattle.fib_resolve_changes.specs.Affected.{is_own};
ghost use Rattle.fib_resolve.specs.Edits.{edited, paths_at};
ghost use Rattle.fib_resolve.specs.Refusals.{refused, edited_in_turn, reasons, first_reason};
ghost use Rattle.fib_config.specs.Undone.{undone, undone_all};
ghost use Rattle.fib_resolve_changes.specs.Differ.{Differ, change_of};
ghost use Rattle.fib_resolve.specs.Reachable.{IsWritten};
ghost use Rattle.fib_config.specs.Config.{TellsRefusal, TellsFirstRefused};

use crate::digest::Digest;
use crate::errors::{BatchError, EditError};
use crate::undo::{Back, Edited, EditedAll, Undo};
use crate::{changes, edits, lookups};
use fib_addr::{Addr, Mac, Prefix};
use fib_resolve::{Address, Duplicate, Edit, FibSource, Neighbor, Path, Refusal, Tables};
use std::alloc::{AllocError, Global};
use std::marker::Model;

/// Tables that edits made, and the most objects that they may take.
///
/// Beside them stands what finds their routes and neighbors without a search, and a number that the tables' size doesn't exceed and that
/// each edit raises by what it can add, so that the tables are counted anew only where that number passes the room.
pub struct Config {
    held: Tables,
    most: u32,
    digest: Digest,
    alloc: Global,
}

// The prover follows what a drop does here, once, and not at every way out past an owner.
impl Drop for Config {
    fn drop(self) {
        let Config {
            held: _,
            most: _,
            digest: _,
            alloc: _,
        } = self;
    }
}

impl Model for Config {
    ghost use Rattle.fib_config.specs.Config.{Setup};
    ghost use Rattle.fib_config.specs.inner.Fields.{AreFields};

    ghost Value = { Setup };

    ghost view = { λ c. record { tables = c.held; room = c.most } };

    ghost invariant = { λ c. AreFields c.held c.most c.digest };
}

impl Config {
    /// Empty tables, which take 20 objects of that room.
    pub fn new(alloc: Global, room: u32) -> Result<Config, AllocError>
        requires least { 20 ≤ room }
        requires most { room < 2 ^ 32 - 1 }
        ensures { IfOk result (λ c. c ≡ record { tables = fresh; room = room }) }
    {
        Ok(Config {
            held: Tables::fresh(alloc),
            most: room,
            digest: Digest::unknown(),
            alloc,
        })
    }

    /// The tables as they are.
    pub fn tables(&self) -> &Tables
        ensures value { result.now ≡ self.now.tables }
        ensures sound { IsSound result.now }
    {
        &self.held
    }

    /// The paths of the route of that prefix and source; none where there is no such route.
    ///
    /// It takes no search where the last edits left the routes' keys known, as an edit of a route does unless memory was wanted.
    pub fn paths_of(&self, prefix: Prefix, source: FibSource) -> &[Path]
        ensures { result.now ≡ paths_at prefix source self.now.tables.routes }
    {
        changes::paths_at(prefix, source, &self.held, &self.digest)
    }

    /// Whether the interface of that number is up; false where there is no such interface.
    pub fn is_up(&self, interface: u32) -> bool
        ensures { result ≡ is_up self.now.tables interface }
    {
        lookups::is_up(interface, &self.held)
    }

    /// The MAC of the neighbor of that interface and address, whether or not it has an entry; None where there is no such neighbor.
    ///
    /// It takes no search where the last edits left the neighbors' keys known, as an edit of a neighbor does unless memory was wanted.
    pub fn mac_of(&self, interface: u32, addr: Addr) -> Option<Mac>
        ensures { result ≡ mac_of self.now.tables interface addr }
    {
        lookups::mac_of(interface, addr, &self.held, &self.digest)
    }

    /// The addresses among whose own prefixes that one is, in the tables' order: those of which it is the prefix, the host, or the lowest
    /// or highest address of the prefix. An error means that memory ran out.
    #[tactic(auto, using(fib_resolve::proofs::Sound::short_addresses))]
    pub fn addresses_at(&self, prefix: Prefix) -> Result<Vec<Address>, AllocError>
        ensures { IfOk result (λ v. v.items ≡ filter (λ a. is_own a prefix) self.now.tables.addresses) }
    {
        lookups::addresses_at(self.alloc, prefix, self.held.addresses.as_slice())
    }

    /// The neighbors whose addresses the prefix contains, in the tables' order. An error means that memory ran out.
    pub fn neighbors_inside(&self, prefix: Prefix) -> Result<Vec<Neighbor>, AllocError>
        ensures { IfOk result (λ v. v.items ≡ filter (λ n. contains prefix n.addr) self.now.tables.neighbors) }
    {
        lookups::neighbors_inside(self.alloc, prefix, &self.held.neighbors)
    }

    /// A configuration of the same tables and room.
    pub fn copy(&self) -> Result<Config, AllocError>
        ensures { IfOk result (λ c. c ≡ self.now) }
    {
        Ok(Config {
            held: self.held.duplicate(self.alloc)?,
            most: self.most,
            digest: Digest::bounded(self.digest.bound),
            alloc: self.alloc,
        })
    }

    /// Makes the edit, or says why not. After a fault nothing has changed.
    ///
    /// Refused comes exactly where a reason applies, and with the first one that does; the last reason is that the edited tables
    /// take more objects than there is room for. The edit is one that a line can write, as every edit that the reader of lines gives:
    /// lengths of at most 32, weights of at least 1, needs with recursive paths alone, and at least one path where a route is added.
    pub fn edit(&mut self, edit: &Edit) -> Result<(), EditError>
        requires { IsWritten edit.now }
        ensures accepted { OnOk result (refused self.old.tables self.old.room edit.now ≡ None) }
        ensures edited { OnOk result (self.new ≡ record { tables = edited self.old.tables edit.now; room = self.old.room }) }
        ensures refused { IfErr result (TellsRefusal (refused self.old.tables self.old.room edit.now)) }
        ensures err { OnErr result (self.new ≡ self.old) }
    {
        edits::made(
            self.alloc,
            &mut self.held,
            &mut self.digest,
            self.most,
            edit,
        )
    }

    /// Makes the edit whatever room the edited tables take, and says at which place of the tables it changed something and what takes it
    /// back; or says why not. After a fault nothing has changed. Every reason but the size is a reason here too. The edit is one that a
    /// line can write, as for `edit`.
    pub fn change(&mut self, edit: &Edit) -> Result<Edited, EditError>
        requires { IsWritten edit.now }
        ensures accepted { OnOk result (first_reason (reasons self.old.tables edit.now) ≡ None) }
        ensures edited { OnOk result (self.new.tables ≡ edited self.old.tables edit.now) }
        ensures place { IfOk result (λ x. x.change ≡ change_of self.old.tables edit.now) }
        ensures back { IfOk result (λ x. undone x.undo self.new.tables ≡ self.old.tables) }
        ensures sound { IfOk result (λ x. IsSound (undone x.undo self.new.tables)) }
        ensures room { self.new.room ≡ self.old.room }
        ensures refused { IfErr result (TellsRefusal (first_reason (reasons self.old.tables edit.now))) }
        ensures err { OnErr result (self.new ≡ self.old) }
    {
        edits::change(
            self.alloc,
            &mut self.held,
            &mut self.digest,
            edit,
            Back::Reserved,
        )
    }

    /// Takes an edit back, on the tables that it made. Takes no memory, and gives the tables as they were before it.
    pub fn undo(&mut self, undo: Undo)
        requires { IsSound (undone undo self.old.tables) }
        ensures tables { self.new.tables ≡ undone undo self.old.tables }
        ensures room { self.new.room ≡ self.old.room }
    {
        changes::take_back(&mut self.held, &mut self.digest, undo);
        self.digest.forget_bound();
    }

    /// Makes the edits in turn, each judged as `edit` does on the tables that those before it give, and says at which places of the tables
    /// they changed something and what takes them back; or says which is the first that is refused, and why. After a fault nothing has
    /// changed: what was made is taken back. No copy of the tables is made. The edits are as for `edit_all`.
    pub fn change_all(&mut self, edits: &[Edit]) -> Result<EditedAll, BatchError>
        requires written { AllByRecursion IsWritten edits.now }
        requires few { length edits.now < 2 ^ 32 }
        ensures made { OnOk result (edited_in_turn self.old.tables self.old.room edits.now ≡ Ok self.new.tables) }
        ensures places { IfOk result (λ x. Differ x.changes.items self.old.tables self.new.tables) }
        ensures back { IfOk result (λ x. undone_all x.undos.items self.new.tables ≡ self.old.tables) }
        ensures sound { IfOk result (λ x. IsSound (undone_all x.undos.items self.new.tables)) }
        ensures room { self.new.room ≡ self.old.room }
        ensures refused { IfErr result (TellsFirstRefused (edited_in_turn self.old.tables self.old.room edits.now)) }
        ensures err { OnErr result (self.new ≡ self.old) }
    {
        edits::changed_in_turn(
            self.alloc,
            &mut self.held,
            &mut self.digest,
            self.most,
            edits,
        )
    }

    /// Takes edits back, on the tables that they made, the last one first. Takes no memory, and gives the tables as they were before them.
    pub fn undo_all(&mut self, undos: Vec<Undo>)
        requires { IsSound (undone_all undos.items self.old.tables) }
        ensures tables { self.new.tables ≡ undone_all undos.items self.old.tables }
        ensures room { self.new.room ≡ self.old.room }
    {
        changes::take_all_back(&mut self.held, &mut self.digest, undos);
        self.digest.forget_bound();
    }

    /// Makes the edits in turn, or says which is the first that is refused on the tables that those before it give, and why. After a
    /// fault nothing has changed: what was made is taken back. Each edit is one that a line can write, as for `edit`, and there are fewer
    /// than 2^32.
    pub fn edit_all(&mut self, edits: &[Edit]) -> Result<(), BatchError>
        requires written { AllByRecursion IsWritten edits.now }
        requires few { length edits.now < 2 ^ 32 }
        ensures made { OnOk result (edited_in_turn self.old.tables self.old.room edits.now ≡ Ok self.new.tables) }
        ensures room { self.new.room ≡ self.old.room }
        ensures refused { IfErr result (TellsFirstRefused (edited_in_turn self.old.tables self.old.room edits.now)) }
        ensures err { OnErr result (self.new ≡ self.old) }
    {
        edits::made_in_turn(
            self.alloc,
            &mut self.held,
            &mut self.digest,
            self.most,
            edits,
        )
    }
}
