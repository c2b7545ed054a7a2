// Entries made anew, and what a change does by them and those before.
ghost use Rattle.std.specs.Prelude.{◌≡◌, ◌++◌, ◌∷◌, [], IfOk, IfErr, OnOk, OnErr, Some};
ghost use Rattle.std.specs.Prelude.{◌<◌, ◌-◌, ◌==◌, ◌^◌, map, flat_map, filter, if◌then◌else◌};
ghost use Rattle.fib_resolve.specs.Sizes.{size};
ghost use Rattle.fib_resolve.specs.Tables.{IsSound};
ghost use Rattle.fib_resolve.specs.Touched.{is_touched};
ghost use Rattle.fib_resolve.specs.declared.types.Tables.{Tables as TablesValue};
ghost use Rattle.fib_entries_rows.specs.Known.{StandsFor, prefix_of, row_of, rank_of};
ghost use Rattle.fib_entries_rows.specs.inner.Compare.{AreKept, is_new, moved_one, moved_new};
ghost use Rattle.fib_entries_rows.specs.Changes.{AreTouched, AreMoved, FromBefore, IsTooMany, IsFollowed};

use crate::entries::Entries;
use fib_addr::Prefix;
use fib_base_list::List;
use fib_config::Config;
use fib_entries_rows::changes::{FollowError, Followed, Moved, Touched};
use fib_entries_rows::compare::are_alike;
use fib_entries_rows::rows::Row;
use fib_resolve::Tables;
use fib_resolve_changes::Change;
use std::alloc::{AllocError, Global};

/// What a change does to prefixes.
#[derive(Drop)]
struct Differences {
    /// Those that it touches.
    touched: List<Prefix>,
    /// Those that have another rank, each with the rank that it had.
    moved: List<Moved>,
}

/// Appends the prefix where it is touched, and where it has another rank.
fn note(
    out: &mut Differences,
    prefix: Prefix,
    is_touched: bool,
    rank: u32,
    rank_after: u32,
) -> Result<(), AllocError>
    ensures touched { OnOk result (out.new.touched ≡ (if is_touched then out.old.touched ++ prefix ∷ [] else out.old.touched)) }
    ensures moved { OnOk result (out.new.moved ≡ out.old.moved
        ++ (if rank == rank_after then [] else record { prefix = prefix; rank = rank } ∷ [])) }
{
    if is_touched {
        out.touched.push(prefix)?;
    }
    if rank != rank_after {
        out.moved.push(Moved { prefix, rank })?;
    }
    Ok(())
}

/// Whether the change touches the prefix of a row of before, and the prefix's rank after it.
fn look_after(before: &Entries, after: &Entries, r: &Row) -> (bool, u32)
    requires row { row_of before.now.rows r.now.prefix ≡ Some r.now }
    requires held { AreKept before.now.lists r.now.pairs }
    ensures touched { (S T : TablesValue) → StandsFor before.now S → StandsFor after.now T → result.0 ≡ is_touched S T r.now.prefix }
    ensures rank { result.1 ≡ rank_of after.now.rows r.now.prefix }
{
    match after.row_of(r.prefix) {
        Some(s) => (!are_alike(before.lists(), r, after.lists(), s), s.rank()),
        None => (true, 0),
    }
}

/// Appends what the change does to an entry of before.
fn add_old(
    out: &mut Differences,
    before: &Entries,
    after: &Entries,
    r: &Row,
) -> Result<(), AllocError>
    requires row { row_of before.now.rows r.now.prefix ≡ Some r.now }
    requires held { AreKept before.now.lists r.now.pairs }
    ensures touched { OnOk result ((S T : TablesValue) → StandsFor before.now S → StandsFor after.now T →
        out.new.touched ≡ (if is_touched S T r.now.prefix then out.old.touched ++ r.now.prefix ∷ [] else out.old.touched)) }
    ensures moved { OnOk result (out.new.moved ≡ out.old.moved ++ moved_one before.now.rows after.now.rows r.now.prefix) }
{
    let (is_touched, rank_after) = look_after(before, after, r);
    note(out, r.prefix, is_touched, r.rank(), rank_after)
}

/// Appends what the change does to an entry of after, where it was none before.
fn add_new(
    out: &mut Differences,
    before: &Entries,
    after: &Entries,
    s: &Row,
) -> Result<(), AllocError>
    requires { row_of after.now.rows s.now.prefix ≡ Some s.now }
    ensures touched { OnOk result ((S T : TablesValue) → StandsFor before.now S → StandsFor after.now T →
        out.new.touched ≡ (if is_new before.now.rows S T s.now.prefix then out.old.touched ++ s.now.prefix ∷ [] else out.old.touched)) }
    ensures moved { OnOk result (out.new.moved ≡ out.old.moved ++ moved_new before.now.rows after.now.rows s.now.prefix) }
{
    // Only clauses name the entries after.
    let _rows = after;
    match before.row_of(s.prefix) {
        Some(_) => Ok(()),
        None => note(out, s.prefix, true, 0, s.rank()),
    }
}

/// What the change does to the entries of before.
fn compared_before(
    alloc: Global,
    before: &Entries,
    after: &Entries,
) -> Result<Differences, AllocError>
    ensures touched { IfOk result (λ d. (S T : TablesValue) → StandsFor before.now S → StandsFor after.now T →
        d.touched ≡ filter (is_touched S T) (map prefix_of before.now.rows)) }
    ensures moved { IfOk result (λ d. d.moved ≡ flat_map (moved_one before.now.rows after.now.rows) (map prefix_of before.now.rows)) }
{
    let mut out = Differences {
        touched: List::new(alloc),
        moved: List::new(alloc),
    };
    for place in 0..before.len() {
        add_old(&mut out, before, after, before.row_at(place))?;
    }
    Ok(out)
}

/// Appends what the change does to the prefixes that are entries after it alone.
fn add_all_new(out: &mut Differences, before: &Entries, after: &Entries) -> Result<(), AllocError>
    ensures touched { OnOk result ((S T : TablesValue) → StandsFor before.now S → StandsFor after.now T →
        out.new.touched ≡ out.old.touched ++ filter (is_new before.now.rows S T) (map prefix_of after.now.rows)) }
    ensures moved { OnOk result (out.new.moved ≡ out.old.moved
        ++ flat_map (moved_new before.now.rows after.now.rows) (map prefix_of after.now.rows)) }
{
    for place in 0..after.len() {
        add_new(out, before, after, after.row_at(place))?;
    }
    Ok(())
}

/// What the change does: each row of one is looked up once in the other.
fn compared(alloc: Global, before: &Entries, after: &Entries) -> Result<Differences, AllocError>
    ensures touched { IfOk result (λ d. (S T : TablesValue) → StandsFor before.now S → StandsFor after.now T →
        AreTouched S T d.touched) }
    ensures moved { IfOk result (λ d. (S T : TablesValue) → StandsFor before.now S → StandsFor after.now T →
        AreMoved before.now.rows after.now.rows d.moved) }
{
    let mut out = compared_before(alloc, before, after)?;
    add_all_new(&mut out, before, after)?;
    Ok(out)
}

impl Entries {
    /// Makes the entries stand for the tables after a change, and answers which prefixes it touches. After want of memory all is as
    /// before.
    ///
    /// The tables before are those for which the entries stand; `follow_changes` needs none.
    pub fn follow(&mut self, before: &Tables, after: &Tables) -> Result<Touched, AllocError>
        requires stands { StandsFor self.old before.now }
        requires after { IsSound after.now }
        ensures stands { OnOk result (StandsFor self.new after.now) }
        ensures touched { IfOk result (λ list. AreTouched before.now after.now list) }
        ensures err { OnErr result (self.new ≡ self.old) }
    {
        // Only clauses name the tables before.
        let _before = before;
        let made = Entries::of(self.allocator(), after)?;
        let found = compared(self.allocator(), self, &made)?;
        *self = made;
        Ok(Touched::of(found.touched))
    }

    /// The same by entries made anew, which are compared with those before.
    pub(crate) fn follow_anew(
        &mut self,
        after: &Config,
        changes: &[Change],
        most: u32,
    ) -> Result<Followed, FollowError>
        requires { most < 2 ^ 32 - 1 }
        ensures followed { IfOk result (λ f. FromBefore self.old changes.now after.now.tables
            (λ S. IsFollowed self.old self.new S after.now.tables most f)) }
        ensures too_many { IfErr result (λ e. FromBefore self.old changes.now after.now.tables
            (λ _. IsTooMany (size after.now.tables) most e)) }
        ensures err { OnErr result (self.new ≡ self.old) }
    {
        // Only clauses name the changes.
        let _changes = changes;
        let made = Entries::of(self.allocator(), after.tables())?;
        if made.size() > most {
            return Err(FollowError::TooMany(made.size()));
        }
        let found = compared(self.allocator(), self, &made)?;
        *self = made;
        Ok(Followed {
            touched: Touched::of(found.touched),
            moved: found.moved,
        })
    }
}
