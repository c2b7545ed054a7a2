// Which of the entries that are looked at are others, as they are after a change.
ghost use Rattle.std.specs.Prelude.{◌≡◌, List, Contains, IfOk, OnOk, map};
ghost use Rattle.fib_addr.specs.Prefixes.{Prefix as PrefixValue};
ghost use Rattle.fib_cover.specs.Covers.{IsAscending};
ghost use Rattle.fib_resolve.specs.declared.types.Tables.{Tables as TablesValue};
ghost use Rattle.fib_resolve_changes.specs.Sources.{SameEntry};
ghost use Rattle.fib_resolve_changes.specs.declared.change.Change.{Change as ChangeValue};
ghost use Rattle.fib_entries_rows.specs.Known.{StandsFor};
ghost use Rattle.fib_follow_pairs.specs.Fresh.{IsAround, IsFresh, prefix_in};
ghost use Rattle.fib_follow_view.specs.Views.{IsAfter, IsMade, anew_prefix};
ghost use Rattle.fib_follow_looked.specs.Looks.{AreAllLooked, AreHops, AreShorts, IsBefore, IsHopKnown};
ghost use Rattle.fib_follow_looked.specs.inner.Finding.{AreFound, IsCovered, IsGrown, IsStep};

use crate::host::made_of;
use crate::shorts::Shorts;
use fib_addr::Prefix;
use fib_base_blocks::Blocks;
use fib_base_list::List;
use fib_config::Config;
use fib_cover::PrefixSet;
use fib_follow_pairs::{Fresh, Host, attached_at, is_as_found};
use fib_follow_view::{Anew, Before};
use std::alloc::{AllocError, Global};

/// What is known of covers and next hops after the changes.
pub struct Around {
    /// The prefixes shorter than 32 that turn.
    pub shorts: Shorts,
    /// The hosts, of those looked at, whose addresses are next hops.
    pub hops: PrefixSet,
}

// The prover follows what a drop does here, once, and not at every way out past an owner.
impl Drop for Around {
    fn drop(self) {
        let Around { shorts: _, hops: _ } = self;
    }
}

/// What is known of a host beside its own base pairs, where that is its cover.
fn host_of(
    alloc: Global,
    after: &Config,
    hops: &PrefixSet,
    e: Prefix,
    cover: Prefix,
) -> Result<Option<Host>, AllocError>
    ensures { IfOk result (λ o. IsCovered after.now.tables e cover → IsHopKnown after.now.tables hops.now e
        → IsAround after.now.tables e o) }
{
    if e.len() < 32 {
        return Ok(None);
    }
    let attached = attached_at(alloc, after, cover)?;
    Ok(Some(Host {
        cover,
        attached,
        is_hop: hops.contains(e),
    }))
}

/// The entry as one that was made anew.
fn anew_of(alloc: Global, fresh: Fresh, cover: Prefix) -> Anew
    ensures prefix { result.prefix ≡ prefix_in fresh }
    ensures made { (T : TablesValue) → IsFresh T fresh → IsCovered T (prefix_in fresh) cover → IsMade T result }
{
    match fresh {
        Fresh::Entry(entry) => Anew {
            prefix: entry.prefix,
            pairs: entry.pairs,
            cover,
        },
        Fresh::Gone(prefix) => Anew {
            prefix,
            pairs: List::new(alloc),
            cover,
        },
    }
}

/// Appends the entry where it is another than before.
fn push_other(
    alloc: Global,
    changed: &mut Blocks<Anew>,
    before: &Before<'_>,
    fresh: Fresh,
    cover: Prefix,
) -> Result<(), AllocError>
    ensures grown { OnOk result (IsGrown (prefix_in fresh) changed.old changed.new) }
    ensures step { OnOk result ((S T : TablesValue) → StandsFor before.now S → IsFresh T fresh → IsCovered T (prefix_in fresh) cover
        → IsStep S T (prefix_in fresh) changed.old changed.new) }
{
    if is_as_found(before.lists(), before.row(fresh.prefix()), &fresh) {
        return Ok(());
    }
    changed.push(anew_of(alloc, fresh, cover))
}

/// Looks at one entry: appends it where it is another than before.
fn look(
    alloc: Global,
    changed: &mut Blocks<Anew>,
    before: &Before<'_>,
    after: &Config,
    around: &Around,
    e: Prefix,
) -> Result<(), AllocError>
    ensures grown { OnOk result (IsGrown e changed.old changed.new) }
    ensures step { OnOk result ((S : TablesValue) → StandsFor before.now S → AreShorts S after.now.tables around.now.shorts
        → IsHopKnown after.now.tables around.now.hops e → IsStep S after.now.tables e changed.old changed.new) }
{
    let cover = around.shorts.cover(before, e.bits());
    let host = host_of(alloc, after, &around.hops, e, cover)?;
    let fresh = made_of(alloc, after, e, &host)?;
    push_other(alloc, changed, before, fresh, cover)
}

/// Those of the list that are others.
fn others(
    alloc: Global,
    before: &Before<'_>,
    after: &Config,
    around: &Around,
    list: &[Prefix],
) -> Result<Blocks<Anew>, AllocError>
    requires { IsAscending list.now }
    ensures ordered { IfOk result (λ x. IsAscending (map anew_prefix x)) }
    ensures found { IfOk result (λ x. (S : TablesValue) → StandsFor before.now S → AreShorts S after.now.tables around.now.shorts
        → AreHops after.now.tables list.now around.now.hops → AreFound S after.now.tables list.now x) }
{
    let mut changed = Blocks::new(alloc);
    'list: for place in 0..list.len() {
        look(alloc, &mut changed, before, after, around, list[place])?;
    }
    Ok(changed)
}

/// Those of the prefixes looked at whose entry is another after the changes than before, as they are afterwards. It is known beside which
/// of the addresses looked at are next hops afterwards. Where all are looked at that `looked` wants, each other entry is as it was, and
/// so `IsAfter` holds of the tables before and after. An error means that memory ran out.
pub fn changed(
    alloc: Global,
    before: &Before<'_>,
    after: &Config,
    around: &Around,
    looked: &PrefixSet,
) -> Result<Blocks<Anew>, AllocError>
    ensures ordered { IfOk result (λ x. IsAscending (map anew_prefix x)) }
    ensures after { IfOk result (λ x. (list : List ChangeValue) (S : TablesValue) → IsBefore before.now list S after.now.tables
        → AreShorts S after.now.tables around.now.shorts → AreHops after.now.tables looked.now around.now.hops
        → AreAllLooked list S after.now.tables looked.now → IsAfter (record { before = before.now; changed = x }) S after.now.tables) }
    ensures others { IfOk result (λ x. (list : List ChangeValue) (S : TablesValue) → IsBefore before.now list S after.now.tables
        → AreShorts S after.now.tables around.now.shorts → AreHops after.now.tables looked.now around.now.hops
        → (e : PrefixValue) → Contains (map anew_prefix x) e → Contains looked.now e × (SameEntry S after.now.tables e → ⊥)) }
{
    // Read so that the proof knows that the tables are sound.
    let _tables = after.tables();
    let list = looked.listed(alloc)?;
    others(alloc, before, after, around, list.as_slice())
}
