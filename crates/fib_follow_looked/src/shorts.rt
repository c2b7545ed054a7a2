// The prefixes shorter than 32 that come, go or attach otherwise, and what covers an address afterwards.
ghost use Rattle.std.specs.Prelude.{◌≡◌, ◌↔◌, ◌++◌, ◌<◌, ◌≤◌, [], List, Some, Contains, IfOk, OnOk, filter};
ghost use Rattle.fib_cover.specs.Covers.{ArePrefixes, IsLongestMatch};
ghost use Rattle.fib_resolve.specs.Pairs.{cover, short_prefixes};
ghost use Rattle.fib_resolve.specs.declared.types.Tables.{Tables as TablesValue};
ghost use Rattle.fib_resolve_changes.specs.declared.change.Change.{Change as ChangeValue};
ghost use Rattle.fib_entries_rows.specs.Known.{StandsFor};
ghost use Rattle.fib_follow_looked.specs.Looks.{AreNamed, AreShorts, IsBefore, IsTurn};
ghost use Rattle.fib_follow_looked.specs.declared.shorts.Turn.{Turn as TurnValue};
ghost use Rattle.fib_follow_looked.specs.declared.shorts.Turned.{Turned as TurnedValue};
ghost use Rattle.fib_follow_looked.specs.inner.Adding.{Adds, AddsEach};
ghost use Rattle.fib_follow_looked.specs.inner.Turning.{is_beside, is_made, is_turn, longer_match, same_interface, turn_by};
ghost use Rattle.fib_follow_looked.specs.inner.Turning.{turn_rank, turned_at};

use crate::named::Named;
use crate::sets::add_one;
use fib_addr::{Addr, Prefix};
use fib_config::Config;
use fib_cover::PrefixSet;
use fib_follow_pairs::{Fresh, made_anew};
use fib_follow_view::Before;
use fib_resolve_pairs::attached_of;
use std::alloc::{AllocError, Global};

/// What becomes of a prefix that can cover.
#[derive(Clone, Copy, Debug)]
pub enum Turn {
    Comes,
    Goes,
    /// It attaches to another interface what it covers, or to none, or to one where it attached to none.
    Attaches,
}

/// A prefix shorter than 32 with what becomes of it.
#[derive(Clone, Copy, Debug)]
pub struct Turned {
    pub prefix: Prefix,
    pub how: Turn,
}

/// The prefixes shorter than 32 that are others after a change.
pub struct Shorts {
    /// Each that comes, goes or attaches otherwise.
    pub turned: Vec<Turned>,
    pub come: PrefixSet,
    pub gone: PrefixSet,
}

// The prover follows what a drop does here, once, and not at every way out past an owner.
impl Drop for Shorts {
    fn drop(self) {
        let Shorts {
            turned: _,
            come: _,
            gone: _,
        } = self;
    }
}

impl Turn {
    fn rank(self) -> u8
        ensures { result ≡ turn_rank self }
    {
        match self {
            Turn::Comes => 0,
            Turn::Goes => 1,
            Turn::Attaches => 2,
        }
    }
}

fn is_same(a: Option<u32>, b: Option<u32>) -> bool
    ensures { result ≡ same_interface a b }
{
    match a {
        Some(i) => match b {
            Some(j) => i == j,
            None => false,
        },
        None => b.is_none(),
    }
}

/// What becomes of a prefix that was an entry or not, is one or not, and attaches as before or not.
fn turn_by(was: bool, is: bool, same: bool) -> Option<Turn>
    ensures { result ≡ turn_by was is same }
{
    match (was, is) {
        (false, false) => None,
        (false, true) => Some(Turn::Comes),
        (true, false) => Some(Turn::Goes),
        (true, true) => { if same { None } else { Some(Turn::Attaches) } }
    }
}

fn is_made(fresh: &Fresh) -> bool
    ensures { result ≡ is_made fresh.now }
{
    match fresh {
        Fresh::Entry(_) => true,
        Fresh::Gone(_) => false,
    }
}

/// What becomes of a prefix shorter than 32.
fn short_turn(
    alloc: Global,
    before: &Before<'_>,
    after: &Config,
    q: Prefix,
) -> Result<Option<Turn>, AllocError>
    requires { q.len < 32 }
    ensures { IfOk result (λ o. (S : TablesValue) → StandsFor before.now S
        → (t : TurnValue) → (o ≡ Some t) ↔ IsTurn S after.now.tables q t) }
{
    // Read so that the proof knows that the tables are sound.
    let _tables = after.tables();
    let fresh = made_anew(alloc, after, q, None)?;
    let same = is_same(attached_of(before.chosen(q)), fresh.attached());
    Ok(turn_by(before.is_entry(q), is_made(&fresh), same))
}

/// What becomes of a prefix; nothing where it is a host.
fn turn_of(
    alloc: Global,
    before: &Before<'_>,
    after: &Config,
    q: Prefix,
) -> Result<Option<Turn>, AllocError>
    ensures { IfOk result (λ o. (S : TablesValue) → StandsFor before.now S
        → (t : TurnValue) → (o ≡ Some t) ↔ IsTurn S after.now.tables q t) }
{
    if q.len() < 32 {
        return short_turn(alloc, before, after, q);
    }
    Ok(None)
}

fn push_turn(out: &mut Vec<Turned>, prefix: Prefix, turn: Option<Turn>) -> Result<(), AllocError>
    ensures { OnOk result (out.new.items ≡ out.old.items ++ turned_at prefix turn) }
{
    match turn {
        Some(how) => {
            out.push(Turned { prefix, how })?;
            Ok(())
        }
        None => Ok(()),
    }
}

/// Those of the prefixes that turn.
fn turned_of(
    alloc: Global,
    before: &Before<'_>,
    after: &Config,
    named: &[Prefix],
) -> Result<Vec<Turned>, AllocError>
    ensures { IfOk result (λ v. (S : TablesValue) → StandsFor before.now S → (t : TurnedValue) → Contains v.items t
        ↔ Contains named.now t.prefix × IsTurn S after.now.tables t.prefix t.how) }
{
    let mut out = Vec::new(alloc);
    'named: for place in 0..named.len() {
        let q = named[place];
        let how = turn_of(alloc, before, after, q)?;
        push_turn(&mut out, q, how)?;
    }
    Ok(out)
}

/// Puts the prefix to the set where it turns so.
fn add_turned(set: &mut PrefixSet, turned: Turned, how: Turn) -> Result<(), AllocError>
    ensures { OnOk result (Adds (is_turn how turned) set.old set.new) }
{
    if turned.how.rank() == how.rank() {
        return add_one(set, turned.prefix);
    }
    Ok(())
}

/// Those that turn so.
fn that_turn(alloc: Global, turned: &[Turned], how: Turn) -> Result<PrefixSet, AllocError>
    ensures each { IfOk result (λ v. AddsEach (is_turn how) turned.now [] v) }
    ensures prefixes { IfOk result ArePrefixes }
{
    let mut set = PrefixSet::new(alloc);
    'turned: for place in 0..turned.len() {
        add_turned(&mut set, turned[place], how)?;
    }
    // A length tells that they are prefixes.
    let _count = set.len();
    Ok(set)
}

/// The longest member below the limit that contains the address and isn't one of the others.
pub fn longest_beside(
    order: &PrefixSet,
    others: &PrefixSet,
    addr: Addr,
    limit: u8,
) -> Option<Prefix>
    requires { limit ≤ 32 }
    ensures { IsLongestMatch (filter (is_beside others.now) order.now) limit addr result }
{
    match order.longest(addr, limit) {
        Some(q) => {
            if others.contains(q) {
                return longest_beside(order, others, addr, q.len());
            }
            Some(q)
        }
        None => None,
    }
}

/// The longer of two.
pub fn longer(a: Option<Prefix>, b: Option<Prefix>) -> Option<Prefix>
    ensures { result ≡ longer_match a b }
{
    match a {
        Some(p) => match b {
            Some(q) => { if p.len() < q.len() { Some(q) } else { Some(p) } }
            None => Some(p),
        },
        None => b,
    }
}

impl Shorts {
    /// Which of the prefixes that can cover come, go or attach otherwise, where these are named by changes. An error means that memory ran
    /// out.
    pub fn of(
        alloc: Global,
        before: &Before<'_>,
        after: &Config,
        named: &Named,
    ) -> Result<Shorts, AllocError>
        ensures { IfOk result (λ x. (list : List ChangeValue) (S : TablesValue) → IsBefore before.now list S after.now.tables
            → AreNamed list S after.now.tables named.now → AreShorts S after.now.tables x) }
    {
        // Read so that the proof knows that the tables are sound.
        let _tables = after.tables();
        let list = named.prefixes.listed(alloc)?;
        let turned = turned_of(alloc, before, after, list.as_slice())?;
        let come = that_turn(alloc, turned.as_slice(), Turn::Comes)?;
        let gone = that_turn(alloc, turned.as_slice(), Turn::Goes)?;
        Ok(Shorts { turned, come, gone })
    }

    /// The longest prefix that can cover afterwards, is shorter than the limit and contains the address.
    pub fn longest(&self, before: &Before<'_>, addr: Addr, limit: u8) -> Option<Prefix>
        requires { limit ≤ 32 }
        ensures { (S T : TablesValue) → StandsFor before.now S → AreShorts S T self.now
            → IsLongestMatch (short_prefixes T) limit addr result }
    {
        longer(
            longest_beside(before.order(), &self.gone, addr, limit),
            self.come.longest(addr, limit),
        )
    }

    /// The cover of the address afterwards.
    pub fn cover(&self, before: &Before<'_>, addr: Addr) -> Prefix
        ensures { (S T : TablesValue) → StandsFor before.now S → AreShorts S T self.now → result ≡ cover T addr }
    {
        // Read so that the proof knows its range.
        let _number = addr.0;
        match self.longest(before, addr, 32) {
            Some(q) => q,
            None => Prefix::masked(Addr(0), 0),
        }
    }
}
