// A plan, and its writing.
ghost use Rattle.std.specs.Prelude.{◌≡◌, ℕ, Contains, IfOk, OnOk, OnErr, map, List as Items};
ghost use Rattle.fib_reach.specs.Walks.{AllDiffer};
ghost use Rattle.fib_addr.specs.Prefixes.{Prefix as PrefixValue};
ghost use Rattle.fib_cover.specs.Covers.{IsAscending};
ghost use Rattle.fib_resolve.specs.declared.types.Path.{Path as PathValue};
ghost use Rattle.fib_entries_rows.specs.Known.{PathKept, prefix_of};
ghost use Rattle.fib_entries_rows.specs.Rows.{Row as RowValue};
ghost use Rattle.fib_entries_rows.specs.inner.Fields.{AreCounted};
ghost use Rattle.fib_entries_rows.specs.inner.Used.{AreUsed};
ghost use Rattle.fib_follow_write.specs.Plans.{IsPlan, IsWritten};
ghost use Rattle.fib_follow_write.specs.Steps.{AreTaken};
ghost use Rattle.fib_follow_write.specs.Written.{AreNew, changed, led};
ghost use Rattle.fib_follow_write.specs.inner.Ready.{AreNumbered, IsReady, IsToFinish};
ghost use Rattle.fib_follow_write.specs.inner.Stepped.{AreTakenFor, HasCome, HasJoined};

use crate::bodies::{mark_all, pair_all, with_numbers};
use crate::edges::{lead_all, unlead_all};
use crate::lists::take_lists;
use crate::order::{join_all, leave_all};
use crate::plan::{Edge, Marks, Paired, Sourced};
use crate::rows::{come_all, go_all};
use crate::spending::{give_paired, give_rows};
use crate::steps::take_all_back;
use fib_addr::Prefix;
use fib_base_blocks::Blocks;
use fib_base_list::List;
use fib_cover::PrefixSet;
use fib_entries_rows::Row;
use fib_paths::PathLists;
use std::alloc::{AllocError, Global};

/// What entries become.
#[derive(Drop)]
pub struct Plan {
    /// The prefixes that become entries, each once.
    pub came: List<Prefix>,
    /// The entries that get other sources or lists, each once: those that come, and others that stay.
    pub paired: List<Paired>,
    /// The entries that get other marks or another rank.
    pub marks: List<Marks>,
    /// The prefixes that are entries no more, each once.
    pub gone: List<Prefix>,
    /// The edges that come, each once.
    pub edges_in: List<Edge>,
    /// The edges that go.
    pub edges_out: List<Edge>,
}

/// The lists that entries get are taken, and the numbers of these are told. Errs as `take_lists` does; all is as before then.
fn take_numbered(
    alloc: Global,
    lists: &mut PathLists,
    paired: &[Paired],
) -> Result<Vec<Sourced>, AllocError>
    requires { (f : Items PathValue → ℕ) × AreCounted lists.old f }
    ensures taken { (f : Items PathValue → ℕ) → AreCounted lists.old f
        → IfOk result (λ v. AreNumbered paired.now v.items f lists.old lists.new) }
    ensures steps { OnOk result (AreTaken AreTakenFor paired.now lists.old lists.new) }
    ensures err { OnErr result (lists.new ≡ lists.old) }
{
    take_lists(alloc, lists, paired)?;
    match with_numbers(alloc, lists, paired) {
        Ok(entries) => Ok(entries),
        Err(e) => {
            take_all_back(lists, paired);
            Err(e)
        }
    }
}

/// The edges come to the rows, and the lists are taken. After want of memory all is as before.
fn lead_and_take(
    alloc: Global,
    rows: &mut Blocks<Row>,
    lists: &mut PathLists,
    plan: &Plan,
) -> Result<Vec<Sourced>, AllocError>
    requires ordered { IsAscending (map prefix_of rows.old) }
    requires new { AreNew rows.old plan.now.edges_in }
    requires counted { (f : Items PathValue → ℕ) × AreCounted lists.old f }
    ensures led { OnOk result (rows.new ≡ map (changed led plan.now.edges_in) rows.old) }
    ensures taken { (f : Items PathValue → ℕ) → AreCounted lists.old f
        → IfOk result (λ v. AreNumbered plan.now.paired v.items f lists.old lists.new) }
    ensures rows { OnErr result (rows.new ≡ rows.old) }
    ensures lists { OnErr result (lists.new ≡ lists.old) }
{
    lead_all(alloc, rows, plan.edges_in.as_slice())?;
    match take_numbered(alloc, lists, plan.paired.as_slice()) {
        Ok(entries) => Ok(entries),
        Err(e) => {
            take_all_back(rows, plan.edges_in.as_slice());
            Err(e)
        }
    }
}

/// Blank rows and their prefixes come. After want of memory all is as before.
fn come_both(
    alloc: Global,
    rows: &mut Blocks<Row>,
    order: &mut PrefixSet,
    prefixes: &[Prefix],
) -> Result<(), AllocError>
    requires ordered { IsAscending (map prefix_of rows.old) }
    requires same { order.old ≡ map prefix_of rows.old }
    requires once { AllDiffer prefixes.now }
    requires absent { (p : PrefixValue) → Contains prefixes.now p → Contains (map prefix_of rows.old) p → ⊥ }
    ensures come { OnOk result (AreTaken HasCome prefixes.now rows.old rows.new) }
    ensures join { OnOk result (AreTaken HasJoined prefixes.now order.old order.new) }
    ensures rows { OnErr result (rows.new ≡ rows.old) }
    ensures order { OnErr result (order.new ≡ order.old) }
{
    come_all(alloc, rows, prefixes)?;
    match join_all(alloc, order, prefixes) {
        Ok(()) => Ok(()),
        Err(e) => {
            take_all_back(rows, prefixes);
            Err(e)
        }
    }
}

/// Blank rows and prefixes come, edges come, and lists are taken. After want of memory all is as before.
fn make_ready(
    alloc: Global,
    rows: &mut Blocks<Row>,
    lists: &mut PathLists,
    order: &mut PrefixSet,
    plan: &Plan,
) -> Result<Vec<Sourced>, AllocError>
    requires used { AreUsed rows.old lists.old order.old }
    requires plan { IsPlan rows.old plan.now }
    ensures ready { IfOk result (λ v. IsReady plan.now v.items rows.old rows.new lists.old lists.new order.old order.new) }
    ensures rows { OnErr result (rows.new ≡ rows.old) }
    ensures lists { OnErr result (lists.new ≡ lists.old) }
    ensures order { OnErr result (order.new ≡ order.old) }
{
    come_both(alloc, rows, order, plan.came.as_slice())?;
    match lead_and_take(alloc, rows, lists, plan) {
        Ok(entries) => Ok(entries),
        Err(e) => {
            take_all_back(order, plan.came.as_slice());
            take_all_back(rows, plan.came.as_slice());
            Err(e)
        }
    }
}

/// What the plan replaces or takes out loses its lists, and rows get what the plan has for them. Takes no memory.
fn finish(
    rows: &mut Blocks<Row>,
    lists: &mut PathLists,
    order: &mut PrefixSet,
    plan: Plan,
    entries: Vec<Sourced>,
)
    requires { IsToFinish plan entries.items rows.old lists.old order.old }
    ensures { (old : Items RowValue) (before : Items PathKept) (members : Items PrefixValue)
        → IsPlan old plan → IsReady plan entries.items old rows.old before lists.old members order.old
        → AreUsed old before members → IsWritten plan old rows.new before lists.new order.new }
{
    let Plan {
        came: _,
        paired,
        marks,
        gone,
        edges_in: _,
        edges_out,
    } = plan;
    give_paired(rows, lists, paired.as_slice());
    give_rows(rows, lists, gone.as_slice());
    pair_all(rows, entries);
    mark_all(rows, marks.into_vec());
    unlead_all(rows, edges_out.as_slice());
    go_all(rows, gone.as_slice());
    leave_all(order, gone.as_slice());
}

/// Writes the plan into rows, lists and the set of the rows' prefixes. Errs where memory is wanting, or where a list would have more users
/// than a `u32` counts; all is as before then.
pub fn write(
    alloc: Global,
    rows: &mut Blocks<Row>,
    lists: &mut PathLists,
    order: &mut PrefixSet,
    plan: Plan,
) -> Result<(), AllocError>
    requires used { AreUsed rows.old lists.old order.old }
    requires plan { IsPlan rows.old plan }
    ensures ok { OnOk result (IsWritten plan rows.old rows.new lists.old lists.new order.new) }
    ensures rows { OnErr result (rows.new ≡ rows.old) }
    ensures lists { OnErr result (lists.new ≡ lists.old) }
    ensures order { OnErr result (order.new ≡ order.old) }
{
    let entries = make_ready(alloc, rows, lists, order, &plan)?;
    finish(rows, lists, order, plan, entries);
    Ok(())
}
