// Rows that come, blank at first, and rows that go.
ghost use Rattle.std.specs.Prelude.{◌≡◌, ◌≤◌, Contains, IfOk, OnOk, OnErr, length, map};
ghost use Rattle.fib_reach.specs.Walks.{AllDiffer};
ghost use Rattle.fib_addr.specs.Prefixes.{Prefix as PrefixValue};
ghost use Rattle.fib_cover.specs.Covers.{IsAscending};
ghost use Rattle.fib_entries_rows.specs.Known.{prefix_of};
ghost use Rattle.fib_entries_rows.specs.inner.Plies.{IsGap};
ghost use Rattle.fib_follow_write.specs.Steps.{AreTaken};
ghost use Rattle.fib_follow_write.specs.Written.{HaveCome, HaveGone, blank};
ghost use Rattle.fib_follow_write.specs.inner.Stepped.{HasCome, HasGone};

use crate::steps::{Step, take_all};
use fib_addr::Prefix;
use fib_base_blocks::Blocks;
use fib_base_list::List;
use fib_entries_rows::Row;
use fib_entries_rows::coming::put_in;
use fib_entries_rows::dependants::Dependants;
use fib_entries_rows::going::take_out;
use fib_entries_rows::look::place_of;
use fib_entries_rows::rows::Body;
use std::alloc::{AllocError, Global};

/// The prefix's row, without pairs, marks and dependants.
fn blank(alloc: Global, prefix: Prefix) -> Result<Row, AllocError>
    ensures { IfOk result (λ r. r ≡ blank prefix) }
{
    let body = Body {
        pairs: List::new(alloc),
        looped: List::new(alloc),
        met: List::new(alloc),
        marked: List::new(alloc),
        dependants: Dependants::new(alloc),
        rank: 0,
    };
    Row::new(alloc, prefix, body)
}

/// Where the prefix belongs among the rows, none of which is its own.
fn place_for(rows: &Blocks<Row>, prefix: Prefix) -> usize
    requires ordered { IsAscending (map prefix_of rows.now) }
    requires absent { Contains (map prefix_of rows.now) prefix → ⊥ }
    ensures gap { IsGap (map prefix_of rows.now) result prefix }
    ensures inside { result ≤ length rows.now }
{
    match rows.search(&prefix) {
        Ok(_) => unreachable!(),
        Err(place) => place,
    }
}

impl Step<Blocks<Row>> for Prefix {
    ghost use Rattle.fib_follow_write.specs.inner.Stepped.{HasCome, IsToCome};

    ghost fits = { IsToCome };

    ghost makes = { HasCome };

    fn take(&self, alloc: Global, state: &mut Blocks<Row>) -> Result<(), AllocError> {
        let row = blank(alloc, *self)?;
        let place = place_for(state, *self);
        put_in(state, place, row)
    }

    fn take_back(&self, state: &mut Blocks<Row>) {
        match place_of(state, *self) {
            Some(place) => take_out(state, place),
            None => {}
        }
    }
}

/// A blank row comes for each of the prefixes, none of which has one. Errs where memory is wanting; the rows are as before then.
/// `take_all_back` takes them back.
pub fn come_all(
    alloc: Global,
    rows: &mut Blocks<Row>,
    prefixes: &[Prefix],
) -> Result<(), AllocError>
    requires ordered { IsAscending (map prefix_of rows.old) }
    requires once { AllDiffer prefixes.now }
    requires absent { (p : PrefixValue) → Contains prefixes.now p → Contains (map prefix_of rows.old) p → ⊥ }
    ensures ok { OnOk result (HaveCome prefixes.now rows.old rows.new) }
    ensures steps { OnOk result (AreTaken HasCome prefixes.now rows.old rows.new) }
    ensures err { OnErr result (rows.new ≡ rows.old) }
{
    take_all(alloc, rows, prefixes)
}

/// The prefix's row goes, where there is one.
fn go(rows: &mut Blocks<Row>, prefix: Prefix)
    requires { IsAscending (map prefix_of rows.old) }
    ensures { HasGone prefix rows.old rows.new }
{
    match place_of(rows, prefix) {
        Some(place) => take_out(rows, place),
        None => {}
    }
}

/// The prefixes' rows go, where there are some. Takes no memory.
pub fn go_all(rows: &mut Blocks<Row>, prefixes: &[Prefix])
    requires { IsAscending (map prefix_of rows.old) }
    ensures gone { HaveGone prefixes.now rows.old rows.new }
    ensures steps { AreTaken HasGone prefixes.now rows.old rows.new }
{
    'rows: for place in 0..prefixes.len() {
        go(rows, prefixes[place]);
    }
}
