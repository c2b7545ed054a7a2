// Edges that come to the rows' dependants, and edges that go from them.
ghost use Rattle.std.specs.Prelude.{◌≡◌, ◌∷◌, [], OnOk, OnErr, map};
ghost use Rattle.fib_cover.specs.Covers.{IsAscending};
ghost use Rattle.fib_entries_rows.specs.Known.{prefix_of};
ghost use Rattle.fib_entries_rows.specs.inner.Leaf.{AreDetached};
ghost use Rattle.fib_follow_write.specs.Steps.{AreTaken};
ghost use Rattle.fib_follow_write.specs.Written.{AreNew, AreUnled, changed, led};
ghost use Rattle.fib_follow_write.specs.inner.Stepped.{IsLed};

use crate::plan::Edge;
use crate::steps::{Step, take_all};
use fib_base_blocks::Blocks;
use fib_entries_rows::Row;
use fib_entries_rows::links::{pop_at, push_at, remove_at};
use fib_entries_rows::look::place_of;
use std::alloc::{AllocError, Global};

impl Step<Blocks<Row>> for Edge {
    ghost use Rattle.fib_follow_write.specs.inner.Stepped.{IsLed, IsToLead};

    ghost fits = { IsToLead };

    ghost makes = { IsLed };

    fn take(&self, alloc: Global, state: &mut Blocks<Row>) -> Result<(), AllocError> {
        // Dependants know their memory themselves.
        let _alloc = alloc;
        match place_of(state, self.to) {
            Some(place) => push_at(state, place, self.from),
            None => Ok(()),
        }
    }

    fn take_back(&self, state: &mut Blocks<Row>) {
        match place_of(state, self.to) {
            Some(place) => pop_at(state, place),
            None => {}
        }
    }
}

/// The edges come: each row to which one leads gets the entry that leads there as its last dependant. A row must lack what comes to it,
/// and no edge may be there twice. Errs where memory is wanting; the rows are as before then. `take_all_back` takes them back.
pub fn lead_all(alloc: Global, rows: &mut Blocks<Row>, edges: &[Edge]) -> Result<(), AllocError>
    requires ordered { IsAscending (map prefix_of rows.old) }
    requires new { AreNew rows.old edges.now }
    ensures ok { OnOk result (rows.new ≡ map (changed led edges.now) rows.old) }
    ensures steps { OnOk result (AreTaken IsLed edges.now rows.old rows.new) }
    ensures err { OnErr result (rows.new ≡ rows.old) }
{
    take_all(alloc, rows, edges)
}

/// The edge goes.
fn unlead(rows: &mut Blocks<Row>, edge: Edge)
    requires { IsAscending (map prefix_of rows.old) }
    ensures { AreDetached edge.from (edge.to ∷ []) [] rows.old rows.new }
{
    match place_of(rows, edge.to) {
        Some(place) => remove_at(rows, place, edge.from),
        None => {}
    }
}

/// The edges go: no row to which one leads has the entry that leads there as a dependant. Takes no memory.
pub fn unlead_all(rows: &mut Blocks<Row>, edges: &[Edge])
    requires { IsAscending (map prefix_of rows.old) }
    ensures { AreUnled edges.now rows.old rows.new }
{
    'edges: for place in 0..edges.len() {
        unlead(rows, edges[place]);
    }
}
