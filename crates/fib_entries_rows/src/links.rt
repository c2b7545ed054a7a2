// A row's dependants, as one comes or goes.
ghost use Rattle.std.specs.Prelude.{false, ◌≡◌, ◌<◌, OnOk, OnErr, Some, length, slice_get, slice_set};
ghost use Rattle.std.specs.Set.{is_member};
ghost use Rattle.fib_addr.specs.Prefixes.{same_prefix};
ghost use Rattle.fib_entries_rows.specs.Rows.{Row as RowValue};
ghost use Rattle.fib_entries_rows.specs.inner.Leaf.{pushed, popped, IsUnlinked};

use crate::rows::Row;
use fib_addr::Prefix;
use fib_base_blocks::Blocks;
use std::alloc::AllocError;

/// The prefix becomes the last dependant of the row at that place.
pub fn push_at(rows: &mut Blocks<Row>, place: usize, p: Prefix) -> Result<(), AllocError>
    requires { (r : RowValue) × (slice_get rows.old place ≡ Some r) × (is_member same_prefix r.dependants p ≡ false) }
    ensures ok { OnOk result ((r : RowValue) → slice_get rows.old place ≡ Some r → rows.new ≡ slice_set rows.old place (pushed p r)) }
    ensures err { OnErr result (rows.new ≡ rows.old) }
{
    rows[place].body.dependants.put(p)
}

/// The last dependant of the row at that place goes.
pub fn pop_at(rows: &mut Blocks<Row>, place: usize)
    requires { place < length rows.old }
    ensures { (r : RowValue) → slice_get rows.old place ≡ Some r → rows.new ≡ slice_set rows.old place (popped r) }
{
    rows[place].body.dependants.pop();
}

/// The prefix goes from the dependants of the row at that place.
pub fn remove_at(rows: &mut Blocks<Row>, place: usize, p: Prefix)
    requires { place < length rows.old }
    ensures { (r : RowValue) → slice_get rows.old place ≡ Some r → IsUnlinked place p r rows.old rows.new }
{
    rows[place].body.dependants.remove(p);
}
