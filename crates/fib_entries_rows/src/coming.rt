// A row that comes.
ghost use Rattle.std.specs.Prelude.{◌≡◌, ◌≤◌, OnOk, OnErr, length};
ghost use Rattle.std.specs.List.{insert};

use crate::rows::Row;
use fib_base_blocks::Blocks;
use std::alloc::AllocError;

/// Puts the row in at that place, before the row that stood there.
pub fn put_in(rows: &mut Blocks<Row>, place: usize, row: Row) -> Result<(), AllocError>
    requires { place ≤ length rows.old }
    ensures ok { OnOk result (rows.new ≡ insert rows.old place row) }
    ensures err { OnErr result (rows.new ≡ rows.old) }
{
    rows.insert(place, row)
}
