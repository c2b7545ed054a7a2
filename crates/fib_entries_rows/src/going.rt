// A row that goes.
ghost use Rattle.std.specs.Prelude.{◌≡◌, ◌<◌, length};
ghost use Rattle.std.specs.List.{remove};

use crate::rows::Row;
use fib_base_blocks::Blocks;

/// The row at that place goes. Takes no memory.
pub fn take_out(rows: &mut Blocks<Row>, place: usize)
    requires { place < length rows.old }
    ensures { rows.new ≡ remove rows.old place }
{
    rows.remove(place);
}
