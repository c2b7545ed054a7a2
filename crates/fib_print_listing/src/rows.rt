// Texts in a row.
ghost use Rattle.std.specs.Prelude.{◌≡◌, ◌++◌, OnOk};
ghost use Rattle.fib_print_listing.specs.Order.{gap};

use std::alloc::AllocError;

/// What stands before the text at that place.
pub fn put_gap(out: &mut Vec<u8>, sep: &str, place: usize) -> Result<(), AllocError>
    ensures { OnOk result (out.new.items ≡ out.old.items ++ gap sep.now place) }
{
    if place == 0 {
        return Ok(());
    }
    out.extend_from_slice(sep.as_bytes())
}
