// The listings of empty tables; those of others are tested by whole files, in the crate above.
ghost use Rattle.std.specs.Prelude.{◌≡◌, IfOk};
ghost use Rattle.fib_resolve.specs.Tables.{fresh};

use fib_entries::Entries;
use fib_print_listing::{laws, put_adjacencies, put_entries, put_path_lists};
use fib_resolve::{Blocks, List, Tables};
use std::alloc::Global;
use std::test::Fail;

fn empty(alloc: Global) -> Tables
    ensures { result ≡ fresh }
{
    Tables {
        interfaces: List::new(alloc),
        addresses: List::new(alloc),
        neighbors: Blocks::new(alloc),
        routes: Blocks::new(alloc),
    }
}

#[tactic(auto, using(fib_resolve::proofs::Sound::sound_fresh))]
#[test]
fn listings_of_empty_tables(rt: HostRuntime) -> Result<(), Fail> {
    let tables = empty(rt.alloc());
    let entries = Entries::of(rt.alloc(), &tables)?;
    let mut out = Vec::new(rt.alloc());
    put_entries(&mut out, rt.alloc(), &tables, &entries)?;
    assert!(rt;
        out.starts_with(
            b"0.0.0.0/0 default-route: drop weight 1 preference 0\n0.0.0.0/32 special: "
        )
    );
    let mut out = Vec::new(rt.alloc());
    put_path_lists(&mut out, rt.alloc(), &tables, &entries)?;
    put_adjacencies(&mut out, rt.alloc(), &tables, &entries)?;
    assert_eq!(rt;
        out.as_slice(),
        b"users 5: drop weight 1 preference 0\n".as_slice()
    );
    laws::listings_are_in_order();
    laws::listings_are_the_only_ones();
    Ok(())
}
