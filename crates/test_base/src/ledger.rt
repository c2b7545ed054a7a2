// Each public call once.
use crate::expect::{holds, same};
use fib_addr::{Addr, Prefix};
use fib_base_list::List;
use fib_core::Word;
use fib_stack_ledger::{Known, Late, Lates, Ledger, Use};
use std::test::Fail;

#[test]
fn buckets_are_deferred_and_cleared(rt: HostRuntime) -> Result<(), Fail> {
    let first = Prefix::masked(Addr(0x0a00_0000), 8);
    let second = Prefix::host(Addr(0x0a00_0001));
    let mut late = Lates::new(rt.alloc());
    late.reserve(3)?;
    late.add(first, 4, Word::ToBalance(7));
    late.add(second, 4, Word::ToBalance(8));
    late.add(first, 5, Word::ToBalance(9));
    holds(&rt, late.len() == 3);
    same(
        &rt,
        late.at(1),
        Late {
            entry: second,
            slot: 4,
            word: Word::ToBalance(8),
        },
    );
    late.clear(first);
    holds(&rt, late.len() == 1);
    late.take_out(0);
    same(&rt, late.len(), 0);
    // Its allocator can be asked for.
    let _alloc = late.allocator();
    Ok(())
}

#[test]
fn a_prefix_is_known_and_forgotten(rt: HostRuntime) -> Result<(), Fail> {
    let prefix = Prefix::masked(Addr(0x0a00_0000), 8);
    let mut ledger = Ledger::new(rt.alloc());
    ledger.reserve(1)?;
    let mut uses = List::new(rt.alloc());
    uses.push(Use {
        interface: 2,
        next_hop: Addr(0x0a00_0001),
        mac: None,
        object: 30,
    })?;
    holds(&rt, !ledger.forwarded(prefix));
    holds(
        &rt,
        ledger
            .set(
                prefix,
                Known {
                    forwarded: true,
                    uses,
                },
            )
            .is_none(),
    );
    holds(&rt, ledger.forwarded(prefix));
    ledger.tells();
    let Some(old) = ledger.forget(prefix) else {
        panic!(rt; "nothing is known");
    };
    same(&rt, old.uses.len(), 1);
    holds(&rt, !ledger.forwarded(prefix));
    Ok(())
}
