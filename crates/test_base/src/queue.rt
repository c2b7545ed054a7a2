// Each public call once, over prefixes with ranks.
use crate::expect::{holds, same};
use fib_addr::{Addr, Prefix};
use fib_stack_queue::{Queue, Queued};
use std::test::Fail;

fn prefix(number: u32) -> Prefix {
    Prefix::host(Addr(number.wrapping_mul(2_654_435_761)))
}

#[test]
fn prefixes_are_taken_by_rank(rt: HostRuntime) -> Result<(), Fail> {
    let mut queue = Queue::new(rt.alloc());
    same(&rt, queue.least(), None);
    for number in 0..300u32 {
        queue.reserve(rt.alloc(), 1)?;
        holds(&rt, queue.spare() >= 1);
        queue.add(prefix(number), number * 7 % 100);
    }
    queue.reserve(rt.alloc(), 2)?;
    queue.set_rank(prefix(5), 1_000);
    queue.set_rank(prefix(300), 1);
    same(&rt, queue.rank(prefix(5)), Some(1_000));
    holds(&rt, queue.is_queued(prefix(5)));
    holds(&rt, !queue.is_queued(prefix(300)));
    same(&rt, queue.len(), 300);
    let mut last = 0;
    for _ in 0..300u32 {
        let Some(next) = queue.least() else {
            panic!(rt; "nothing is queued");
        };
        holds(&rt, last <= next.rank);
        last = next.rank;
        queue.remove(next.prefix);
    }
    same(&rt, last, 1_000);
    same(&rt, queue.len(), 0);
    Ok(())
}

#[test]
fn one_rank_is_taken_by_prefix(rt: HostRuntime) -> Result<(), Fail> {
    let mut queue = Queue::new(rt.alloc());
    queue.reserve(rt.alloc(), 4)?;
    let low = Prefix::masked(Addr(0x0a00_0000), 8);
    let long = Prefix::masked(Addr(0x0a00_0000), 16);
    let high = Prefix::masked(Addr(0x0b00_0000), 8);
    queue.add(high, 3);
    queue.add(long, 3);
    queue.add(low, 3);
    queue.remove(high);
    queue.add(high, 3);
    for one in [low, long, high] {
        same(
            &rt,
            queue.least(),
            Some(Queued {
                prefix: one,
                rank: 3,
            }),
        );
        queue.remove(one);
    }
    Ok(())
}
