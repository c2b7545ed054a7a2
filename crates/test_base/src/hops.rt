// Each public call.
use crate::expect::same;
use fib_addr::{Addr, Mac};
use fib_core::{Stage, Word, adjacency_end, after_balance, after_ply};
use fib_resolve::End;

#[test]
fn steps_from_place_to_place(rt: HostRuntime) {
    same(
        &rt,
        Stage::first(),
        Stage::Ply {
            object: 0,
            depth: 0,
        },
    );
    same(
        &rt,
        after_ply(Word::ToPly(5), 6, 9),
        Stage::Ply {
            object: 5,
            depth: 7,
        },
    );
    same(&rt, after_ply(Word::ToPly(5), 7, 9).end(), Some(End::Drop));
    same(
        &rt,
        after_ply(Word::ToBalance(3), 0, 9),
        Stage::Balance { object: 3, left: 9 },
    );
    same(
        &rt,
        after_balance(Word::ToBalance(4), 9),
        Stage::Balance { object: 4, left: 4 },
    );
    same(
        &rt,
        after_balance(Word::ToAdjacency(6), 9),
        Stage::Adjacency { object: 6 },
    );
    same(&rt, after_balance(Word::ToAdjacency(6), 9).end(), None);
    same(
        &rt,
        after_balance(Word::Receive, 9).end(),
        Some(End::Receive),
    );
    same(
        &rt,
        adjacency_end(
            Word::Plain(2),
            Word::Plain(7),
            Word::Plain(0x0200_0000_0002),
        ),
        End::Hop {
            interface: 2,
            next_hop: Addr(7),
            mac: Mac::new(0x0200_0000_0001),
        },
    );
}
