// Each public call once.
use crate::expect::same;
use fib_core::{Word, laws};

#[test]
fn words_and_codes(rt: HostRuntime) {
    same(&rt, Word::Drop.encode(), 0);
    same(&rt, Word::Receive.encode(), 0x0100_0000_0000_0000);
    same(&rt, Word::Glean(3).encode(), 0x0200_0000_0000_0003);
    same(&rt, Word::ToPly(7).encode(), 0x0300_0000_0000_0007);
    same(&rt, Word::ToBalance(1).encode(), 0x0400_0000_0000_0001);
    same(
        &rt,
        Word::ToAdjacency(4_294_967_295).encode(),
        0x0500_0000_ffff_ffff,
    );
    same(
        &rt,
        Word::Plain(0x00ff_ffff_ffff_ffff).encode(),
        0x06ff_ffff_ffff_ffff,
    );
    same(&rt, Word::decode(Word::Glean(3).encode()), Word::Glean(3));
    same(&rt, Word::decode(Word::Plain(9).encode()), Word::Plain(9));
}

#[test]
fn each_law() {
    laws::passes_visit_no_object_twice();
    laws::walks_have_an_end();
    laws::stores_are_those_of_edges();
    laws::looks_are_those_at_edges();
    laws::cycles_are_those_of_edges();
}
