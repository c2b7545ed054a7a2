// The line of a load, for each kind of word.
use fib_core::Word;
use fib_resolve::{Blocks, Interface, List, Name, Tables};
use fib_trace::{Load, put_load};
use std::alloc::Global;
use std::test::Fail;

/// Tables of one interface, eth0.
fn tables(alloc: Global) -> Result<Tables, Fail> {
    let text = b"eth0";
    if !Name::is_name(text) {
        return Err("no name".into());
    }
    let mut interfaces = List::new(alloc);
    interfaces.push(Interface {
        name: Name::from_text(List::from_vec(text.to_vec(alloc)?)),
        up: true,
    })?;
    Ok(Tables {
        interfaces,
        addresses: List::new(alloc),
        neighbors: Blocks::new(alloc),
        routes: Blocks::new(alloc),
    })
}

/// What a cell holds, and the text of that; of interface 1 there is no name.
const WORDS: [(Word, &str); 8] = [
    (Word::Drop, "drop"),
    (Word::Receive, "receive"),
    (Word::Glean(0), "glean eth0"),
    (Word::Glean(1), "glean "),
    (Word::ToPly(131_071), "ply 131071"),
    (Word::ToBalance(7), "balance 7"),
    (Word::ToAdjacency(0), "adjacency 0"),
    (Word::Plain(281_474_976_710_656), "plain 281474976710656"),
];

#[test]
fn each_word_has_its_text(rt: HostRuntime) -> Result<(), Fail> {
    let alloc = rt.alloc();
    let tables = tables(alloc)?;
    for (word, text) in WORDS {
        let load = Load {
            object: 130_000,
            slot: 15,
            word,
        };
        let want = format!(in alloc; "before\nhop 10 object 130000 slot 15 {text}\n")?;
        let mut out = b"before\n".to_vec(alloc)?;
        put_load(&mut out, &tables, 10, &load)?;
        assert_eq!(rt; out.as_slice(), want.as_bytes(), "{load:?}");
    }
    Ok(())
}
