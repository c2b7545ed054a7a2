// What no clause says: that calls succeed with ample memory, and the order of listings.
use crate::expect::{holds, same};
use fib_addr::{Addr, Prefix};
use fib_base_list::Duplicate;
use fib_resolve::keys::{
    compare, compare_paths, is_before, is_same_key, is_same_path, is_same_source, key_of,
};
use fib_resolve::{FibSource, Interface, List, Name, Need, Path, PathKind, Route, Tables, laws};
use std::alloc::Global;
use std::cmp::Ordering;
use std::test::Fail;

fn path(kind: PathKind, weight: u8) -> Path {
    Path {
        kind,
        need: Need::Any,
        weight,
        preference: 0,
    }
}

fn name(alloc: Global, text: &str) -> Result<Name, Fail> {
    if !Name::is_name(text.as_bytes()) {
        return Err("no name".into());
    }
    let bytes = text.as_bytes().to_vec(alloc)?;
    Ok(Name::from_text(List::from_vec(bytes)))
}

#[test]
fn paths_in_order(rt: HostRuntime) {
    let hop = PathKind::Hop {
        next_hop: Addr(9),
        interface: 1,
    };
    let ordered = [
        path(PathKind::Drop, 9),
        path(PathKind::Local, 1),
        path(PathKind::Attached(0), 3),
        path(PathKind::Attached(2), 1),
        path(hop, 1),
        path(PathKind::Recursive(Addr(3)), 1),
        path(PathKind::Recursive(Addr(3)), 2),
        path(PathKind::Cover, 1),
    ];
    for (first, second) in ordered.iter().zip(ordered.iter().skip(1)) {
        let (a, b) = (key_of(first), key_of(second));
        same(&rt, compare_paths(first, second), Ordering::Less);
        same(&rt, first.cmp(second), Ordering::Less);
        holds(&rt, !is_same_path(first, second));
        same(&rt, is_before(a, b), compare(a, b) == Ordering::Less);
        same(&rt, is_same_key(a, b), compare(a, b) == Ordering::Equal);
    }
    holds(&rt, !is_same_source(FibSource::Api, FibSource::Cli));
    holds(&rt, FibSource::Api < FibSource::Cli);
}

#[test]
fn copies_with_ample_memory(rt: HostRuntime) -> Result<(), Fail> {
    let alloc = rt.alloc();
    let mut tables = Tables::fresh(alloc);
    tables.interfaces.push(Interface {
        name: name(alloc, "eth0")?,
        up: true,
    })?;
    let mut paths = List::new(alloc);
    paths.push(path(PathKind::Attached(0), 1))?;
    tables.routes.push(Route {
        prefix: Prefix::host(Addr(7)),
        source: FibSource::Cli,
        paths,
    })?;
    let copied = tables.duplicate(alloc)?;
    same(&rt, copied.routes.len(), 1);
    let [interface] = copied.interfaces.as_slice() else {
        return Err("one interface".into());
    };
    holds(&rt, interface.name.is(&name(alloc, "eth0")?));
    same(&rt, interface.name.as_bytes(), b"eth0".as_slice());
    Ok(())
}

#[test]
fn laws_are_calls() {
    laws::fresh_is_sound();
    laws::edits_keep_sound();
    laws::reachable_is_sound();
    laws::one_list_a_source();
    laws::chosen_lists_are_short();
    laws::best_is_longest();
    laws::cover_is_longest();
    laws::prefixes_decide();
    laws::attached_by_the_cover();
    laws::looped_is_a_walk();
    laws::kept_edges_are_acyclic();
    laws::forwards_is_steady();
    laws::forwarding_is_a_usable_path();
    laws::looped_paths_are_not_wanted();
    laws::entry_without_usable_path_drops();
    laws::follow_is_steady();
    laws::answers_are_possible_ends();
    laws::listings_are_distinct();
    laws::fresh_size_is_twenty();
    laws::touched_is_listed();
    laws::untouched_keeps_pairs();
    laws::untouched_keeps_wanted();
}
