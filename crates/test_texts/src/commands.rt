// Worked lines, of which no clause speaks by value.
use crate::expect::{holds, same};
use fib_commands::{Line, LineError, Script, ScriptError, laws, read_line};
use fib_resolve::{Edit, SpecKind};
use std::alloc::Global;
use std::test::Fail;

/// What a line says, in a few words.
fn said(alloc: Global, text: &str) -> &'static str {
    match read_line(alloc, text.as_bytes()) {
        Err(LineError::Syntax) => "syntax",
        Err(LineError::Memory) => "memory",
        Ok(Line::Nothing) => "nothing",
        Ok(Line::Lookup(..)) => "lookup",
        Ok(Line::ShowFib) => "fib",
        Ok(Line::ShowPathLists) => "lists",
        Ok(Line::ShowAdj) => "adj",
        Ok(Line::Forward(_)) => "forward",
        Ok(Line::Begin) => "begin",
        Ok(Line::Commit) => "commit",
        Ok(Line::Change(edit)) => edit_name(&edit),
    }
}

fn edit_name(edit: &Edit) -> &'static str {
    match edit {
        Edit::CreateInterface(_) => "create",
        Edit::SetState { up, .. } => { if *up { "up" } else { "down" } }
        Edit::AddAddress { .. } => "add address",
        Edit::DelAddress { .. } => "del address",
        Edit::SetNeighbor { .. } => "neighbor",
        Edit::DelNeighbor { .. } => "del neighbor",
        Edit::AddRoute { api, .. } => { if *api { "api add" } else { "add" } }
        Edit::DelRoute { api, .. } => { if *api { "api del" } else { "del" } }
    }
}

#[test]
fn each_form_and_its_neighbors(rt: HostRuntime) {
    let rows = [
        ("", "nothing"),
        ("\t # any byte \u{7f}", "nothing"),
        ("create interface eth0", "create"),
        ("create interface 0eth", "syntax"),
        ("create interface via", "syntax"),
        ("set interface state eth0 up", "up"),
        ("set interface state eth0 down", "down"),
        ("set interface state eth0 UP", "syntax"),
        ("set interface ip address eth0 10.0.0.1/24", "add address"),
        (
            "set interface ip address del eth0 10.0.0.1/24",
            "del address",
        ),
        (
            "set ip neighbor eth0 10.0.0.9 02:00:00:00:00:09",
            "neighbor",
        ),
        ("set ip neighbor del eth0 10.0.0.9", "del neighbor"),
        (
            "set ip neighbor del eth0 10.0.0.9 02:00:00:00:00:09",
            "del neighbor",
        ),
        ("ip route add 20.0.0.0/8 via 10.0.0.7", "add"),
        ("ip route add 20.0.0.0/8", "syntax"),
        ("ip route add 20.0.0.0/8 via", "syntax"),
        ("ip route add 10.0.0.0/33 via drop", "syntax"),
        ("ip route add 10.0.0.0/8 via drop weight 0", "syntax"),
        ("ip route add 10.0.0.0/8 via drop weight 256", "syntax"),
        ("ip route add 10.0.0.0/8 via drop preference 256", "syntax"),
        (
            "ip route add 10.0.0.0/8 via drop resolve-via-host",
            "syntax",
        ),
        ("ip route del 20.0.0.0/8", "del"),
        ("api ip route add 20.0.0.0/8 via drop", "api add"),
        ("api ip route del 20.0.0.0/8 via eth1", "api del"),
        ("lookup 10.0.0.1 4294967295", "lookup"),
        ("lookup 10.0.0.1 4294967296", "syntax"),
        ("lookup 256.0.0.0 0", "syntax"),
        ("show ip fib", "fib"),
        ("show fib path-lists", "lists"),
        ("show adj", "adj"),
        ("show adj now", "syntax"),
        ("forward 5", "forward"),
        ("begin", "begin"),
        ("commit", "commit"),
        ("Begin", "syntax"),
    ];
    for (text, what) in rows {
        assert_eq!(rt; said(rt.alloc(), text), what, "{text}");
    }
    laws::a_line_has_one_reading();
    laws::canonical_lines_are_read_back();
}

#[test]
fn options_stand_in_any_order(rt: HostRuntime) -> Result<(), Fail> {
    let text =
        "ip route add 20.0.0.0/8 via 10.0.0.7 preference 4 resolve-via-host weight 3 via eth0";
    let line = read_line(rt.alloc(), text.as_bytes())?;
    let Line::Change(Edit::AddRoute { paths, .. }) = line else {
        return Err("no route")?;
    };
    holds(&rt, paths.len() == 2);
    let first = &paths.as_slice()[0];
    same(&rt, (first.weight, first.preference), (3, 4));
    same(&rt, first.need, fib_resolve::Need::Host);
    let second = &paths.as_slice()[1];
    holds(&rt, matches!(&second.kind, SpecKind::Attached(_)));
    same(&rt, (second.weight, second.preference), (1, 0));
    Ok(())
}

#[test]
fn scripts_have_their_lines(rt: HostRuntime) -> Result<(), Fail> {
    let script = Script::read(rt.alloc(), b"one\r\n\r\r\ntwo")?;
    holds(&rt, script.lines() == 3);
    same(&rt, script.line(1), b"one".as_slice());
    same(&rt, script.line(2), b"\r".as_slice());
    same(&rt, script.line(3), b"two".as_slice());
    let feeds = vec![in rt.alloc(); b'\n'; 65_536]?;
    same(
        &rt,
        Script::read(rt.alloc(), &feeds[..65_535])?.lines(),
        65_535,
    );
    match Script::read(rt.alloc(), &feeds) {
        Err(ScriptError::TooManyLines) => Ok(()),
        _ => Err("too many lines")?,
    }
}
