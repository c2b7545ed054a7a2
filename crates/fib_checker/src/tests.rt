// Whole runs over files and streams in memory. What is expected comes from a reference model.
use crate::top::check_main;
use fib_outside::{MemoryShelf, MemorySink};
use std::alloc::{AllocError, Global};
use std::test::Fail;

fn words_of(alloc: Global, words: &[&str]) -> Result<Vec<String>, AllocError> {
    let mut given = Vec::new(alloc);
    for word in words {
        given.push(String::from_str(alloc, word)?)?;
    }
    Ok(given)
}

// The status of a run over the file `commands` and what it wrote, where the fetches and writes of these numbers fail.
fn outcome(
    alloc: Global,
    words: &[&str],
    commands: &[u8],
    failing: (&[u32], &[u32]),
) -> Result<(u8, Vec<u8>), Fail> {
    let given = words_of(alloc, words)?;
    let mut files = Vec::new(alloc);
    files.push((
        String::from_str(alloc, "commands")?,
        commands.to_vec(alloc)?,
    ))?;
    let mut shelf = MemoryShelf::new(files, failing.0.to_vec(alloc)?);
    let mut out = MemorySink::new(alloc, 10_000, failing.1.to_vec(alloc)?)?;
    let status = check_main(alloc, &given, &mut shelf, &mut out);
    Ok((status, out.bytes().to_vec(alloc)?))
}

/// Two interfaces with an address each.
const UPLINKS: &str =
    "create interface eth0\nset interface state eth0 up\nset interface ip address eth0 10.0.0.1/24\n\
    create interface eth1\nset interface state eth1 up\nset interface ip address eth1 10.1.0.1/24\n";

// Whether these lines, after those of both interfaces, print this.
fn prints(alloc: Global, lines: &str, want: &str) -> Result<bool, Fail> {
    let text = format!(in alloc; "{UPLINKS}{lines}")?;
    let (status, wrote) = outcome(alloc, &["commands"], text.as_bytes(), (&[], &[]))?;
    Ok(status == 0 && wrote.as_slice() == want.as_bytes())
}

#[test]
fn checks_follow_a_flag(rt: HostRuntime) -> Result<(), Fail> {
    let lines = "ip route add 20.0.0.0/8 via 10.0.0.7\n\
        check 20.1.1.1 eth0\ncheck 20.1.1.1 eth1\ncheck 8.8.8.8 eth0\n\
        set interface state eth0 down\ncheck 20.1.1.1 eth0\n";
    let want =
        "strict pass loose pass\nstrict fail loose pass\nstrict fail loose fail\nstrict fail loose fail\n";
    assert!(rt; prints(rt.alloc(), lines, want)?);
    Ok(())
}

#[test]
fn paths_of_every_preference_count(rt: HostRuntime) -> Result<(), Fail> {
    let lines = "ip route add 20.0.0.0/8 via 10.0.0.7 eth0 via 10.1.0.7 eth1 preference 2\n\
        check 20.1.1.1 eth0\ncheck 20.1.1.1 eth1\n";
    assert!(rt;
        prints(
            rt.alloc(),
            lines,
            "strict pass loose pass\nstrict pass loose pass\n"
        )?
    );
    Ok(())
}

#[test]
fn a_chain_loses_its_last_hop_and_gets_it_back(rt: HostRuntime) -> Result<(), Fail> {
    let lines =
        "ip route add 30.0.0.1/32 via 10.0.0.7\nip route add 30.0.0.2/32 via 30.0.0.1\nip route add 20.0.0.0/8 via 30.0.0.2\n\
        check 20.1.1.1 eth0\nip route del 30.0.0.1/32\ncheck 20.1.1.1 eth0\n\
        ip route add 30.0.0.1/32 via 10.1.0.7\ncheck 20.1.1.1 eth0\ncheck 20.1.1.1 eth1\n";
    let want =
        "strict pass loose pass\nstrict fail loose fail\nstrict fail loose pass\nstrict pass loose pass\n";
    assert!(rt; prints(rt.alloc(), lines, want)?);
    Ok(())
}

#[test]
fn looped_paths_give_nothing(rt: HostRuntime) -> Result<(), Fail> {
    let lines =
        "ip route add 30.0.0.1/32 via 30.0.0.2\nip route add 30.0.0.2/32 via 30.0.0.1 via 10.0.0.7\n\
        check 30.0.0.1 eth0\ncheck 30.0.0.2 eth0\n";
    assert!(rt;
        prints(
            rt.alloc(),
            lines,
            "strict fail loose fail\nstrict pass loose pass\n"
        )?
    );
    Ok(())
}

#[test]
fn a_host_entry_beats_its_cover(rt: HostRuntime) -> Result<(), Fail> {
    let lines = "ip route add 20.0.0.0/8 via 10.0.0.7\nip route add 20.0.0.1/32 via drop\n\
        check 20.0.0.1 eth0\ncheck 20.0.0.2 eth0\nip route del 20.0.0.1/32\ncheck 20.0.0.1 eth0\n";
    let want = "strict fail loose fail\nstrict pass loose pass\nstrict pass loose pass\n";
    assert!(rt; prints(rt.alloc(), lines, want)?);
    Ok(())
}

#[test]
fn other_lines_are_refused(rt: HostRuntime) -> Result<(), Fail> {
    let lines =
        "check 20.1.1.1 eth9\ncheck 20.1.1 eth0\ncheck 20.1.1.1\nlookup 20.1.1.1 0\nbegin\ncommit\nforward 1\nshow adj\n\
        nonsense\n# nothing\n\nip route del 9.0.0.0/8\n";
    let want =
        "line 7: no such interface\nline 8: syntax\nline 9: syntax\nline 10: not checked\nline 11: not checked\n\
        line 12: not checked\nline 13: not checked\nline 14: not checked\nline 15: syntax\nline 18: no such route\n";
    assert!(rt; prints(rt.alloc(), lines, want)?);
    Ok(())
}

#[test]
fn answers_faults(rt: HostRuntime) -> Result<(), Fail> {
    let none: &[u32] = &[];
    let first: &[u32] = &[0];
    let rows: [(&[&str], (&[u32], &[u32]), u8); 7] = [
        (&[], (none, none), 1),
        (&["-"], (none, none), 1),
        (&["--help"], (none, none), 1),
        (&["commands", "commands"], (none, none), 1),
        (&["missing"], (none, none), 2),
        (&["commands"], (first, none), 2),
        (&["commands"], (none, first), 4),
    ];
    for (words, failing, want) in rows {
        let (status, text) = outcome(rt.alloc(), words, b"nonsense\n", failing)?;
        assert_eq!(rt; status, want, "{words:?}");
        assert!(rt; text.is_empty());
    }
    Ok(())
}
