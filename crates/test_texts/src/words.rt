// Command lines and what they ask for, written by hand.
use fib_core::Settings;
use fib_words::{Asked, Source, laws, read_words};
use std::alloc::{AllocError, Global};
use std::test::Fail;

const DEFAULTS: Settings = Settings {
    workers: 4,
    objects: 16_384,
    walk: 64,
};

fn strings(alloc: Global, words: &[&str]) -> Result<Vec<String>, AllocError> {
    let mut all = Vec::new(alloc);
    for word in words {
        all.push(String::from_str(alloc, word)?)?;
    }
    Ok(all)
}

fn asks<'a>(settings: Settings, commands: &'a str, capture: Option<&'a str>) -> Option<Asked<'a>> {
    Some(Asked {
        settings,
        source: Source::Files { commands, capture },
    })
}

fn soaks<'a>(seed: u32) -> Option<Asked<'a>> {
    Some(Asked {
        settings: DEFAULTS,
        source: Source::Soak(seed),
    })
}

fn workers(workers: u32) -> Settings {
    Settings {
        workers,
        ..DEFAULTS
    }
}

fn objects(objects: u32) -> Settings {
    Settings {
        objects,
        ..DEFAULTS
    }
}

fn walk(walk: u32) -> Settings {
    Settings { walk, ..DEFAULTS }
}

#[test]
fn command_lines(rt: HostRuntime) -> Result<(), Fail> {
    let table: [(&[&str], Option<Asked<'_>>); 47] = [
        (&[], None),
        (&["a"], asks(DEFAULTS, "a", None)),
        (&["a", "b"], asks(DEFAULTS, "a", Some("b"))),
        (&["a", "b", "c"], None),
        (&["--workers", "9", "a"], None),
        (&["--workers", "0", "a"], None),
        (&["--workers=3", "a"], asks(workers(3), "a", None)),
        (&["--workers", "1", "a"], asks(workers(1), "a", None)),
        (
            &["a", "--workers", "8", "b"],
            asks(workers(8), "a", Some("b")),
        ),
        (&["--workers", "1", "--workers", "2", "a"], None),
        (&["--workers", "1", "--workers", "1", "a"], None),
        (&["--objects", "62", "a"], None),
        (&["--objects", "64", "a"], asks(objects(64), "a", None)),
        (&["--objects", "65", "a"], None),
        (
            &["--objects", "131072", "a"],
            asks(objects(131_072), "a", None),
        ),
        (&["--objects", "131074", "a"], None),
        (&["--walk", "-1", "a"], None),
        (&["--walk=-1", "a"], None),
        (&["--walk=", "a"], None),
        (&["--walk", "", "a"], None),
        (&["--walk", "+1", "a"], None),
        (&["--walk", "0", "a"], asks(walk(0), "a", None)),
        (&["--walk", "65535", "a"], asks(walk(65_535), "a", None)),
        (&["--walk", "65536", "a"], None),
        (&["--walk", "00000000007", "a"], None),
        (&["--walk"], None),
        (&["--walk", "--", "5", "a"], None),
        (&["--soak", "1"], soaks(1)),
        (&["--soak=0"], soaks(0)),
        (&["--soak", "1", "a"], None),
        (&["--soak", "x", "a"], None),
        (&["--soak", "4294967295"], soaks(u32::MAX)),
        (&["--soak", "4294967296"], None),
        (&["--soak", "07", "--"], soaks(7)),
        (&["--soak", "x"], None),
        (&["--help"], None),
        (&["-h"], None),
        (&["a", "--help"], None),
        (&["--version"], None),
        (&["-V"], None),
        (&["--work", "1", "a"], None),
        (&["-"], asks(DEFAULTS, "-", None)),
        (&[""], asks(DEFAULTS, "", None)),
        (&["--"], None),
        (
            &["--", "--walk", "--"],
            asks(DEFAULTS, "--walk", Some("--")),
        ),
        (&["help"], asks(DEFAULTS, "help", None)),
        (
            &["b", "--walk=1", "--", "--soak"],
            asks(walk(1), "b", Some("--soak")),
        ),
    ];
    for (words, expected) in table {
        let given = strings(rt.alloc(), words)?;
        assert_eq!(rt; read_words(rt.alloc(), &given)?, expected, "at {words:?}");
    }
    laws::accepted_are_in_range();
    Ok(())
}
