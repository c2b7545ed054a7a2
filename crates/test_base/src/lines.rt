use crate::expect::{holds, same};
use fib_base_lines::{Words, count_lines, cut_line, is_idle, is_plain};
use std::alloc::Global;
use std::test::Fail;

// The lines of a text, each in brackets, so that an empty one shows.
fn bracketed(alloc: Global, text: &[u8]) -> Result<Vec<u8>, Fail> {
    let mut out = Vec::new(alloc);
    let mut rest = text;
    while let Some((line, after)) = cut_line(rest) {
        out.push(b'[')?;
        out.extend_from_slice(line)?;
        out.push(b']')?;
        rest = after;
    }
    Ok(out)
}

#[test]
fn lines_end_at_line_feeds(rt: HostRuntime) -> Result<(), Fail> {
    let rows: [(&[u8], &[u8]); 8] = [
        (b"", b""),
        (b"\n", b"[]"),
        (b"a", b"[a]"),
        (b"a\nb", b"[a][b]"),
        (b"a\n\nb\n", b"[a][][b]"),
        (b"a\r\nb\r", b"[a][b]"),
        (b"a\r\r\n\r\n", b"[a\r][]"),
        (b"a\rb\n", b"[a\rb]"),
    ];
    for (text, lines) in rows {
        let found = bracketed(rt.alloc(), text)?;
        same(
            &rt,
            count_lines(text),
            found.iter().filter(|b| **b == b'[').count(),
        );
        same(&rt, found.as_slice(), lines);
    }
    Ok(())
}

#[test]
fn words_stand_between_blanks(rt: HostRuntime) -> Result<(), Fail> {
    let mut words = Words::new(b" \tip  route\tadd ");
    same(&rt, words.count(), 3);
    holds(&rt, words.next_is("ip"));
    holds(&rt, !words.next_is("i"));
    same(&rt, words.next(), Some(b"ip".as_slice()));
    let (route, rest) = words.split_first().ok_or("a word is left")?;
    same(&rt, route, b"route".as_slice());
    same(&rt, rest.count(), 1);
    same(&rt, words.next(), Some(b"route".as_slice()));
    same(&rt, words.next(), Some(b"add".as_slice()));
    holds(&rt, !words.has_word());
    same(&rt, words.next(), None);
    Ok(())
}

#[test]
fn idle_lines_and_plain_bytes(rt: HostRuntime) {
    let rows: [(&[u8], bool, bool); 7] = [
        (b"", true, true),
        (b" \t ", true, true),
        (b"# \x01", true, false),
        (b"\t#x", true, true),
        (b"x #", false, true),
        (b"\x0b", false, false),
        (b"~ \x7f", false, false),
    ];
    for (line, idle, plain) in rows {
        same(&rt, is_idle(&Words::new(line)), idle);
        same(&rt, is_plain(line), plain);
    }
}
