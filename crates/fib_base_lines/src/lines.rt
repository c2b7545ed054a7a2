// The lines of a file.
ghost use Rattle.std.specs.Prelude.{◌≡◌, ◌<◌, ◌∷◌, [], length, position, MatchOption, IfSome};
ghost use Rattle.fib_base_lines.specs.Lines.{is_line_feed, without_return, lines_of, is_plain};

fn line_end(text: &[u8]) -> Option<usize>
    ensures { result ≡ position is_line_feed text.now }
{
    text.iter().position(|b| *b == b'\n')
}

fn without_return(line: &[u8]) -> &[u8]
    ensures { result.now ≡ without_return line.now }
{
    match line {
        [front @ .., b'\r'] => front,
        _ => line,
    }
}

/// The first line of a text, and what stands after its line feed. None where the text is empty, and so has no line.
///
/// One carriage return at the line's end is dropped. A last piece without a line feed is a line, and one that is empty is none.
pub fn cut_line(text: &[u8]) -> Option<(&[u8], &[u8])>
    ensures line { MatchOption result (lines_of text.now ≡ []) (λ x. lines_of text.now ≡ x.0.now ∷ lines_of x.1.now) }
    ensures shorter { IfSome result (λ x. length x.1.now < length text.now) }
{
    if text.is_empty() {
        return None;
    }
    match line_end(text) {
        Some(at) => Some((without_return(&text[..at]), &text[at + 1..])),
        None => Some((without_return(text), &[])),
    }
}

/// How many lines a text has.
pub fn count_lines(text: &[u8]) -> usize
    ensures { result ≡ length (lines_of text.now) }
{
    let mut count = 0;
    let mut rest = text;
    while let Some((_, after)) = cut_line(rest) {
        rest = after;
        count += 1;
    }
    count
}

/// Whether each byte is a tab or one from a space to a tilde, as a line that is a command must be.
pub fn is_plain(line: &[u8]) -> bool
    ensures { result ≡ is_plain line.now }
{
    line.iter()
        .all(|b| *b == b'\t' || (b' ' <= *b && *b <= b'~'))
}
