// The words of a line.
ghost use Rattle.std.specs.Prelude.{◌≡◌, ◌<◌, ◌≤◌, ◌∷◌, [], length, position, Option, Some, None, MatchOption, IfSome, slice_index, false};
ghost use Rattle.fib_base_lines.specs.LineWords.{is_blank, words_of, has_word, next_is, is_idle};

use std::marker::Model;

/// The words of a line that are left. Contracts see their list.
#[derive(Drop)]
pub struct Words<'a> {
    rest: &'a [u8],
}

impl<'a> Model for Words<'a> {
    ghost use Rattle.std.specs.Prelude.{ℕ, List};
    ghost use Rattle.fib_base_lines.specs.LineWords.{words_of};

    ghost Value = { List (List ℕ) };

    ghost view = { λ w. words_of w.rest.now };
}

impl<'a> Words<'a> {
    /// All words of a line. Blanks are spaces and tabs.
    pub fn new(line: &'a [u8]) -> Self
        ensures { result ≡ words_of line.now }
    {
        Words { rest: line }
    }

    /// Takes the next word, which is never empty.
    pub fn next(&mut self) -> Option<&'a [u8]>
        ensures word { MatchOption result ((self.old ≡ []) × (self.new ≡ [])) (λ word. self.old ≡ word.now ∷ self.new) }
        ensures some { IfSome result (λ word. 0 < length word.now) }
    {
        let (word, rest) = cut_word(self.rest)?;
        self.rest = rest;
        Some(word)
    }

    /// The next word, and the words after it. These words stay as they are.
    pub fn split_first(&self) -> Option<(&'a [u8], Words<'a>)>
        ensures word { MatchOption result (self.now ≡ []) (λ x. self.now ≡ x.0.now ∷ x.1) }
        ensures some { IfSome result (λ x. 0 < length x.0.now) }
    {
        let (word, rest) = cut_word(self.rest)?;
        Some((word, Words { rest }))
    }

    /// Whether a word is left.
    pub fn has_word(&self) -> bool
        ensures { result ≡ has_word self.now }
    {
        self.split_first().is_some()
    }

    /// Whether the next word is this one.
    pub fn next_is(&self, text: &str) -> bool
        ensures { result ≡ next_is text.now self.now }
    {
        match self.split_first() {
            Some((word, _)) => word == text.as_bytes(),
            None => false,
        }
    }

    /// How many words are left.
    pub fn count(&self) -> usize
        ensures { result ≡ length self.now }
    {
        let mut count = 0;
        let mut rest = self.rest;
        while let Some((_, after)) = cut_word(rest) {
            rest = after;
            count += 1;
        }
        count
    }
}

/// Whether a line with these words does nothing: it has no word, or its first word begins with `#`.
pub fn is_idle(words: &Words<'_>) -> bool
    ensures { result ≡ is_idle words.now }
{
    match words.split_first() {
        Some(([b, ..], _)) => *b == b'#',
        Some(([], _)) => false,
        None => true,
    }
}

fn is_blank(b: u8) -> bool
    ensures { result ≡ is_blank b }
{
    b == b' ' || b == b'\t'
}

fn blank_place(text: &[u8]) -> Option<usize>
    ensures { result ≡ position is_blank text.now }
{
    text.iter().position(|b| is_blank(*b))
}

// The text without the blanks at its front.
#[tactic(auto, using(crate::proofs::WordLemmas::words_of_drop))]
fn skip_blanks(text: &[u8]) -> &[u8]
    ensures same { words_of result.now ≡ words_of text.now }
    ensures word { 0 < length result.now → is_blank (slice_index result.now 0) ≡ false }
    ensures within { length result.now ≤ length text.now }
{
    for (i, b) in text.iter().enumerate() {
        if !is_blank(*b) {
            return &text[i..];
        }
    }
    &[]
}

// The first word, and what stands after it.
fn cut_word(text: &[u8]) -> Option<(&[u8], &[u8])>
    ensures word { MatchOption result (words_of text.now ≡ []) (λ x. words_of text.now ≡ x.0.now ∷ words_of x.1.now) }
    ensures some { IfSome result (λ x. 0 < length x.0.now) }
    ensures shorter { IfSome result (λ x. length x.1.now < length text.now) }
{
    let rest = skip_blanks(text);
    if rest.is_empty() {
        return None;
    }
    match blank_place(rest) {
        None => Some((rest, &[])),
        Some(at) => Some((&rest[..at], &rest[at + 1..])),
    }
}
