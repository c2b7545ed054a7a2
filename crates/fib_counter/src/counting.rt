// Results, counted by a seat.
ghost use Rattle.std.specs.Prelude.{◌≡◌, ◌++◌, ◌∷◌, [], true, map};
ghost use Rattle.fib_worker_crew.specs.Results.{results_of};
ghost use Rattle.fib_counts.specs.Counts.{word_of};
ghost use Rattle.fib_counter.specs.inner.Posts.{end_word, kept_words, results_by, words_of};

use fib_core::Record;
use fib_counts::{CountSeat, is_counted};
use fib_resolve::End;
use fib_worker_crew::Frame;

// Counts an end, where there is a word for it. Answers false where the seat has counted as often as it may.
fn count_end(seat: &mut CountSeat<'_>, end: &End) -> bool
    ensures id { seat.new.id ≡ seat.old.id }
    ensures words { result ≡ true → seat.new.tally.words ≡ seat.old.tally.words ++ kept_words (word_of end.now ∷ []) }
{
    if !is_counted(end) {
        return true;
    }
    if seat.left() == 0 {
        return false;
    }
    seat.count(end);
    true
}

// Counts the ends of results. Answers false where not all were counted.
fn count_results(seat: &mut CountSeat<'_>, results: &[(u32, Record)]) -> bool
    ensures id { seat.new.id ≡ seat.old.id }
    ensures words { result ≡ true → seat.new.tally.words ≡ seat.old.tally.words ++ words_of (results_of results.now) }
{
    for place in 0..results.len() {
        if !count_end(seat, &results[place].1.end) {
            return false;
        }
    }
    true
}

/// Counts the ends of the results of frames. Answers false where not all were counted.
pub fn count_frames(seat: &mut CountSeat<'_>, frames: &[Frame]) -> bool
    ensures id { seat.new.id ≡ seat.old.id }
    ensures words { result ≡ true → seat.new.tally.words ≡ seat.old.tally.words ++ words_of (results_by frames.now) }
{
    for place in 0..frames.len() {
        if !count_results(seat, frames[place].results.list()) {
            return false;
        }
    }
    true
}
