// Buckets that sixteen puts left for later.
ghost use Rattle.std.specs.Prelude.{◌≡◌, ◌+◌, ◌<◌, ◌≤◌, ℕ, None};
ghost use Rattle.fib_addr.specs.Prefixes.{Prefix as PrefixValue};
ghost use Rattle.fib_stack_ledger.specs.Deferred.{is_at, late_at, late_count, one_late};
ghost use Rattle.fib_stack.specs.Runs.{deferred_at, late_word};

use fib_addr::Prefix;
use fib_core::Word;
use fib_plane_view::Put;
use fib_stack_ledger::Lates;

/// Defers the word, if the put dropped. Answers how many it deferred.
fn defer_one(late: &mut Lates, entry: Prefix, slot: u32, word: Word, answer: Put) -> u32
    requires clear { late_at late.old.members entry slot ≡ None }
    requires slot { slot < 16 }
    requires room { 0 < late.old.spare }
    ensures here { late_at late.new.members entry slot ≡ late_word word answer }
    ensures others { (e : PrefixValue) (k : ℕ) → (e ≡ entry → k ≡ slot → ⊥) → late_at late.new.members e k ≡ late_at late.old.members e k }
    ensures count { result ≡ one_late (late_word word answer) }
    ensures spare { late.old.spare ≤ late.new.spare + 1 }
{
    match answer {
        Put::Dropped => {
            late.add(entry, slot, word);
            1
        }
        Put::Same => 0,
        Put::Stored => 0,
    }
}

/// Defers the words that were dropped. Answers how many.
pub fn defer(late: &mut Lates, entry: Prefix, words: &[Word; 16], answers: &[Put; 16]) -> u32
    requires clear { (k : ℕ) → late_at late.old.members entry k ≡ None }
    requires room { 16 ≤ late.old.spare }
    ensures here { (k : ℕ) → late_at late.new.members entry k ≡ deferred_at words.now answers.now k }
    ensures others { (e : PrefixValue) (k : ℕ) → (e ≡ entry → ⊥) → late_at late.new.members e k ≡ late_at late.old.members e k }
    ensures count { result ≡ late_count (late_at late.new.members entry) 16 }
{
    let mut deferred = 0;
    for slot in 0..16u32 {
        deferred += defer_one(
            late,
            entry,
            slot,
            words[slot as usize],
            answers[slot as usize],
        );
    }
    deferred
}
