// The words of an entry's buckets.
ghost use Rattle.std.specs.Prelude.{◌≡◌, ◌<◌, ℕ, IfSome, Option, length, slice_get};
ghost use Rattle.fib_addr.specs.Prefixes.{Prefix as PrefixValue};
ghost use Rattle.fib_resolve.specs.Touched.{same_mac};
ghost use Rattle.fib_resolve_changes.specs.Wanted.{aim_of};
ghost use Rattle.fib_core_promise.specs.Kept.{same_end};
ghost use Rattle.fib_core_promise.specs.Stack.{aim_word, end_word};
ghost use Rattle.fib_ply.specs.Tables.{object_in};
ghost use Rattle.fib_stack.specs.Records.{end_used};
ghost use Rattle.fib_stack.specs.Runs.{word_in};
ghost use Rattle.fib_stack.specs.inner.Readied.{found_in};

use crate::wanted::aim_at;
use fib_addr::{Mac, Prefix};
use fib_core::Word;
use fib_ply::PrefixTable;
use fib_resolve::{Aim, End, Marked};
use fib_stack_ledger::Use;

fn same_mac(left: &Option<Mac>, right: &Option<Mac>) -> bool
    ensures { result ≡ same_mac left.now right.now }
{
    match left {
        Some(left) => match right {
            Some(right) => *left == *right,
            None => false,
        },
        None => match right {
            Some(_) => false,
            None => true,
        },
    }
}

/// Whether the record is the end's.
fn is_at(held: &Use, end: &End) -> bool
    ensures { result ≡ same_end (end_used held.now) end.now }
{
    match end {
        End::Hop {
            interface,
            next_hop,
            mac,
        } => {
            held.interface == *interface && held.next_hop == *next_hop && same_mac(&held.mac, mac)
        }
        End::Drop => false,
        End::Receive => false,
        End::Glean(_) => false,
    }
}

/// The object of the end's record.
fn found(uses: &[Use], end: &End) -> Option<u32>
    ensures { result ≡ found_in uses.now end.now }
{
    match uses {
        [held, uses @ ..] => {
            if is_at(held, end) {
                Some(held.object)
            } else {
                found(uses, end)
            }
        }
        [] => None,
    }
}

fn end_word(uses: &[Use], end: &End) -> Word
    ensures { (balances : PrefixValue → Option ℕ) → result ≡ end_word
        (record { balance = balances; record_of = found_in uses.now }) end.now }
{
    match end {
        End::Drop => Word::Drop,
        End::Receive => Word::Receive,
        End::Glean(interface) => Word::Glean(*interface),
        End::Hop { .. } => match found(uses, end) {
            Some(object) => Word::ToAdjacency(object),
            None => Word::Drop,
        },
    }
}

/// An entry with its balance, if it has one.
#[derive(Clone, Copy)]
struct Latest {
    entry: Prefix,
    object: Option<u32>,
}

/// The entry's balance. That of the entry found last isn't looked up again: neighboring buckets mostly lead to one.
fn object_of(table: &PrefixTable, last: &mut Option<Latest>, entry: Prefix) -> Option<u32>
    requires last { IfSome last.old (λ f. f.object ≡ object_in table.now f.entry) }
    ensures object { result ≡ object_in table.now entry }
    ensures last { IfSome last.new (λ f. f.object ≡ object_in table.now f.entry) }
{
    if let Some(latest) = *last {
        if latest.entry == entry {
            return latest.object;
        }
    }
    let object = table.object(entry);
    *last = Some(Latest { entry, object });
    object
}

/// The word for an aim, by the prefix table and by the records that are used.
fn word_for(table: &PrefixTable, uses: &[Use], last: &mut Option<Latest>, aim: Aim) -> Word
    requires last { IfSome last.old (λ f. f.object ≡ object_in table.now f.entry) }
    ensures word { result ≡ aim_word (record { balance = object_in table.now; record_of = found_in uses.now }) aim }
    ensures last { IfSome last.new (λ f. f.object ≡ object_in table.now f.entry) }
{
    match aim {
        Aim::Ends(end) => end_word(uses, &end),
        Aim::On(target) => match object_of(table, last, target) {
            Some(object) => Word::ToBalance(object),
            None => Word::Drop,
        },
    }
}

/// The word of each bucket, by the paths at the buckets.
pub fn words_of(table: &PrefixTable, uses: &[Use], wanted: &[Marked]) -> [Word; 16]
    ensures sixteen { length result ≡ 16 }
    ensures words { (k : ℕ) → k < 16 → word_in result k ≡ aim_word (record { balance = object_in table.now; record_of = found_in uses.now })
        (aim_of (slice_get wanted.now k)) }
{
    let mut words = [Word::Drop; 16];
    let mut last = None;
    for slot in 0..16usize {
        words[slot] = word_for(table, uses, &mut last, aim_at(wanted, slot));
    }
    words
}
