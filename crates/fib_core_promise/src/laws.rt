// Laws of what keeps steady traffic. Each is the contract of a call without a body.
ghost use Rattle.std.specs.Prelude.{ℕ, List, [], Contains, None, Option, Some, true, false, ◌*◌, ◌+◌, ◌<◌, ◌^◌, ◌≡◌, ◌⊎◌, ◌∷◌};
ghost use Rattle.fib_addr.specs.Prefixes.{IsPrefix, Prefix};
ghost use Rattle.fib_addr.specs.Longest.{everything};
ghost use Rattle.fib_resolve.specs.Tables.{IsSound};
ghost use Rattle.fib_resolve.specs.Touched.{is_touched};
ghost use Rattle.fib_resolve.specs.Forwarding.{forwards};
ghost use Rattle.fib_resolve.specs.declared.types.Tables.{Tables};
ghost use Rattle.fib_core.specs.Union.{Union};
ghost use Rattle.fib_core.specs.Walk.{word_at};
ghost use Rattle.fib_core.specs.declared.word.Word.{Word};
ghost use Rattle.fib_resolve.specs.Aims.{aim, marked_list};
ghost use Rattle.fib_resolve.specs.declared.aims.Aim.TheVariants as aims;
ghost use Rattle.fib_resolve.specs.declared.aims.Marked.{Marked};
ghost use Rattle.fib_core_steady.specs.Aims.{IsLasting};
ghost use Rattle.fib_core_steady.specs.Names.{Names};
ghost use Rattle.fib_core_steady.specs.Promise.{IsPromised, KeepsCells};
ghost use Rattle.fib_core_steady.specs.Loose.{IsLoose};
ghost use Rattle.fib_core_promise.specs.Matches.{FitsVersions, IsSometime, Promised, added, best_block, look_of, removed};
ghost use Rattle.fib_core_promise.specs.Stack.{HasRecords, IsSteadyStack, Ledger, Objects};
ghost use Rattle.fib_core_promise.specs.Turns.{IsQuietStack, IsRemoved, IsRestacked, Stack};
ghost use Rattle.fib_core_promise.specs.Kept.{keeps_by};

/// A prefix table that fits the versions answers each address that has one best entry in all of them with that entry's
/// object.
pub fn promised_addresses_are_answered()
    ensures { (J : List Tables) (now : Tables) (look : Prefix → Option ℕ) (q a o : ℕ) → Contains J now
        → look everything ≡ Some q → FitsVersions J look → a < 2 ^ 32 → Promised J look a o
        → best_block (look_of look) 32 a ≡ Some o }
{}

/// And still does so as a prefix of some version comes.
pub fn so_are_they_as_a_prefix_comes()
    ensures { (J : List Tables) (now : Tables) (look : Prefix → Option ℕ) (q a o r : ℕ) (e : Prefix) → Contains J now
        → look everything ≡ Some q → FitsVersions J look → look e ≡ None → added look e r everything ≡ Some q
        → IsPrefix e → IsSometime J e → a < 2 ^ 32 → Promised J look a o
        → best_block (look_of (added look e r)) 32 a ≡ Some o }
{}

/// And as one leaves that isn't an entry of all versions.
pub fn and_as_a_prefix_leaves()
    ensures { (J : List Tables) (now : Tables) (look : Prefix → Option ℕ) (q a o : ℕ) (e : Prefix) → Contains J now
        → look everything ≡ Some q → FitsVersions J look → removed look e everything ≡ Some q
        → (IsLasting J e → ⊥) → a < 2 ^ 32 → Promised J look a o
        → best_block (look_of (removed look e)) 32 a ≡ Some o }
{}

/// What the stack keeps of entries and records gives the first point of the promise.
pub fn a_steady_stack_keeps_buckets()
    ensures { (J : List Tables) (objects : Objects) (ledger : Ledger) (cells : List ℕ)
        → HasRecords objects ledger cells → IsSteadyStack J objects ledger cells
        → KeepsCells J objects.balance cells }
{}

/// A turn of an entry keeps it.
pub fn a_turn_keeps_the_stack_steady()
    ensures { (J : List Tables) (now : Tables) (e : Prefix) (o : ℕ) (s t : Stack) → Contains J now
        → IsSteadyStack J s.objects s.ledger s.cells → IsRestacked now e o s t
        → IsSteadyStack J t.objects t.ledger t.cells }
{}

/// So does a turn of a prefix that left the entries.
pub fn so_does_one_of_a_prefix_that_left()
    ensures { (J : List Tables) (now : Tables) (e : Prefix) (s t : Stack) → Contains J now
        → IsSteadyStack J s.objects s.ledger s.cells → IsRemoved now e s t
        → IsSteadyStack J t.objects t.ledger t.cells }
{}

/// A stack that stands for the tables, with nothing left for later, is steady for them.
pub fn a_quiet_stack_is_steady()
    ensures { (tables : Tables) (s : Stack) → IsQuietStack tables s
        → IsSteadyStack (tables ∷ []) s.objects s.ledger s.cells }
{}

/// Each bucket of a prefix that a change doesn't touch is for the same before it and after it, where the targets that
/// count forward as before.
pub fn untouched_entries_aim_alike()
    ensures { (S T : Tables) (e : Prefix) → IsSound T → is_touched S T e ≡ false
        → ((m : Marked) (t : Prefix) → Contains (marked_list S e) m → m.counts ≡ true → m.aim ≡ aims.On t
        → forwards S t ≡ forwards T t)
        → (k : ℕ) → aim S e k ≡ aim T e k }
{}

/// A word that is what a bucket keeps, if it keeps any, is in the bucket, or the bucket is no one of which all versions
/// want the same.
pub fn what_is_kept_or_loose()
    ensures { (S : Tables) (J : List Tables) (look : Prefix → Option ℕ) (cells : List ℕ) (o k : ℕ) (w : Word)
        → k < 16 → ((z : Word) → keeps_by (S ∷ J) look cells o k ≡ Some z → w ≡ z)
        → (word_at cells o k ≡ w) ⊎ IsLoose (S ∷ J) look (16 * o + k) }
{}
