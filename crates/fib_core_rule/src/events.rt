// Each event keeps the rule, and the fresh table meets it. A law each, the contract of a call without a body.
ghost use Rattle.std.specs.Prelude.{ℕ, List, replicate, slice_index, slice_set};
ghost use Rattle.std.specs.Prelude.{[], ◌*◌, ◌++◌, ◌+◌, ◌<◌, ◌≢◌, ◌≤◌, ◌∷◌};
ghost use Rattle.fib_resolve.specs.declared.types.Tables.{Tables};
ghost use Rattle.fib_core_results.specs.declared.record.Version.{Version};
ghost use Rattle.fib_core_results.specs.Versions.{packed};
ghost use Rattle.fib_core_lawful.specs.Layout.{version_word, pass_word, claim_word, cell_word, words_for};
ghost use Rattle.fib_core_lawful.specs.State.{Control, View, Worker, control, note, spent, worker};
ghost use Rattle.fib_core_lawful.specs.State.{claimed, hopped, learned, started, stopped, told};
ghost use Rattle.fib_core_lawful.specs.State.{begun, first_control, looked, new_worker, picking, put};
ghost use Rattle.fib_core_lawful.specs.State.{sent, settled, taken_home, with_log};
ghost use Rattle.fib_core_lawful.specs.Frame.{HasView};
ghost use Rattle.fib_core_lawful.specs.May.{MaySettle};
ghost use Rattle.fib_core_rule.specs.Rule.{IsLawful};
ghost use Rattle.fib_core_rule.specs.May.{MayBegin, MayComeHome, MayDraw, MayLoad, MaySend, MayStart, MayStop, MayStore};

/// The making of the table: object 0 and the others are free, no worker is out, and the version is that of the fresh
/// tables.
pub fn fresh_table()
    ensures { (objects workers : ℕ) → 0 < objects → workers ≤ 8
        → IsLawful objects (replicate (words_for objects) 0) (control (first_control objects workers) ∷ []) }
{}

/// Event 1: a worker stores an odd number into its pass word, and a pass begins.
pub fn pass_starts()
    ensures { (objects id p : ℕ) (words : List ℕ) (views : List View) (v : Worker)
        → IsLawful objects words views → HasView views id (worker v) → MayStart p
        → IsLawful objects (slice_set words (pass_word v.number) p) (slice_set views id (worker (started v p))) }
{}

/// Event 2: a worker loads the version.
pub fn version_is_loaded()
    ensures { (objects id : ℕ) (words : List ℕ) (views : List View) (v : Worker)
        → IsLawful objects words views → HasView views id (worker v)
        → IsLawful objects words (slice_set views id (worker (learned v (slice_index words version_word)))) }
{}

/// Event 3: a walking worker loads a cell of the object where it stands. An edge moves it.
pub fn cell_is_loaded()
    ensures { (objects id k : ℕ) (words : List ℕ) (views : List View) (v : Worker)
        → IsLawful objects words views → HasView views id (worker v) → MayLoad v k
        → IsLawful objects words (slice_set views id (worker (hopped v k (slice_index words (cell_word k))))) }
{}

/// Event 4: a worker stores an even number into its pass word. A finished trail is one of its past.
pub fn pass_stops()
    ensures { (objects id p : ℕ) (words : List ℕ) (views : List View) (v : Worker)
        → IsLawful objects words views → HasView views id (worker v) → MayStop p
        → IsLawful objects (slice_set words (pass_word v.number) p) (slice_set views id (worker (stopped v p))) }
{}

/// Event 5: the control plane stores a word into a cell. The edge that it replaces is retired, or leaves at once.
pub fn cell_is_stored()
    ensures { (objects id k w : ℕ) (words : List ℕ) (views : List View) (c : Control)
        → IsLawful objects words views → HasView views id (control c) → MayStore c k w
        → IsLawful objects (slice_set words (cell_word k) w) (slice_set views id (control (put c k w))) }
{}

/// Event 6: the control plane stores the version, and one more begins.
pub fn version_begins()
    ensures { (objects id : ℕ) (words : List ℕ) (views : List View) (c : Control) (next : Tables)
        → IsLawful objects words views → HasView views id (control c) → MayBegin c next
        → IsLawful objects (slice_set words version_word (packed (begun c.log next).version))
        (slice_set views id (control (with_log c (begun c.log next)))) }
{}

/// Event 6: the control plane stores the version, and the last one is settled.
pub fn version_is_settled()
    ensures { (objects id : ℕ) (words : List ℕ) (views : List View) (c : Control)
        → IsLawful objects words views → HasView views id (control c) → MaySettle c.union c.log
        → IsLawful objects (slice_set words version_word (packed (settled c.log).version))
        (slice_set views id (control (with_log c (settled c.log)))) }
{}

/// Event 7: the control plane loads the pass word of worker n. Retired edges are marked, and those that are passed for
/// all leave.
pub fn pass_word_is_loaded()
    ensures { (objects id n : ℕ) (words : List ℕ) (views : List View) (c : Control)
        → IsLawful objects words views → HasView views id (control c)
        → IsLawful objects words (slice_set views id (control (looked c n (slice_index words (pass_word n))))) }
{}

/// Event 8: the control plane picks the number of the seat that it sends out next. It knows that number's pass word.
pub fn number_is_picked()
    ensures { (objects id n : ℕ) (words : List ℕ) (views : List View) (c : Control)
        → IsLawful objects words views → HasView views id (control c)
        → IsLawful objects words (slice_set views id (control (picking c n))) }
{}

/// Event 9: a worker's seat is split off. It is at rest and knows the version.
pub fn seat_is_sent()
    ensures { (objects id : ℕ) (words : List ℕ) (views : List View) (c : Control)
        → IsLawful objects words views → HasView views id (control c) → MaySend c
        → IsLawful objects words (slice_set views id (control (sent c)) ++ worker (new_worker c) ∷ []) }
{}

/// Event 10: a note is split off that knows the version.
pub fn note_is_made()
    ensures { (objects id : ℕ) (words : List ℕ) (views : List View) (c : Control)
        → IsLawful objects words views → HasView views id (control c)
        → IsLawful objects words (slice_set views id (control c) ++ note c.log.version ∷ []) }
{}

/// Event 11: a note is joined into a worker's seat, which then knows the greater of both versions, number by number.
pub fn note_is_told()
    ensures { (objects id other : ℕ) (words : List ℕ) (views : List View) (v : Worker) (n : Version)
        → IsLawful objects words views → HasView views id (worker v) → other ≢ id
        → HasView (slice_set views id (worker (told v n))) other (note n)
        → IsLawful objects words (slice_set (slice_set views id (worker (told v n))) other spent) }
{}

/// Event 12: a worker's seat at rest is joined into the control plane's. Its finished trails, its claims and its pass word come
/// home.
pub fn seat_comes_home()
    ensures { (objects id other : ℕ) (words : List ℕ) (views : List View) (c : Control) (v : Worker)
        → IsLawful objects words views → HasView views id (control c) → other ≢ id
        → HasView (slice_set views id (control (taken_home c v))) other (worker v) → MayComeHome v
        → IsLawful objects words (slice_set (slice_set views id (control (taken_home c v))) other spent) }
{}

/// Event 13: a worker adds 1 to the claim word, and has drawn the number that it found there.
pub fn claim_is_drawn()
    ensures { (objects id : ℕ) (words : List ℕ) (views : List View) (v : Worker)
        → IsLawful objects words views → HasView views id (worker v) → MayDraw v
        → IsLawful objects (slice_set words claim_word (slice_index words claim_word + 1))
        (slice_set views id (worker (claimed v (slice_index words claim_word)))) }
{}
