// What the rule tells a seat. A law each, the contract of a call without a body.
ghost use Rattle.std.specs.Prelude.{ℕ, Bool, List, Some, false, true, length, nat_lt, slice_get, slice_index, slice_index_or};
ghost use Rattle.std.specs.Prelude.{if◌then◌else◌, ◌%◌, ◌*◌, ◌+◌, ◌<◌, ◌^◌, ◌≡◌, ◌≢◌, ◌≤◌, ◌⊎◌};
ghost use Rattle.std.specs.List.{AllByRecursion};
ghost use Rattle.fib_reach.specs.Walks.{IsAcyclic};
ghost use Rattle.fib_resolve.specs.declared.types.Tables.{Tables};
ghost use Rattle.fib_core_results.specs.Trails.{version_at};
ghost use Rattle.fib_core_results.specs.Versions.{unpacked};
ghost use Rattle.fib_union.specs.Unions as edges;
ghost use Rattle.fib_union.specs.Unions.{owner};
ghost use Rattle.fib_core.specs.declared.word.Word.{Word};
ghost use Rattle.fib_core.specs.declared.word.Word.TheVariants as said;
ghost use Rattle.fib_core.specs.Words.{IsWord, decoded, encoded, target};
ghost use Rattle.fib_core.specs.Walk.{Arrives, root, walk};
ghost use Rattle.fib_core.specs.Union.{Edge, Goes, IsTyped, Usable, edges_of};
ghost use Rattle.fib_core.specs.Trails.{AreLawful, IsSoundTrail, IsWhole, Walked, finished, stands, visited};
ghost use Rattle.fib_core_lawful.specs.Layout.{version_word, pass_word, claim_word, cell_word};
ghost use Rattle.fib_core_lawful.specs.State.{Control, View, Worker, control, first_control, put, worker};
ghost use Rattle.fib_core_lawful.specs.Frame.{HasView};
ghost use Rattle.fib_core_lawful.specs.Lawful.{AnswersAt, IsTold};
ghost use Rattle.fib_core_lawful.specs.Claims.{one_if, times};
ghost use Rattle.fib_core_rule.specs.Steady.{AreSteady, MayStoreSteadily};
ghost use Rattle.fib_core_rule.specs.Rule.{IsLawful};
ghost use Rattle.fib_core_rule.specs.May.{MayStore};
ghost use Rattle.fib_core_rule.specs.Serving.{MayClear, HoldsPromise};
ghost use Rattle.fib_core_rule.specs.Change.{IsReached, MayChange, MayPlace};

/// A running pass visits no object twice and only objects that there are; a walk that makes its loads stands where it
/// stands, goes on exactly where it loads an edge, and reads numbers that fit.
pub fn trails_are_sound()
    ensures { (objects id : ℕ) (words : List ℕ) (views : List View) (v : Worker)
        → IsLawful objects words views → HasView views id (worker v)
        → IsSoundTrail objects v.trail }
{}

/// A pass visits at most as many objects as there are, so it makes fewer hops than that.
pub fn passes_are_short()
    ensures { (objects id : ℕ) (words : List ℕ) (views : List View) (v : Worker)
        → IsLawful objects words views → HasView views id (worker v)
        → length (visited v.trail) ≤ objects }
{}

/// A pass stands on object 0, or on one into which an edge of the union leads.
pub fn passes_stand_on_live_objects()
    ensures { (objects id seat : ℕ) (words : List ℕ) (views : List View) (v : Worker) (c : Control)
        → IsLawful objects words views → HasView views id (worker v) → HasView views seat (control c)
        → (stands v.trail ≡ 0) ⊎ ((x : ℕ) × Edge c.union x (stands v.trail)) }
{}

/// What a pass has read of the adjacency on which it stands is what that adjacency holds.
pub fn adjacencies_are_read_whole()
    ensures { (objects id seat : ℕ) (words : List ℕ) (views : List View) (v : Worker) (c : Control)
        → IsLawful objects words views → HasView views id (worker v) → HasView views seat (control c)
        → IsWhole c.union.cells v.trail }
{}

/// What is loaded of a cell is the code of a word.
pub fn words_are_found()
    ensures { (objects k : ℕ) (words : List ℕ) (views : List View)
        → IsLawful objects words views → k < 16 * objects → IsWord (slice_index words (cell_word k)) }
{}

/// Each running trail is a walk of the union as it is now: each of its loads is of the object where the pass stood, and each
/// edge that it loaded lies in its cell still, or is a retired copy that isn't passed for the worker.
pub fn trails_walk_the_union()
    ensures { (objects id seat : ℕ) (words : List ℕ) (views : List View) (v : Worker) (c : Control)
        → IsLawful objects words views → HasView views id (worker v) → HasView views seat (control c)
        → Walked (Usable c.union v.number v.pass) v.trail }
{}

/// And each object that the pass has visited is object 0, or one into which an edge of the union leads.
pub fn passes_visit_live_objects()
    ensures { (objects id seat : ℕ) (words : List ℕ) (views : List View) (v : Worker) (c : Control)
        → IsLawful objects words views → HasView views id (worker v) → HasView views seat (control c)
        → AllByRecursion (λ y. (y ≡ 0) ⊎ ((x : ℕ) × Edge c.union x y)) (visited v.trail) }
{}

/// A seat's pass word is odd from the start of a pass to its stop, and even at rest.
pub fn pass_words_are_odd_in_a_pass()
    ensures { (objects id : ℕ) (words : List ℕ) (views : List View) (v : Worker)
        → IsLawful objects words views → HasView views id (worker v)
        → slice_index words (pass_word v.number) % 2 ≡ one_if v.walks }
{}

/// And the pass word of a number that isn't out is even.
pub fn pass_words_are_even_at_home()
    ensures { (objects seat n : ℕ) (words : List ℕ) (views : List View) (c : Control)
        → IsLawful objects words views → HasView views seat (control c)
        → n < 8 → slice_index_or c.desk.out n false ≡ false → slice_index words (pass_word n) % 2 ≡ 0 }
{}

/// A worker's pass word is as its seat knows it.
pub fn seats_know_their_pass_word()
    ensures { (objects id : ℕ) (words : List ℕ) (views : List View) (v : Worker)
        → IsLawful objects words views → HasView views id (worker v)
        → slice_index words (pass_word v.number) ≡ v.pass }
{}

/// What a worker knows of the version is no later than what it would load.
pub fn versions_only_grow()
    ensures { (objects id : ℕ) (words : List ℕ) (views : List View) (v : Worker)
        → IsLawful objects words views → HasView views id (worker v)
        → IsTold (unpacked (slice_index words version_word)) v.knows }
{}

/// A running pass that has its end and has loaded the version after it has a trail that is lawful, and steady, over the
/// history: for each address and hash that it follows.
pub fn ended_trails_are_right()
    ensures { (objects id seat : ℕ) (words : List ℕ) (views : List View) (v : Worker) (c : Control)
        → IsLawful objects words views → HasView views id (worker v) → HasView views seat (control c)
        → AreLawful c.log.history (finished v.lo v.trail v.hi) × AreSteady c.log.history (finished v.lo v.trail v.hi) }
{}

/// So is each finished trail of a seat's past.
pub fn past_trails_are_right()
    ensures { (objects id seat : ℕ) (words : List ℕ) (views : List View) (v : Worker) (c : Control)
        → IsLawful objects words views → HasView views id (worker v) → HasView views seat (control c)
        → AreLawful c.log.history v.past × AreSteady c.log.history v.past }
{}

/// And each finished trail that was brought home.
pub fn trails_come_home_right()
    ensures { (objects seat : ℕ) (words : List ℕ) (views : List View) (c : Control)
        → IsLawful objects words views → HasView views seat (control c)
        → AreLawful c.log.history c.home × AreSteady c.log.history c.home }
{}

/// Where the version is settled, the walk over the cells is resolution over its tables, for each address and hash, and
/// after the first change nothing is retired.
pub fn settled_cells_answer()
    ensures { (objects seat k : ℕ) (words : List ℕ) (views : List View) (c : Control) (tables : Tables)
        → IsLawful objects words views → HasView views seat (control c)
        → c.log.version ≡ version_at k → slice_get c.log.history k ≡ Some tables → AnswersAt c.union k tables }
{}

/// The union of current and retired edges has no cycle, as edges between words and as edges between objects.
pub fn union_is_acyclic()
    ensures { (objects seat : ℕ) (words : List ℕ) (views : List View) (c : Control)
        → IsLawful objects words views → HasView views seat (control c)
        → IsAcyclic (Edge c.union) × IsAcyclic (edges.Edge (edges_of c.union)) }
{}

/// All edges into an object have one tag, none leads to object 0, objects have the forms of the edges into them, and
/// plies lie at most seven deep.
pub fn edges_are_well_typed()
    ensures { (objects seat : ℕ) (words : List ℕ) (views : List View) (c : Control)
        → IsLawful objects words views → HasView views seat (control c)
        → IsTyped c.union }
{}

/// The walk over the cells as they are, as the definition limits it, is where the steps end: it has no more edges than
/// there are objects.
pub fn walks_have_an_end()
    ensures { (objects seat a h : ℕ) (words : List ℕ) (views : List View) (c : Control)
        → IsLawful objects words views → HasView views seat (control c)
        → Arrives c.union.cells a h root (walk c.union.cells a h) }
{}

/// An object other than 0 into which no edge is counted has no edge to a ply, current or retired, out of it or into it.
pub fn free_objects_have_no_ply_edge()
    ensures { (objects seat o k w y : ℕ) (words : List ℕ) (views : List View) (c : Control)
        → IsLawful objects words views → HasView views seat (control c)
        → o ≢ 0 → edges.into (edges_of c.union) o ≡ 0 → Goes c.union k w → decoded w ≡ said.ToPly y
        → (owner k ≢ o) × (y ≢ o) }
{}

/// What a store asks can be met: into a fresh table an edge from object 0 to a balance in object 1 may be stored.
pub fn the_first_store_may_be_made()
    ensures { (objects workers : ℕ)
        → 1 < objects → MayStore (first_control objects workers) 0 (encoded (said.ToBalance 1)) }
{}

/// Clearing: where no edge is counted into an object other than 0, a Drop asks nothing but that steady traffic does not
/// rest on that object, at a time when stores are allowed.
pub fn a_drop_where_nothing_leads_may_be_stored()
    ensures { (objects seat k : ℕ) (words : List ℕ) (views : List View) (c : Control)
        → IsLawful objects words views → HasView views seat (control c)
        → k < 16 * c.objects → slice_index c.union.cells k ≢ 0
        → owner k ≢ 0 → edges.into (edges_of c.union) (owner k) ≡ 0
        → (c.log.version.settled < c.log.version.applied)
        ⊎ ((c.log.version.applied ≡ 0) × ((n : ℕ) → slice_index_or c.desk.out n false ≡ false))
        → MayClear c (owner k) → MayStore c k 0 }
{}

/// What a plane knows of a store by edges and counts alone, and what speaks of what workers may see and of plies, are
/// all that the store asks. The second half is asked where passes may reach the object, or the word is no Drop; else
/// the promise of steady traffic holds before it and after it, for the same names.
pub fn two_halves_are_all_that_a_store_asks()
    ensures { (objects seat k : ℕ) (w : Word) (words : List ℕ) (views : List View) (c : Control)
        → IsLawful objects words views → HasView views seat (control c) → MayPlace c k w
        → (w ≡ said.Drop → (IsReached c (owner k) → ⊥) → MayStoreSteadily c k (encoded w))
        → ((w ≡ said.Drop → IsReached c (owner k)) → MayChange c k w)
        → MayStore c k (encoded w) }
{}

/// Such a Drop keeps what serves steady traffic, where the object isn't held.
pub fn clearing_keeps_what_is_served()
    ensures { (c : Control) (held : ℕ → Bool) (k : ℕ)
        → owner k ≢ 0 → ((j v : ℕ) → Goes c.union j v → target v ≡ owner k → ⊥) → held (owner k) ≡ false
        → HoldsPromise c (λ o. held o ≡ true) → HoldsPromise (put c k 0) (λ o. held o ≡ true) }
{}

/// The claim word never wraps.
pub fn claims_fit()
    ensures { (objects : ℕ) (words : List ℕ) (views : List View)
        → IsLawful objects words views → slice_index words claim_word + 1 < 2 ^ 64 }
{}

/// Where no worker is out, the claims brought home are the numbers below the claim word, each once.
pub fn claims_are_drawn_once()
    ensures { (objects seat : ℕ) (words : List ℕ) (views : List View) (c : Control)
        → IsLawful objects words views → HasView views seat (control c)
        → ((n : ℕ) → slice_index_or c.desk.out n false ≡ false)
        → (slice_index words claim_word ≡ length c.gathered)
        × ((n : ℕ) → times n c.gathered ≡ (if nat_lt n (length c.gathered) then 1 else 0)) }
{}
