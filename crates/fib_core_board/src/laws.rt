// What a plane's proofs rest on. A law each, the contract of a call without a body.
ghost use Rattle.std.specs.Prelude.{ℕ, Contains, List, Option, Some, None, false, true, ◌≡◌, ◌≢◌};
ghost use Rattle.fib_union.specs.Unions as edges;
ghost use Rattle.fib_union.specs.Unions.{into, owner};
ghost use Rattle.fib_core.specs.declared.word.Word.{Word};
ghost use Rattle.fib_core.specs.declared.word.Word.TheVariants as said;
ghost use Rattle.fib_core.specs.Words.{IsRoomy, encoded, is_edge, value_of};
ghost use Rattle.fib_core.specs.Trails.{Trail};
ghost use Rattle.fib_core_lawful.specs.State.{Control, View, control};
ghost use Rattle.fib_core_lawful.specs.Frame.{HasView};
ghost use Rattle.fib_core_rule.specs.Rule.{IsLawful};
ghost use Rattle.fib_core_rule.specs.May as events;
ghost use Rattle.fib_core_board.specs.Boards.{Board, HasNoPly, Pass, board_of, board_scanned, board_stored, edge_of, union_of};
ghost use Rattle.fib_core_board.specs.May.{MayClear, MayStore, HoldsPromise};
ghost use Rattle.fib_core_board.specs.Told.{IsBoard, IsWithinLimits};

/// A store of a word is a store of its edge, or of none, in the board's union between objects.
pub fn stores_are_those_of_edges()
    ensures { (b : Board) (k : ℕ) (w : Word)
        → union_of (board_stored b k w) ≡ edges.stored b.workers (union_of b) k (edge_of w) }
{}

/// An edge leads to the object that it names, and no other word leads anywhere.
pub fn edges_lead_where_they_say()
    ensures edges { (w : Word) → IsRoomy w → is_edge w ≡ true → edge_of w ≡ Some (value_of w) }
    ensures others { (w : Word) → IsRoomy w → is_edge w ≡ false → edge_of w ≡ None }
{}

/// An object that isn't held may be cleared, and clearing it keeps what serves steady traffic.
pub fn what_is_not_held_may_be_cleared()
    ensures may { (b : Board) (held : List ℕ) (o : ℕ) → (Contains held o → ⊥) → HoldsPromise b (Contains held) → MayClear b o }
    ensures kept { (b : Board) (held : List ℕ) (k : ℕ)
        → owner k ≢ 0 → into (union_of b) (owner k) ≡ 0 → (Contains held (owner k) → ⊥)
        → HoldsPromise b (Contains held) → HoldsPromise (board_stored b k said.Drop) (Contains held) }
{}

/// Looking at pass words keeps it too.
pub fn looks_keep_what_is_served()
    ensures { (b : Board) (held : List ℕ) (n found : ℕ)
        → HoldsPromise b (Contains held) → HoldsPromise (board_scanned n found b) (Contains held) }
{}

/// No edge to a ply leaves or enters an object into which no edge leads, but for object 0.
pub fn free_objects_have_no_ply_edge()
    ensures { (b : Board) (o : ℕ) → IsBoard b → o ≢ 0 → into (union_of b) o ≡ 0 → HasNoPly b o }
{}

/// What a board's store asks is what the rule's event asks.
pub fn stores_are_the_rules()
    ensures { (id : List ℕ) (trails : List Trail) (passes : List (Option Pass)) (c : Control) (objects seat k : ℕ)
        (numbers : List ℕ) (views : List View) (w : Word)
        → IsLawful objects numbers views → HasView views seat (control c)
        → MayStore (board_of id trails passes c) k w → events.MayStore c k (encoded w) }
{}

/// The rule tells what holds of a board.
pub fn boards_are_as_told()
    ensures { (id : List ℕ) (c : Control) (objects seat : ℕ) (numbers : List ℕ) (views : List View) (passes : List (Option Pass))
        → IsLawful objects numbers views → HasView views seat (control c) → IsWithinLimits c.objects c.workers
        → IsBoard (board_of id c.home passes c) }
{}
