//! What a plan writes stands for the tables after, and what is noted tells of the rows that it makes: each law the contract of a function
//! that does nothing.

ghost use Rattle.std.specs.Prelude.{List};
ghost use Rattle.fib_addr.specs.Prefixes.{Prefix};
ghost use Rattle.fib_entries_rows.specs.Known.{PathKept};
ghost use Rattle.fib_entries_rows.specs.Rows.{Row};
ghost use Rattle.fib_follow_features.specs.FoundBy.{AreNoted};
ghost use Rattle.fib_follow_features.specs.Holders.{Holders};
ghost use Rattle.fib_follow_write.specs.Plans.{IsWritten};
ghost use Rattle.fib_follow_write.specs.declared.writing.Plan.{Plan};
ghost use Rattle.fib_follow_plan.specs.Noted.{AreFoundAll, AreFull, AreTold};
ghost use Rattle.fib_follow_plan.specs.declared.entry.Renoted.{Renoted};
ghost use Rattle.std.specs.Prelude.{◌≡◌, ◌^◌, ◌-◌, ℕ, List, min};
ghost use Rattle.fib_resolve.specs.Sizes.{size};
ghost use Rattle.fib_resolve.specs.declared.types.Tables.{Tables};
ghost use Rattle.fib_entries_rows.specs.Changes.{AreMoved};
ghost use Rattle.fib_entries_rows.specs.Known.{PathKept, StandsFor, rank_of};
ghost use Rattle.fib_entries_rows.specs.declared.changes.Moved.{Moved};
ghost use Rattle.fib_entries_rows.specs.inner.Used.{AreUsed};
ghost use Rattle.fib_follow_view.specs.Views.{Seen};
ghost use Rattle.fib_follow_part.specs.Parts.{Part};
ghost use Rattle.fib_follow_told.specs.Told.{AreMovedBy, rank_left};
ghost use Rattle.fib_follow_told.specs.declared.body.Body.{Body};
ghost use Rattle.fib_follow_told.specs.declared.edges.Edges.{Edges};
ghost use Rattle.fib_follow_write.specs.Plans.{IsPlan, IsWritten};
ghost use Rattle.fib_follow_plan.specs.Made.{plan_of};
ghost use Rattle.fib_follow_plan.specs.Stands.{IsWorkedOut};

/// What was noted before a plan was written is noted of the rows written; and the list tells all features that these have.
pub fn written_is_noted()
    ensures noted { (rows new : List Row) (lists later : List PathKept) (order after : List Prefix) (plan : Plan) (list : List Renoted)
        (sets : List Holders) → AreNoted lists order rows sets → AreFoundAll list sets → AreTold rows lists order plan list
        → IsWritten plan rows new lists later after → AreNoted later after new sets }
    ensures full { (rows new : List Row) (lists later : List PathKept) (order after : List Prefix) (plan : Plan) (list : List Renoted)
        → AreTold rows lists order plan list → IsWritten plan rows new lists later after → AreFull later after new list }
{}

/// What a plan writes stands for the tables after, where all of which it is made was worked out for these, and the size is theirs. What is
/// told as moved is what the rows say.
pub fn written_stands()
    ensures stands { (v : Seen) (S T : Tables) (p : Part) (ranks : List ℕ) (list : List Prefix) (bodies : List Body) (x : Edges)
        (order after : List Prefix) (new : List Row) (later : List PathKept) (objects : ℕ)
        → IsWorkedOut v S T p ranks list bodies x → AreUsed v.before.rows v.before.lists order
        → IsPlan v.before.rows (plan_of v p ranks bodies x)
        → IsWritten (plan_of v p ranks bodies x) v.before.rows new v.before.lists later after
        → objects ≡ min (size T) (2 ^ 32 - 1)
        → StandsFor (record { rows = new; lists = later; objects = objects }) T }
    ensures moved { (v : Seen) (S T : Tables) (p : Part) (ranks : List ℕ) (list : List Prefix) (bodies : List Body) (x : Edges)
        (order after : List Prefix) (new : List Row) (later : List PathKept) (told : List Moved)
        → IsWorkedOut v S T p ranks list bodies x → AreUsed v.before.rows v.before.lists order
        → IsPlan v.before.rows (plan_of v p ranks bodies x)
        → IsWritten (plan_of v p ranks bodies x) v.before.rows new v.before.lists later after
        → AreMovedBy (rank_of v.before.rows) (rank_left T v p ranks) told
        → AreMoved v.before.rows new told }
{}
