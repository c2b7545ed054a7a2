// Laws of results, each the contract of a call without a body.
ghost use Rattle.std.specs.Prelude.{◌≡◌, ◌<◌, ℕ, List, Some, length, slice_get};
ghost use Rattle.fib_resolve.specs.declared.types.Tables.{Tables};
ghost use Rattle.fib_core_results.specs.Trails.{IsRecordOk, settled_answer};
ghost use Rattle.fib_core_results.specs.Steady.{IsSteady};

/// Resolution over a version's tables is a right answer of a pass that saw that version alone.
pub fn settled_answers_are_right()
    ensures { (H : List Tables) (k a h : ℕ) (S : Tables) → k < length H → slice_get H k ≡ Some S → IsRecordOk H (settled_answer S k a h) }
{}

/// And it is steady.
pub fn settled_answers_are_steady()
    ensures { (H : List Tables) (k a h : ℕ) (S : Tables) → k < length H → slice_get H k ≡ Some S → IsSteady H (settled_answer S k a h) }
{}
