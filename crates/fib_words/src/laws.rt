// A law of the definitions, the contract of a call without a body.
ghost use Rattle.fib_words.specs.Words.{AcceptedAreInRange};

/// The settings that accepted words ask for lie in their ranges.
pub fn accepted_are_in_range()
    ensures { AcceptedAreInRange }
{}
