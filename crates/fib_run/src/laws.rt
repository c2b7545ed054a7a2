// Laws of the definitions, each the contract of a call without a body.
ghost use Rattle.fib_run.specs.SoakCounts.{SoakCountsAddUp};

/// What the run of a seed prints, whatever the seed and the room: 2,988 lines, of which 2,908 are accepted or refused; 40,000 packets,
/// of which 20,000 are quiet, and these are the sum of the five counts of ends.
pub fn soak_counts_add_up()
    ensures { SoakCountsAddUp }
{}
