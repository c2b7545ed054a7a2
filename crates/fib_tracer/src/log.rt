// The passes that were made.
ghost use Rattle.std.specs.Prelude.{◌≡◌, ◌≤◌, ◌+◌, ◌++◌, ◌∷◌, [], length, IfOk, OnOk, OnErr};

use fib_base_list::List;
use fib_core::Record;
use fib_trace::{Load, Trail};
use std::alloc::{AllocError, Global};

/// A pass that was made: what it answered, and its loads, the first one first.
#[derive(Drop)]
pub struct Traced {
    pub result: Record,
    pub loads: List<Load>,
}

/// The trail of the pass that runs, and the passes that were made before it.
#[derive(Drop)]
pub struct Log {
    pub trail: Trail,
    pub passes: Vec<Traced>,
}

impl Log {
    /// No pass yet, and room for the loads of one over so many objects.
    pub fn new(alloc: Global, objects: u32) -> Result<Log, AllocError>
        ensures trail { IfOk result (λ log. log.trail ≡ record { loads = []; objects = objects }) }
        ensures none { IfOk result (λ log. log.passes.items ≡ []) }
    {
        Ok(Log {
            trail: Trail::new(alloc, objects)?,
            passes: Vec::new(alloc),
        })
    }
}

// A copy of loads.
fn copied(alloc: Global, loads: &[Load]) -> Result<List<Load>, AllocError>
    ensures { IfOk result (λ copy. copy ≡ loads.now) }
{
    Ok(List::from_vec(loads.to_vec(alloc)?))
}

/// Keeps a pass that answered so, and whose loads the trail tells. Want of memory leaves what was kept before.
pub fn keep(
    alloc: Global,
    passes: &mut Vec<Traced>,
    answer: Record,
    trail: &Trail,
) -> Result<(), AllocError>
    ensures ok { OnOk result (passes.new.items ≡ passes.old.items ++ record { result = answer; loads = trail.now.loads } ∷ []) }
    ensures few { length trail.now.loads ≤ trail.now.objects + 2 }
    ensures err { OnErr result (passes.new.items ≡ passes.old.items) }
{
    let loads = copied(alloc, trail.loads())?;
    passes.push(Traced {
        result: answer,
        loads,
    })?;
    Ok(())
}
