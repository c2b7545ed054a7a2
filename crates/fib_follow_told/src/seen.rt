// Prefixes that are gathered, each once.
ghost use Rattle.std.specs.Prelude.{◌∷◌, [], OnOk, IfOk, flat_map, option_to_list};
ghost use Rattle.fib_reach.specs.Walks.{AllDiffer};
ghost use Rattle.fib_follow_told.specs.inner.Gathered.{Gathers};

use fib_addr::Prefix;
use fib_entries_rows::dependants::Dependants;
use std::alloc::{AllocError, Global};

/// Puts the prefix to those that are seen, where it isn't among them.
fn see(seen: &mut Dependants, e: Prefix) -> Result<(), AllocError>
    requires { AllDiffer seen.old }
    ensures { OnOk result (Gathers (e ∷ []) seen.old seen.new) }
{
    if seen.has(e) {
        return Ok(());
    }
    seen.put(e)
}

/// The same of each of the list.
pub fn see_each(seen: &mut Dependants, list: &[Prefix]) -> Result<(), AllocError>
    requires { AllDiffer seen.old }
    ensures { OnOk result (Gathers list.now seen.old seen.new) }
{
    'list: for place in 0..list.len() {
        see(seen, list[place])?;
    }
    Ok(())
}

/// The same of the goal, if it is one.
fn see_goal(seen: &mut Dependants, goal: Option<Prefix>) -> Result<(), AllocError>
    requires { AllDiffer seen.old }
    ensures { OnOk result (Gathers (option_to_list goal) seen.old seen.new) }
{
    match goal {
        Some(target) => see(seen, target),
        None => Ok(()),
    }
}

/// Those of the goals that are some, each once.
pub fn targets(alloc: Global, goals: &[Option<Prefix>]) -> Result<Dependants, AllocError>
    ensures { IfOk result (λ seen. Gathers (flat_map option_to_list goals.now) [] seen) }
{
    let mut seen = Dependants::new(alloc);
    'goals: for place in 0..goals.len() {
        see_goal(&mut seen, goals[place])?;
    }
    Ok(seen)
}
