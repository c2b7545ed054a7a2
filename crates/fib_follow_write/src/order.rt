// Prefixes that come to the set of them, and prefixes that go from it.
ghost use Rattle.std.specs.Prelude.{◌≡◌, Contains, OnOk, OnErr};
ghost use Rattle.fib_reach.specs.Walks.{AllDiffer};
ghost use Rattle.fib_addr.specs.Prefixes.{Prefix as PrefixValue};
ghost use Rattle.fib_follow_write.specs.Steps.{AreTaken};
ghost use Rattle.fib_follow_write.specs.Written.{HaveJoined, HaveLeft};
ghost use Rattle.fib_follow_write.specs.inner.Stepped.{HasJoined};

use crate::steps::{Step, take_all};
use fib_addr::Prefix;
use fib_cover::PrefixSet;
use std::alloc::{AllocError, Global};

impl Step<PrefixSet> for Prefix {
    ghost use Rattle.fib_follow_write.specs.inner.Stepped.{HasJoined, IsToJoin};

    ghost fits = { IsToJoin };

    ghost makes = { HasJoined };

    fn take(&self, alloc: Global, state: &mut PrefixSet) -> Result<(), AllocError> {
        // The set knows its memory itself.
        let _alloc = alloc;
        // The count tells that its members ascend.
        let _count = state.len();
        state.insert(*self)?;
        Ok(())
    }

    fn take_back(&self, state: &mut PrefixSet) {
        state.remove(*self);
    }
}

/// The prefixes become members, which none of them is. Errs where memory is wanting; the set is as before then. `take_all_back` takes them
/// back.
pub fn join_all(alloc: Global, order: &mut PrefixSet, prefixes: &[Prefix]) -> Result<(), AllocError>
    requires once { AllDiffer prefixes.now }
    requires absent { (p : PrefixValue) → Contains prefixes.now p → Contains order.old p → ⊥ }
    ensures ok { OnOk result (HaveJoined prefixes.now order.old order.new) }
    ensures steps { OnOk result (AreTaken HasJoined prefixes.now order.old order.new) }
    ensures err { OnErr result (order.new ≡ order.old) }
{
    // The count tells that its members ascend.
    let _count = order.len();
    take_all(alloc, order, prefixes)
}

/// The prefixes are members no more. Takes no memory.
pub fn leave_all(order: &mut PrefixSet, prefixes: &[Prefix])
    ensures { HaveLeft prefixes.now order.old order.new }
{
    // The count tells that its members ascend.
    let _count = order.len();
    'order: for place in 0..prefixes.len() {
        order.remove(prefixes[place]);
    }
}
