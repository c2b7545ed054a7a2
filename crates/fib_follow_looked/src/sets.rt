// Prefixes that are put to a set.
ghost use Rattle.std.specs.Prelude.{OnOk};
ghost use Rattle.std.specs.Set.{is_member};
ghost use Rattle.fib_addr.specs.Prefixes.{same_prefix};
ghost use Rattle.fib_follow_looked.specs.inner.Adding.{Adds};

use fib_addr::Prefix;
use fib_cover::PrefixSet;
use std::alloc::AllocError;

pub fn add_one(set: &mut PrefixSet, e: Prefix) -> Result<(), AllocError>
    ensures { OnOk result (Adds (λ q. same_prefix q e) set.old set.new) }
{
    set.insert(e)?;
    Ok(())
}

pub fn add_all(set: &mut PrefixSet, list: &[Prefix]) -> Result<(), AllocError>
    ensures { OnOk result (Adds (is_member same_prefix list.now) set.old set.new) }
{
    'list: for place in 0..list.len() {
        add_one(set, list[place])?;
    }
    Ok(())
}
