// Who is written.
ghost use Rattle.std.specs.Prelude.{◌≡◌, ◌↔◌, ◌⊎◌, Contains, IfOk};
ghost use Rattle.std.specs.Set.{is_member};
ghost use Rattle.fib_addr.specs.Prefixes.{Prefix as PrefixValue, same_prefix};
ghost use Rattle.fib_reach.specs.Walks.{AllDiffer};
ghost use Rattle.fib_resolve.specs.declared.types.Tables.{Tables as TablesValue};
ghost use Rattle.fib_resolve_changes.specs.Reached.{HoldsTouched};
ghost use Rattle.fib_follow_view.specs.Views.{Seen, is_changed};
ghost use Rattle.fib_follow_part.specs.Parts.{IsPart, in_part};
ghost use Rattle.fib_follow_told.specs.Told.{AreOthers};

use crate::seen::see_each;
use fib_addr::Prefix;
use fib_entries_rows::dependants::Dependants;
use fib_follow_part::Part;
use std::alloc::{AllocError, Global};
use std::marker::Model;

/// The prefixes whose rows are written: those of the part, those with a need of a changed host, and those that leave by an end that means
/// another. Each stands once; contracts see their list.
pub struct Written {
    held: Dependants,
}

// The prover follows what a drop does here, once, and not at every way out past an owner.
impl Drop for Written {
    fn drop(self) {
        let Written { held: _ } = self;
    }
}

impl Model for Written {
    ghost use Rattle.std.specs.Prelude.{List};
    ghost use Rattle.fib_addr.specs.Prefixes.{Prefix as PrefixValue};

    ghost Value = { List PrefixValue };

    ghost view = { λ s. s.held };
}

impl Written {
    /// The part's members, then the others that are none of them. The others are those with a need of a changed host or with an end that
    /// means another (`AreOthers`); more of them do no harm. An error means that memory ran out.
    pub fn of(alloc: Global, part: &Part, others: &[Prefix]) -> Result<Written, AllocError>
        ensures once { IfOk result (λ w. AllDiffer w) }
        ensures each { IfOk result (λ w. (e : PrefixValue) → Contains w e ↔ Contains part.now.members e ⊎ Contains others.now e) }
        ensures holds { IfOk result (λ w. (v : Seen) (S T : TablesValue) → IsPart v S T part.now
            → AreOthers S T (is_changed v.changed) others.now
            → HoldsTouched S T (is_changed v.changed) (in_part part.now) (is_member same_prefix w)) }
    {
        let mut held = Dependants::new(alloc);
        see_each(&mut held, part.members())?;
        see_each(&mut held, others)?;
        Ok(Written { held })
    }

    /// The prefixes, each once.
    pub fn list(&self) -> &[Prefix]
        ensures { result.now ≡ self.now }
    {
        self.held.as_slice()
    }

    /// Whether the prefix is one of them.
    pub fn has(&self, e: Prefix) -> bool
        ensures { result ≡ is_member same_prefix self.now e }
    {
        self.held.has(e)
    }
}
