// Who is woken by whom.
ghost use Rattle.std.specs.Prelude.{◌≡◌};
ghost use Rattle.fib_resolve.specs.declared.types.Tables.{Tables as TablesValue};
ghost use Rattle.fib_resolve_changes.specs.Ranks.{wakes};
ghost use Rattle.fib_entries_rows.specs.Known.{StandsFor};

use crate::entries::Entries;
use fib_addr::Prefix;
use fib_entries_rows::aims::aims_at;

impl Entries {
    /// Whether the first entry is woken where the second begins or ceases to forward: it has an edge to it, by Cover or by a recursive
    /// path that isn't looped. Who is woken by an entry is thus found among its dependants.
    pub fn wakes(&self, entry: Prefix, target: Prefix) -> bool
        ensures { (S : TablesValue) → StandsFor self.now S → result ≡ wakes S entry target }
    {
        match self.row_of(entry) {
            Some(r) => aims_at(target, r.marked(), r.looped()),
            None => false,
        }
    }
}
