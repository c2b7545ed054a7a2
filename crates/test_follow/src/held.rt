// Rows of tables with their lists and their order, as entries hold them.
ghost use Rattle.std.specs.Prelude.{◌≡◌, IfOk};
ghost use Rattle.fib_resolve.specs.Tables.{IsSound};
ghost use Rattle.fib_entries_rows.specs.Known.{StandsFor};

use fib_base_blocks::Blocks;
use fib_cover::PrefixSet;
use fib_entries_rows::build::take_all;
use fib_entries_rows::rows::Row;
use fib_entries_rows::sizes::size_of;
use fib_entries_rows::whole;
use fib_follow_features::Features;
use fib_follow_view::Before;
use fib_paths::PathLists;
use fib_resolve::Tables;
use fib_resolve_pairs::Meaning;
use std::alloc::{AllocError, Global};
use std::marker::Model;

pub struct HeldRows {
    rows: Blocks<Row>,
    lists: PathLists,
    order: PrefixSet,
    objects: u32,
}

// The prover follows what a drop does here, once, and not at every way out past an owner.
impl Drop for HeldRows {
    fn drop(self) {
        let HeldRows {
            rows: _,
            lists: _,
            order: _,
            objects: _,
        } = self;
    }
}

impl Model for HeldRows {
    ghost use Rattle.fib_entries_rows.specs.Known.{Known};
    ghost use Rattle.fib_follow_view.specs.inner.Told.{AreBefore};

    ghost Value = { Known };

    ghost view = { λ s. record { rows = s.rows; lists = s.lists; objects = s.objects } };

    ghost invariant = { λ s. AreBefore s.rows s.lists s.order };
}

impl HeldRows {
    /// Those of the tables.
    pub fn of(alloc: Global, tables: &Tables) -> Result<HeldRows, AllocError>
        requires { IsSound tables.now }
        ensures { IfOk result (λ v. StandsFor v tables.now) }
    {
        let meaning = Meaning::of(alloc, tables)?;
        let listed = meaning.listed(alloc)?;
        let mut lists = PathLists::new(alloc);
        let ids = take_all(alloc, &mut lists, meaning.pairs())?;
        let made = whole::rows_anew(alloc, &meaning, &lists, ids.as_slice(), listed.as_slice())?;
        let rows = Blocks::of(alloc, made)?;
        let objects = size_of(alloc, &meaning, listed.as_slice())?;
        let order = meaning.into_entries();
        Ok(HeldRows {
            rows,
            lists,
            order,
            objects,
        })
    }

    /// By what the rows are found.
    pub fn features(&self, alloc: Global) -> Result<Features, AllocError> {
        Features::of(alloc, &self.lists, &self.order, &self.rows)
    }

    pub fn rows(&self) -> &Blocks<Row>
        ensures { result.now ≡ self.now.rows }
    {
        &self.rows
    }

    pub fn before(&self) -> Before<'_>
        ensures { result ≡ self.now }
    {
        Before::new(&self.rows, &self.lists, &self.order, self.objects)
    }
}
