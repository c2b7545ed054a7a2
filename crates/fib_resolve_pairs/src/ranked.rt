// Pairs in which the best of a prefix is found at once.
ghost use Rattle.std.specs.Prelude.{◌≡◌, IfOk, option_copied};
ghost use Rattle.fib_resolve.specs.Pairs.{best_pair, paths_of};

use crate::places;
use fib_addr::Prefix;
use fib_resolve::{Pair, Path};
use std::alloc::{AllocError, Global};
use std::collections::HashMap;
use std::marker::Model;

/// Pairs in which a prefix's pair of the best source is found by one look-up. Contracts see the pairs.
pub struct Ranked {
    pairs: Vec<Pair>,
    best: HashMap<Prefix, usize>,
}

// The prover follows what a drop does here, once, and not at every way out past an owner.
impl Drop for Ranked {
    fn drop(self) {
        let Ranked { pairs: _, best: _ } = self;
    }
}

impl Model for Ranked {
    ghost use Rattle.std.specs.Prelude.{List};
    ghost use Rattle.fib_resolve.specs.declared.pairs.Pair.{Pair as PairValue};
    ghost use Rattle.fib_resolve_pairs.specs.inner.Places.{AreBest};

    ghost Value = { List PairValue };

    ghost view = { λ s. s.pairs.items };

    ghost invariant = { λ s. AreBest s.pairs.items s.best };
}

impl Ranked {
    /// These pairs.
    pub fn of(alloc: Global, pairs: Vec<Pair>) -> Result<Ranked, AllocError>
        ensures { IfOk result (λ s. s ≡ pairs.items) }
    {
        let best = places::best_places(alloc, pairs.as_slice())?;
        Ok(Ranked { pairs, best })
    }

    /// The pairs, in order.
    pub fn pairs(&self) -> &[Pair]
        ensures { result.now ≡ self.now }
    {
        self.pairs.as_slice()
    }

    /// The prefix's pair of the best source.
    pub fn best(&self, prefix: Prefix) -> Option<&Pair>
        ensures { option_copied result ≡ best_pair prefix self.now }
    {
        let place = self.best.get(&prefix)?;
        self.pairs.as_slice().get(*place)
    }

    /// The list of the prefix's best source, empty where it has none.
    pub fn best_paths(&self, prefix: Prefix) -> &[Path]
        ensures { result.now ≡ paths_of (best_pair prefix self.now) }
    {
        match self.best(prefix) {
            Some(pair) => pair.paths.as_slice(),
            None => &[],
        }
    }
}
