// What is kept of an entry.
use crate::dependants::Dependants;
use fib_addr::Prefix;
use fib_base_list::List;
use fib_paths::PathListId;
use fib_resolve::{FibSource, Marked};
use std::alloc::{AllocError, Global};
use std::marker::Model;

/// What is known of an entry beside its prefix.
pub struct Body {
    /// Its sources with the numbers of their lists, the best first.
    pub pairs: List<(FibSource, PathListId)>,
    /// For each path of the chosen list, whether it is looped.
    pub looped: List<bool>,
    /// For each path of the chosen list, whether its need is met.
    pub met: List<bool>,
    /// For each path of the chosen list, what it is for and whether it counts.
    pub marked: List<Marked>,
    /// The entries with an edge to it, each once.
    pub dependants: Dependants,
    /// A number that falls along each edge that isn't looped.
    pub rank: u32,
}

// The prover follows what a drop does here, once, and not at every way out past an owner.
impl Drop for Body {
    fn drop(self) {
        let Body {
            pairs: _,
            looped: _,
            met: _,
            marked: _,
            dependants: _,
            rank: _,
        } = self;
    }
}

/// What is known of an entry. Only its prefix lies in the list of rows, so that little moves where a row comes or goes.
#[derive(Drop)]
pub struct Row {
    pub prefix: Prefix,
    pub body: Box<Body>,
}

impl Model for Row {
    ghost use Rattle.fib_entries_rows.specs.Rows.{Row};

    ghost Value = { Row };

    ghost view = { λ s. record {
      prefix = s.prefix;
      pairs = s.body.value.pairs;
      looped = s.body.value.looped;
      met = s.body.value.met;
      marked = s.body.value.marked;
      dependants = s.body.value.dependants;
      rank = s.body.value.rank;
    } };
}

impl Row {
    ghost use Rattle.std.specs.Prelude.{◌≡◌, IfOk};

    /// The row of a prefix.
    pub fn new(alloc: Global, prefix: Prefix, body: Body) -> Result<Row, AllocError>
        ensures { IfOk result (λ r. r ≡ record {
          prefix = prefix;
          pairs = body.pairs;
          looped = body.looped;
          met = body.met;
          marked =
              body.marked;
          dependants = body.dependants;
          rank = body.rank;
        }) }
    {
        let body = Box::new(alloc, body)?;
        Ok(Row { prefix, body })
    }

    pub fn pairs(&self) -> &[(FibSource, PathListId)]
        ensures { result.now ≡ self.now.pairs }
    {
        self.body.pairs.as_slice()
    }

    pub fn looped(&self) -> &[bool]
        ensures { result.now ≡ self.now.looped }
    {
        self.body.looped.as_slice()
    }

    pub fn met(&self) -> &[bool]
        ensures { result.now ≡ self.now.met }
    {
        self.body.met.as_slice()
    }

    pub fn marked(&self) -> &[Marked]
        ensures { result.now ≡ self.now.marked }
    {
        self.body.marked.as_slice()
    }

    pub fn dependants(&self) -> &Dependants
        ensures { result.now ≡ self.now.dependants }
    {
        &self.body.dependants
    }

    pub fn rank(&self) -> u32
        ensures { result ≡ self.now.rank }
    {
        self.body.rank
    }
}
