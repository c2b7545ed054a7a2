// How many objects the tables take, counted.
ghost use Rattle.std.specs.Prelude.{◌≡◌, ◌+◌, ◌^◌, ◌-◌, ◌++◌, ◌∷◌, IfOk, OnOk, map, flat_map, length, min, option_to_list};
ghost use Rattle.std.specs.Set.{unique_keys, is_member};
ghost use Rattle.fib_addr.specs.Prefixes.{same_prefix};
ghost use Rattle.fib_addr.specs.Longest.{everything};
ghost use Rattle.fib_resolve.specs.Pairs.{entries, chosen};
ghost use Rattle.fib_resolve.specs.Tables.{IsSound};
ghost use Rattle.fib_resolve.specs.Sizes.{plies_of, plies, kind_adjacency, same_adjacency, adjacencies_of, adjacencies, size};

use crate::known::Known;
use crate::paths;
use crate::repeats::distinct;
use fib_addr::{Addr, Prefix};
use fib_resolve::{Adjacency, Tables};
use std::alloc::{AllocError, Global};

fn add_plies(out: &mut Vec<Prefix>, p: Prefix) -> Result<(), AllocError>
    ensures { OnOk result (out.new.items ≡ out.old.items ++ plies_of p) }
{
    for k in 0..(p.len() + 3) / 4 {
        out.push(Prefix::masked(p.bits(), 4 * k))?;
    }
    Ok(())
}

/// The plies, each once: that of all addresses, and those of the entries.
#[tactic(auto, unfolding(fib_resolve::specs::Sizes::plies))]
fn plies(alloc: Global, known: &Known<'_>) -> Result<Vec<Prefix>, AllocError>
    ensures { IfOk result (λ v. v.items ≡ plies known.now) }
{
    let mut out = Vec::new(alloc);
    out.push(Prefix::masked(Addr(0), 0))?;
    for e in known.entries() {
        add_plies(&mut out, *e)?;
    }
    distinct(alloc, out.as_slice())
}

fn all_adjacencies(alloc: Global, known: &Known<'_>) -> Result<Vec<Adjacency>, AllocError>
    ensures { IfOk result (λ v. v.items ≡ flat_map (adjacencies_of known.now) (entries known.now)) }
{
    let mut out = Vec::new(alloc);
    for e in known.entries() {
        paths::add_adjacencies(&mut out, *e, known.chosen(*e))?;
    }
    Ok(out)
}

impl Known<'_> {
    /// The Hop ends of all chosen lists, each once, usable or not.
    #[tactic(auto, unfolding(fib_resolve::specs::Sizes::adjacencies))]
    pub fn adjacencies(&self, alloc: Global) -> Result<Vec<Adjacency>, AllocError>
        ensures { IfOk result (λ v. v.items ≡ adjacencies self.now) }
    {
        let all = all_adjacencies(alloc, self)?;
        distinct(alloc, all.as_slice())
    }

    /// The size of the tables, or 4,294,967,295 where it is greater.
    #[tactic(auto, unfolding(fib_resolve::specs::Sizes::size))]
    pub fn size(&self, alloc: Global) -> Result<u32, AllocError>
        ensures { IfOk result (λ n. n ≡ min (size self.now) (2 ^ 32 - 1)) }
    {
        let plies = plies(alloc, self)?.len();
        let adjacencies = self.adjacencies(alloc)?.len();
        let total = plies
            .saturating_add(self.entries().len())
            .saturating_add(adjacencies);
        Ok(total.min(u32::MAX as usize) as u32)
    }
}

/// How many objects the tables take, or 4,294,967,295 where that is more.
pub fn size(alloc: Global, tables: &Tables) -> Result<u32, AllocError>
    requires { IsSound tables.now }
    ensures { IfOk result (λ n. n ≡ min (size tables.now) (2 ^ 32 - 1)) }
{
    let known = Known::of(alloc, tables)?;
    known.size(alloc)
}
