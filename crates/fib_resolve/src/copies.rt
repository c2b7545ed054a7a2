// Copies that are equal to what they copy.
ghost use Rattle.std.specs.Prelude.{◌≡◌, IfOk};

use crate::pairs::Pair;
use crate::types::{Address, Interface, Neighbor, Path, Route, Tables};
use fib_base_list::Duplicate;
use std::alloc::{AllocError, Global};

impl Duplicate for Path {
    fn duplicate(&self, _alloc: Global) -> Result<Path, AllocError> {
        Ok(*self)
    }
}

impl Duplicate for Address {
    fn duplicate(&self, _alloc: Global) -> Result<Address, AllocError> {
        Ok(*self)
    }
}

impl Duplicate for Neighbor {
    fn duplicate(&self, _alloc: Global) -> Result<Neighbor, AllocError> {
        Ok(*self)
    }
}

impl Duplicate for Interface {
    fn duplicate(&self, alloc: Global) -> Result<Interface, AllocError> {
        Ok(Interface {
            name: self.name.duplicate(alloc)?,
            up: self.up,
        })
    }
}

impl Duplicate for Route {
    fn duplicate(&self, alloc: Global) -> Result<Route, AllocError> {
        Ok(Route {
            prefix: self.prefix,
            source: self.source,
            paths: self.paths.duplicate(alloc)?,
        })
    }
}

impl Duplicate for Pair {
    fn duplicate(&self, alloc: Global) -> Result<Pair, AllocError> {
        Ok(Pair {
            prefix: self.prefix,
            source: self.source,
            paths: self.paths.duplicate(alloc)?,
        })
    }
}

impl Duplicate for Tables {
    fn duplicate(&self, alloc: Global) -> Result<Tables, AllocError> {
        Ok(Tables {
            interfaces: self.interfaces.duplicate(alloc)?,
            addresses: self.addresses.duplicate(alloc)?,
            neighbors: self.neighbors.duplicate(alloc)?,
            routes: self.routes.duplicate(alloc)?,
        })
    }
}
