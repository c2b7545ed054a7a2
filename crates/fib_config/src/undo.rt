// What takes an edit back.
use fib_addr::{Addr, Prefix};
use fib_base_keyed::Gone;
use fib_resolve::{Address, Blocks, Interface, List, Neighbor, Route, Spare};
use fib_resolve_changes::Change;

/// What takes an edit back, on the tables that it made: `undone` in `specs/Undone` says what each gives.
#[derive(Drop)]
pub enum Undo {
    /// The interfaces are these again.
    Interfaces(List<Interface>),
    /// The addresses are these again.
    Addresses(List<Address>),
    /// The neighbors are these again.
    Neighbors(Blocks<Neighbor>),
    /// The last neighbor goes.
    NeighborAdded,
    /// The neighbor at that place is this one again.
    NeighborSet {
        place: usize,
        old: Neighbor,
    },
    /// The neighbor that went stands at that place again, and its key beside the others. Where there is no such place, or where the
    /// neighbors and the one more are too many for the memory, nothing happens.
    NeighborGone {
        place: usize,
        old: Neighbor,
        spare: Spare<Neighbor>,
        key: Option<Gone<(u32, Addr)>>,
    },
    /// The routes are these again.
    Routes(Blocks<Route>),
    /// The last route goes.
    RouteAdded,
    /// The route at that place is this one again.
    RouteSet {
        place: usize,
        old: Route,
    },
    /// The route that went stands at that place again, and its key beside the others. Where there is no such place, or where the routes
    /// and the one more are too many for the memory, nothing happens.
    RouteGone {
        place: usize,
        old: Route,
        spare: Spare<Route>,
        key: Option<Gone<(Prefix, u8)>>,
    },
}

/// How the deletion of a route or a neighbor is to be taken back.
#[derive(Clone, Copy)]
pub enum Back {
    /// By what went alone, with memory that is reserved for as many as there were. It costs no copy, but the room of one.
    Reserved,
    /// By a copy of the whole list, since of several edits one such list takes back all.
    Whole,
}

/// An edit that was made: the place that it changed, and what takes it back.
#[derive(Drop)]
pub struct Edited {
    pub change: Change,
    pub undo: Undo,
}

/// Edits that were made one after the other: the places that they changed, in their order, and what takes them back, the last one first.
#[derive(Drop)]
pub struct EditedAll {
    pub changes: Vec<Change>,
    pub undos: Vec<Undo>,
}
