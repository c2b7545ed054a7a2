//! Passes that tell their loads.
//!
//! `trace` forwards a packet as a worker of `fib_worker` does, hop by hop over the live cells, and keeps each load: the object, the slot and the
//! word that was found there. The loads are those of the seat's own trail, which is known to be right and steady once the seat is home.
//! `put_load` prints one of them.
#![tactic(auto)]

mod load;
mod pass;
mod put;
mod trail;

pub use load::Load;
pub use pass::trace;
pub use put::put_load;
pub use trail::Trail;
