//! The listings of a router's tables: `show ip fib`, `show fib path-lists` and `show adj`.
//!
//! Each is a text over the tables, put together from what is known of their entries: nothing of that is worked out anew but which entries
//! forward. A listing takes the time of sorting what it lists, and a look-up or two for each path.
#![tactic(auto)]

mod adjacencies;
mod entries;
mod forwarding;
pub mod laws;
mod lists;
mod rows;
mod view;

pub use adjacencies::put_adjacencies;
pub use entries::put_entries;
pub use lists::put_path_lists;
