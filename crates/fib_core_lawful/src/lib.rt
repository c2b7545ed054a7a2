//! The lawful state of the shared words: what the seats know, what each event makes of it, and the parts that hold between any two events.
//!
//! `specs/Layout.antt` says where the words lie. `specs/State.antt` has the views of the seats and one function an event.
//! `specs/Frame.antt` says which seats there are and who may store which
//! word, over any list of parts; `specs/Lawful.antt` has the parts of the lawful state, `specs/Claims.antt` what speaks of all views at once, and
//! `specs/Rule.antt` joins them. `specs/May.antt` says what the control plane's events ask. Each event is proved to keep the rule over any parts
//! that it keeps, and to keep these; fib_core_rule joins them with steady traffic.
#![tactic(auto)]

mod layout;
mod passes;

pub use layout::{cell_word, claim_word, pass_word, version_word, words_for};
pub use passes::passes_left;
