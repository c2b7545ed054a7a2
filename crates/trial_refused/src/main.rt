//! A pass that is held for three hops while two routes come to lead to each other, on a control plane of whose calls one may want memory: what is found
//! is printed, and is the same whichever that was. `tests/refused.py` refuses each allocation in turn.
#![tactic(auto)]

use std::process::ExitCode;
use trial_plain::refused::held_with_a_refusal;

/// The status where memory is wanted to print.
const MEMORY: u8 = 6;

fn main(rt: HostRuntime) -> ExitCode {
    let status = match held_with_a_refusal(rt.alloc(), 3) {
        Ok(found) => match println!(rt; "{found:?}") {
            Ok(()) => 0,
            Err(_) => MEMORY,
        },
        Err(_) => 1,
    };
    ExitCode::from(status)
}
