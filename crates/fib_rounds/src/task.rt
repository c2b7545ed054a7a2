// What a run has, and what its lines change.
ghost use Rattle.std.specs.Prelude.{◌≡◌};

use fib_capture::Capture;
use fib_commands::Script;
use fib_core::Settings;
use fib_outside::Gate;
use fib_rounds_turns::{Means, Progress};
use std::alloc::Global;
use std::sync::Wait;
use std::thread::Threads;

/// What a run has throughout: the runtime, where memory is taken, who is told of changes and packets, the sizes, the script and the capture.
#[derive(Drop)]
pub struct Task<'a, R: Threads + Wait + Sync, G: Gate> {
    pub rt: &'a R,
    pub alloc: Global,
    pub gate: &'a G,
    pub settings: Settings,
    pub script: &'a Script,
    pub packets: &'a Capture,
}

impl<'a, R: Threads + Wait + Sync, G: Gate> Task<'a, R, G> {
    /// What its lines are run with.
    pub fn means(&self) -> Means<'_, R, G>
        ensures { result.walk ≡ self.now.settings.walk }
    {
        Means {
            rt: self.rt,
            alloc: self.alloc,
            gate: self.gate,
            walk: self.settings.walk,
        }
    }
}

/// What lines change beside the control plane: what is kept of the script, and the text that they print.
#[derive(Drop)]
pub struct Reading {
    pub progress: Progress,
    pub text: Vec<u8>,
}
