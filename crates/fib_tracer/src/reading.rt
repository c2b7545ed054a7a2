// What a traced run's lines change.
use fib_rounds_turns::Progress;

/// What lines change beside the control plane: what is kept of the script, and the text that they print.
#[derive(Drop)]
pub struct Reading {
    pub progress: Progress,
    pub text: Vec<u8>,
}
