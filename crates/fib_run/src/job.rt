// What is asked of a run of files, and what it has throughout.
use fib_core::Settings;
use fib_outside::Gate;
use std::alloc::Global;
use std::sync::Wait;
use std::thread::Threads;

/// The files of a run, by their names, and its sizes.
#[derive(Clone, Copy, Debug, PartialEq, Eq)]
pub struct Job<'a> {
    pub settings: Settings,
    pub commands: &'a str,
    /// The file of the packets, where one is named.
    pub capture: Option<&'a str>,
}

/// What a run of files has throughout: the runtime, where memory is taken, who is told of changes and packets, and what is asked of it.
#[derive(Drop)]
pub struct FileTask<'a, R: Threads + Wait + Sync, G: Gate> {
    pub rt: &'a R,
    pub alloc: Global,
    pub gate: &'a G,
    pub job: Job<'a>,
}
