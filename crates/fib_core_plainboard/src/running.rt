// What a running pass needs to go on.
use fib_addr::Addr;
use fib_core::{Stage, Version};

/// A running pass: its packet, the version as it began, and where it stands.
#[derive(Clone, Copy, Debug)]
pub struct Running {
    pub addr: Addr,
    pub hash: u32,
    pub lo: Version,
    pub stage: Stage,
}
