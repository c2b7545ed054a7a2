// One load of a pass.
use fib_core::Word;

/// A load of a pass: of which object, of which of its sixteen slots, and the word that was found there.
#[derive(Clone, Copy, Debug, PartialEq, Eq)]
pub struct Load {
    pub object: u32,
    pub slot: u32,
    pub word: Word,
}
