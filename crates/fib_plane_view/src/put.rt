// What a put answers.

/// What a put did.
#[derive(Clone, Copy, Debug, PartialEq, Eq)]
pub enum Put {
    /// The cell holds the word already. Nothing was stored.
    Same,
    /// The word was stored.
    Stored,
    /// The word is an edge that would close a cycle. The cell holds Drop, which was stored where it held another word.
    Dropped,
}
