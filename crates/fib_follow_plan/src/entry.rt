// An entry of which features can be others.
use fib_addr::Prefix;
use fib_follow_features::Feature;

/// An entry with the features by which it was found, and those by which it will be.
pub struct Renoted {
    pub prefix: Prefix,
    /// All features that its row has; none where it has no row.
    pub old: Vec<Feature>,
    /// All that its row will have; none where it will have no row.
    pub new: Vec<Feature>,
}

// The prover follows what a drop does here, once, and not at every way out past an owner.
impl Drop for Renoted {
    fn drop(self) {
        let Renoted {
            prefix: _,
            old: _,
            new: _,
        } = self;
    }
}
