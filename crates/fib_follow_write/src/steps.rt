// Steps that may want memory, taken as a whole.
ghost use Rattle.std.specs.Prelude.{◌≡◌, OnOk, OnErr};
ghost use Rattle.fib_follow_write.specs.Steps.{AreTaken, Fit};

use std::alloc::{AllocError, Global};

/// A step that changes a state and may want memory for it, and can be taken back without.
pub trait Step<W> {
    /// What the state must be for it.
    ghost fits: { Self → W → Type 0 };

    /// What it makes of a state.
    ghost makes: { Self → W → W → Type 0 };

    /// Takes the step. After want of memory the state is as before.
    fn take(&self, alloc: Global, state: &mut W) -> Result<(), AllocError>
        requires { fits self.now state.old }
        ensures ok { OnOk result (makes self.now state.old state.new) }
        ensures err { OnErr result (state.new ≡ state.old) };

    /// Takes the step back: the state is as it was before it. Takes no memory.
    fn take_back(&self, state: &mut W)
        requires { (before : W) × makes self.now before state.old }
        ensures { (before : W) → makes self.now before state.old → state.new ≡ before };
}

/// Takes the steps, one after the other. After want of memory the state is as before: they are taken by halves, and the first half is taken
/// back where the second fails.
pub fn take_all<W, S: Step<W>>(alloc: Global, state: &mut W, steps: &[S]) -> Result<(), AllocError>
    requires { Fit S.fits S.makes steps.now state.old }
    ensures ok { OnOk result (AreTaken S.makes steps.now state.old state.new) }
    ensures err { OnErr result (state.new ≡ state.old) }
{
    match steps {
        [] => Ok(()),
        [step] => step.take(alloc, state),
        _ => {
            let (low, high) = steps.split_at(steps.len() / 2);
            take_all(alloc, state, low)?;
            match take_all(alloc, state, high) {
                Ok(()) => Ok(()),
                Err(e) => {
                    take_all_back(state, low);
                    Err(e)
                }
            }
        }
    }
}

/// Takes the steps back, the last first: the state is as it was before them. Takes no memory.
pub fn take_all_back<W, S: Step<W>>(state: &mut W, steps: &[S])
    requires { (before : W) × AreTaken S.makes steps.now before state.old }
    ensures { (before : W) → AreTaken S.makes steps.now before state.old → state.new ≡ before }
{
    match steps {
        [] => {}
        [step] => step.take_back(state),
        _ => {
            let (low, high) = steps.split_at(steps.len() / 2);
            take_all_back(state, high);
            take_all_back(state, low);
        }
    }
}
