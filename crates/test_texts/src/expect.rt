// Assertions as calls: past an assertion in a test itself, the prover would follow the way out once more for all that the test owns.
ghost use Rattle.std.specs.Prelude.{◌≡◌, true, IsTrue};

use std::fmt::Debug;
use std::process::Abort;

/// Ends the test where the two differ, and prints both.
pub fn same<T: Copy + Debug + PartialEq>(rt: &impl Abort, got: T, wanted: T)
    ensures { T.eq got wanted ≡ true }
{
    assert_eq!(rt; got, wanted);
}

/// Ends the test where this doesn't hold.
pub fn holds(rt: &impl Abort, fact: bool)
    ensures { IsTrue fact }
{
    assert!(rt; fact);
}
