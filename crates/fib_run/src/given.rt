// The words that a program is given.
ghost use Rattle.std.specs.Prelude.{◌∷◌, [], Contains, IfErr};

use std::alloc::Global;
use std::env;
use std::rt::Env;

/// The status where the words cannot be had.
const USAGE: u8 = 1;

/// The status where memory is wanted.
const MEMORY: u8 = 6;

/// The words after the program's name; or the status to end with: 1 where the system cannot give them, which counts as a faulty command line, and 6
/// where memory is wanted.
pub fn given_words<R: Env + Alloc<A = Global>>(rt: &R) -> Result<Vec<String>, u8>
    ensures { IfErr result (λ status. Contains (1 ∷ 6 ∷ []) status) }
{
    let Ok(all) = env::args(rt) else {
        return Err(USAGE);
    };
    let mut words = Vec::new(rt.alloc());
    for word in all.skip(1) {
        if words.push(word).is_err() {
            return Err(MEMORY);
        }
    }
    Ok(words)
}
