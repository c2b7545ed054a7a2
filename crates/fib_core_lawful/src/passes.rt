// How many passes a worker has left.
ghost use Rattle.std.specs.Prelude.{◌≡◌};
ghost use Rattle.fib_core_lawful.specs.State.{left_of};

/// How many passes a worker has left whose pass word is that: at first 2^63 - 1, and one less with each pass, since the word grows by one as a
/// pass starts and as it stops.
pub fn passes_left(pass: u64) -> u64
    ensures { result ≡ left_of pass }
{
    0x7fff_ffff_ffff_ffff - pass / 2
}
