// Where each shared word lies. The numbers stand here and in specs/Layout.antt, and nowhere else.
ghost use Rattle.std.specs.Prelude.{◌*◌, ◌+◌, ◌≡◌};
ghost use Rattle.fib_core_lawful.specs.Layout as layout;

/// The word of the version.
#[inline(always)]
pub fn version_word() -> usize
    ensures { result ≡ layout.version_word }
{
    0
}

/// The pass word of that worker. Each has a cache line of its own, as have the version and the claim word.
#[inline(always)]
pub fn pass_word(worker: u32) -> usize
    ensures { result ≡ layout.pass_word worker }
{
    8 + 8 * worker as usize
}

/// The word that counts the claims.
#[inline(always)]
pub fn claim_word() -> usize
    ensures { result ≡ layout.claim_word }
{
    72
}

/// The word of that cell, of a slot below 16 of an object.
#[inline(always)]
pub fn cell_word(object: u32, slot: u32) -> usize
    ensures { result ≡ layout.cell_word (16 * object + slot) }
{
    80 + (16 * object as usize + slot as usize)
}

/// How many words there are where there are so many objects.
#[inline(always)]
pub fn words_for(objects: u32) -> usize
    ensures { result ≡ layout.words_for objects }
{
    cell_word(objects, 0)
}
