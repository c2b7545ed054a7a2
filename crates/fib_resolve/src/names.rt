// The name of an interface.
ghost use Rattle.std.specs.Prelude.{◌≡◌, true, IfOk, IsTrue, bytes_eq, slice_index};
ghost use Rattle.std.specs.List.{list_all};
ghost use Rattle.fib_resolve.specs.Names.{is_letter, is_name_byte, is_reserved, is_name};

use fib_base_list::{Duplicate, List};
use std::alloc::{AllocError, Global};
use std::marker::Model;

/// The name of an interface. Contracts see its bytes.
///
/// A name has 1 to 31 characters: letters, digits, `/`, `.`, `-`, `_` and `:`, of which the first is a letter; the words of the
/// paths' grammar (`drop`, `via`, ..) are no names. Names are compared byte by byte, and case matters.
#[derive(Drop)]
pub struct Name {
    text: List<u8>,
}

impl Model for Name {
    ghost use Rattle.std.specs.Prelude.{List as Items, ℕ, ◌≡◌, true};
    ghost use Rattle.fib_resolve.specs.Names.{is_name};

    ghost Value = { Items ℕ };

    ghost view = { λ s. s.text };

    ghost invariant = { λ s. is_name s.text ≡ true };
}

impl Name {
    /// Whether the text is a name: the test that `from_text` asks for.
    pub fn is_name(text: &[u8]) -> bool
        ensures { result ≡ is_name text.now }
    {
        starts_with_letter(text) && text.len() <= 31 && all_name_bytes(text) && !is_reserved(text)
    }

    /// The name with that text. Takes no memory.
    pub fn from_text(text: List<u8>) -> Name
        requires { is_name text ≡ true }
        ensures { result ≡ text }
    {
        Name { text }
    }

    /// The name's bytes, in order.
    pub fn as_bytes(&self) -> &[u8]
        ensures value { result.now ≡ self.now }
        ensures name { is_name self.now ≡ true }
    {
        self.text.as_slice()
    }

    /// The name's text as a list.
    pub fn text(&self) -> &List<u8>
        ensures { result.now ≡ self.now }
    {
        &self.text
    }

    /// Whether both are the same name, byte by byte.
    pub fn is(&self, other: &Name) -> bool
        ensures { result ≡ bytes_eq self.now other.now }
    {
        self.text.as_slice() == other.text.as_slice()
    }
}

impl Duplicate for Name {
    fn duplicate(&self, alloc: Global) -> Result<Name, AllocError> {
        let text = self.text.duplicate(alloc)?;
        Ok(Name { text })
    }
}

fn is_letter(b: u8) -> bool
    ensures { result ≡ is_letter b }
{
    b.is_ascii_uppercase() || b.is_ascii_lowercase()
}

fn is_name_byte(b: u8) -> bool
    ensures { result ≡ is_name_byte b }
{
    // From a dash to a colon stand the dash, the dot, the slash, the digits and the colon.
    is_letter(b) || (b'-' <= b && b <= b':') || b == b'_'
}

/// Whether a word begins as a name does; an address begins with a digit.
pub fn starts_with_letter(text: &[u8]) -> bool
    ensures { result ≡ is_letter (slice_index text.now 0) }
{
    match text {
        [b, ..] => is_letter(*b),
        [] => false,
    }
}

fn is_reserved(text: &[u8]) -> bool
    ensures { result ≡ is_reserved text.now }
{
    text == b"drop".as_slice()
        || text == b"local".as_slice()
        || text == b"via".as_slice()
        || text == b"weight".as_slice()
        || text == b"preference".as_slice()
        || text == b"del".as_slice()
        || text == b"resolve-via-host".as_slice()
        || text == b"resolve-via-attached".as_slice()
}

fn all_name_bytes(text: &[u8]) -> bool
    ensures { result ≡ list_all is_name_byte text.now }
{
    text.iter().all(|b| is_name_byte(*b))
}
