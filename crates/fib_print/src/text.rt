// Parts of a text.
ghost use Rattle.std.specs.Prelude.{◌≡◌, ◌++◌, ◌∷◌, ◌<◌, IsOk, OnOk, OnErr, decimal, take};
ghost use Rattle.fib_addr.specs.Texts.{address_text, hex_digit, mac_text, pair_text, three_text};
ghost use Rattle.fib_print.specs.inner.Growing.{HasKept};

use fib_addr::{Addr, Mac};
use itoa::Buffer;
use std::alloc::AllocError;

/// Appends a number in decimal, without leading zeros. Unchanged on want of memory.
pub fn put_number(out: &mut Vec<u8>, number: u64) -> Result<(), AllocError>
    ensures ok { OnOk result (out.new.items ≡ out.old.items ++ decimal number) }
    ensures err { OnErr result (out.new.items ≡ out.old.items) }
{
    let mut buffer = Buffer::new();
    out.extend_from_slice(buffer.format(number).as_bytes())
}

/// Appends a text. Unchanged on want of memory.
pub fn put_text(out: &mut Vec<u8>, text: &str) -> Result<(), AllocError>
    ensures ok { OnOk result (out.new.items ≡ out.old.items ++ text.now) }
    ensures err { OnErr result (out.new.items ≡ out.old.items) }
{
    out.extend_from_slice(text.as_bytes())
}

/// Takes back what was appended behind that length, where memory was wanting.
pub fn or_undone(
    out: &mut Vec<u8>,
    before: usize,
    written: Result<(), AllocError>,
) -> Result<(), AllocError>
    ensures same { result ≡ written }
    ensures ok { OnOk result (out.new.items ≡ out.old.items) }
    ensures err { OnErr result (out.new.items ≡ take before out.old.items) }
{
    match written {
        Ok(()) => Ok(()),
        Err(e) => {
            out.truncate(before);
            Err(e)
        }
    }
}

// Four numbers, joined by dots.
#[tactic(auto, using(crate::proofs::Growing::kept_on, crate::proofs::Growing::kept_one, crate::proofs::Growing::kept_all))]
fn write_four(out: &mut Vec<u8>, a: u8, b: u8, c: u8, d: u8) -> Result<(), AllocError>
    ensures ok { OnOk result (out.new.items ≡ out.old.items ++ (decimal a ++ 46 ∷ (decimal b ++ 46 ∷ (decimal c ++ 46 ∷ decimal d)))) }
    ensures err { OnErr result (HasKept out.old.items out.new.items) }
{
    put_number(out, u64::from(a))?;
    put_text(out, ".")?;
    put_number(out, u64::from(b))?;
    put_text(out, ".")?;
    put_number(out, u64::from(c))?;
    put_text(out, ".")?;
    put_number(out, u64::from(d))
}

/// Appends the text of an address; on want of memory, a first part of it.
#[tactic(auto, unfolding(fib_addr::specs::Texts::address_text), using(crate::proofs::Growing::kept_on, crate::proofs::Growing::kept_one, crate::proofs::Growing::kept_all))]
pub fn write_addr(out: &mut Vec<u8>, addr: Addr) -> Result<(), AllocError>
    ensures ok { OnOk result (out.new.items ≡ out.old.items ++ address_text addr) }
    ensures err { OnErr result (HasKept out.old.items out.new.items) }
{
    let [a, b, c, d] = addr.0.to_be_bytes();
    write_four(out, a, b, c, d)
}

// A hexadecimal digit in lower case.
fn digit(number: u8) -> u8
    requires { number < 16 }
    ensures { result ≡ hex_digit number }
{
    if number < 10 {
        b'0' + number
    } else {
        b'a' + (number - 10)
    }
}

// The two digits of a number's lowest byte.
fn pair(number: u64) -> [u8; 2]
    ensures { result ≡ pair_text number }
{
    [digit((number / 16 % 16) as u8), digit((number % 16) as u8)]
}

// Three pairs of digits, joined by colons.
#[tactic(auto, unfolding(fib_addr::specs::Texts::three_text), using(crate::proofs::Growing::kept_on, crate::proofs::Growing::kept_one, crate::proofs::Growing::kept_all))]
fn write_three(out: &mut Vec<u8>, a: u64, b: u64, c: u64) -> Result<(), AllocError>
    ensures ok { OnOk result (out.new.items ≡ out.old.items ++ three_text a b c) }
    ensures err { OnErr result (HasKept out.old.items out.new.items) }
{
    out.extend_from_slice(&pair(a))?;
    put_text(out, ":")?;
    out.extend_from_slice(&pair(b))?;
    put_text(out, ":")?;
    out.extend_from_slice(&pair(c))
}

/// Appends the text of a MAC; on want of memory, a first part of it.
#[tactic(auto, unfolding(fib_addr::specs::Texts::mac_text), using(crate::proofs::Growing::kept_on, crate::proofs::Growing::kept_one, crate::proofs::Growing::kept_all))]
pub fn write_mac(out: &mut Vec<u8>, mac: Mac) -> Result<(), AllocError>
    ensures ok { OnOk result (out.new.items ≡ out.old.items ++ mac_text mac) }
    ensures err { OnErr result (HasKept out.old.items out.new.items) }
{
    let m = mac.bits();
    write_three(out, m / (1 << 40), m / (1 << 32), m / (1 << 24))?;
    put_text(out, ":")?;
    write_three(out, m / (1 << 16), m / (1 << 8), m)
}
