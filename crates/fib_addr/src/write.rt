// Values to texts.
ghost use Rattle.std.specs.Prelude.{◌≡◌, ◌++◌, ◌∷◌, [], OnOk, OnErr, IfOk, ◌<◌, ◌/◌, ◌%◌, ℕ};
ghost use Rattle.fib_addr.specs.Texts.{address_text, prefix_text, mac_text, three_text, hex_digit};

use crate::{Addr, Mac, Prefix};
use std::alloc::{AllocError, Global};

/// Appends the text of an address: four decimal numbers without leading zeros, joined by dots. Unchanged on want of memory.
#[tactic(auto, unfolding(crate::specs::Texts::address_text))]
pub fn put_addr(out: &mut Vec<u8>, addr: Addr) -> Result<(), AllocError>
    ensures ok { OnOk result (out.new.items ≡ out.old.items ++ address_text addr) }
    ensures err { OnErr result (out.new.items ≡ out.old.items) }
{
    let [a, b, c, d] = addr.0.to_be_bytes();
    let text = format!(in *out.allocator(); "{a}.{b}.{c}.{d}")?;
    out.extend_from_slice(text.as_bytes())
}

/// Appends the text of a prefix: its address, a slash and its length. Unchanged on want of memory.
#[tactic(auto, unfolding(crate::specs::Texts::prefix_text))]
pub fn put_prefix(out: &mut Vec<u8>, prefix: Prefix) -> Result<(), AllocError>
    ensures ok { OnOk result (out.new.items ≡ out.old.items ++ prefix_text prefix) }
    ensures err { OnErr result (out.new.items ≡ out.old.items) }
{
    let mut text = Vec::new(*out.allocator());
    put_addr(&mut text, prefix.bits())?;
    let len = prefix.len();
    let rest = format!(in *out.allocator(); "/{len}")?;
    text.extend_from_slice(rest.as_bytes())?;
    out.extend_from_slice(&text)
}

/// A digit in lower case.
fn hex_digit(n: u8) -> u8
    requires { n < 16 }
    ensures { result ≡ hex_digit n }
{
    if n < 10 { b'0' + n } else { b'a' + (n - 10) }
}

/// The first of the two digits of a number's lowest byte.
fn high_digit(number: u64) -> u8
    ensures { result ≡ hex_digit (number / 16 % 16) }
{
    hex_digit((number / 16 % 16) as u8)
}

/// The second of them.
fn low_digit(number: u64) -> u8
    ensures { result ≡ hex_digit (number % 16) }
{
    hex_digit((number % 16) as u8)
}

/// Three pairs of digits, joined by colons.
#[tactic(auto, unfolding(crate::specs::Texts::three_text))]
fn three_pairs(a: u64, b: u64, c: u64) -> [u8; 8]
    ensures { result ≡ three_text a b c }
{
    [
        high_digit(a),
        low_digit(a),
        b':',
        high_digit(b),
        low_digit(b),
        b':',
        high_digit(c),
        low_digit(c),
    ]
}

/// Both halves, joined by a colon.
fn six_pairs(alloc: Global, high: &[u8], low: &[u8]) -> Result<Vec<u8>, AllocError>
    ensures { IfOk result (λ v. v.items ≡ high.now ++ 58 ∷ low.now) }
{
    let mut text = Vec::new(alloc);
    text.extend_from_slice(high)?;
    text.push(b':')?;
    text.extend_from_slice(low)?;
    Ok(text)
}

/// Appends the text of a MAC: six pairs of hexadecimal digits in lower case, joined by colons. Unchanged on want of memory.
#[tactic(auto, unfolding(crate::specs::Texts::mac_text))]
pub fn put_mac(out: &mut Vec<u8>, mac: Mac) -> Result<(), AllocError>
    ensures ok { OnOk result (out.new.items ≡ out.old.items ++ mac_text mac) }
    ensures err { OnErr result (out.new.items ≡ out.old.items) }
{
    let m = mac.bits();
    let high = three_pairs(m / (1 << 40), m / (1 << 32), m / (1 << 24));
    let low = three_pairs(m / (1 << 16), m / (1 << 8), m);
    let text = six_pairs(*out.allocator(), &high, &low)?;
    out.extend_from_slice(&text)
}
