// Texts to values. No reader takes memory. Each stands once over bytes, for a part of a line, and once over text.
ghost use Rattle.std.specs.Prelude.{◌≡◌, ◌≤◌, ◌<◌, ◌^◌, ◌==◌, IfOk, position};
ghost use Rattle.fib_addr.specs.Texts.{Reads, number_of, cut_at, octet_of, address_of, prefix_of, hex_of, pair_of, mac_of};

use crate::{Addr, Mac};

/// The text is not in the grammar, or its number is too great.
#[derive(Clone, Copy, Debug, PartialEq, Eq)]
pub struct BadText;

fn digits(text: &[u8], width: usize, greatest: u32) -> Result<u32, BadText>
    ensures value { Reads (λ n. n) result (number_of width greatest text.now) }
    ensures bound { IfOk result (λ n. n ≤ greatest) }
{
    if text.is_empty() || text.len() > width {
        return Err(BadText);
    }
    let mut value: u32 = 0;
    for b in text {
        if !b.is_ascii_digit() {
            return Err(BadText);
        }
        let next = u64::from(value) * 10 + u64::from(*b - b'0');
        if next > u64::from(greatest) {
            return Err(BadText);
        }
        value = next as u32;
    }
    Ok(value)
}

fn place(text: &[u8], mark: u8) -> Option<usize>
    ensures { result ≡ position (λ b. b == mark) text.now }
{
    text.iter().position(|b| *b == mark)
}

#[tactic(auto, unfolding(crate::specs::Texts::cut_at))]
fn cut(text: &[u8], mark: u8) -> Result<(&[u8], &[u8]), BadText>
    ensures { Reads (λ x. (x.0.now, x.1.now)) result (cut_at mark text.now) }
{
    let Some(at) = place(text, mark) else {
        return Err(BadText);
    };
    Ok((&text[..at], &text[at + 1..]))
}

fn octet(text: &[u8]) -> Result<u8, BadText>
    ensures { Reads (λ n. n) result (octet_of text.now) }
{
    Ok(digits(text, 3, 255)? as u8)
}

#[tactic(auto, unfolding(crate::specs::Texts::hex_of))]
fn hex(digit: u8) -> Result<u8, BadText>
    ensures value { Reads (λ n. n) result (hex_of digit) }
    ensures bound { IfOk result (λ n. n < 16) }
{
    match digit {
        b'0'..=b'9' => Ok(digit - b'0'),
        b'A'..=b'F' => Ok(digit - b'A' + 10),
        b'a'..=b'f' => Ok(digit - b'a' + 10),
        _ => Err(BadText),
    }
}

#[tactic(auto, unfolding(crate::specs::Texts::pair_of))]
fn pair(text: &[u8]) -> Result<u8, BadText>
    ensures { Reads (λ n. n) result (pair_of text.now) }
{
    match text {
        [high, low] => Ok(hex(*high)? * 16 + hex(*low)?),
        _ => Err(BadText),
    }
}

/// A number of 1 to 10 decimal digits, leading zeros allowed, of at most `most`.
pub fn number_in(text: &[u8], most: u32) -> Result<u32, BadText>
    ensures value { Reads (λ n. n) result (number_of 10 most text.now) }
    ensures bound { IfOk result (λ n. n ≤ most) }
{
    digits(text, 10, most)
}

/// Four numbers of 1 to 3 digits up to 255, joined by dots.
#[tactic(auto, unfolding(crate::specs::Texts::address_of))]
pub fn addr_in(text: &[u8]) -> Result<Addr, BadText>
    ensures { Reads (λ a. a) result (address_of text.now) }
{
    let (a, rest) = cut(text, b'.')?;
    let (b, rest) = cut(rest, b'.')?;
    let (c, d) = cut(rest, b'.')?;
    let bytes = [octet(a)?, octet(b)?, octet(c)?, octet(d)?];
    Ok(Addr(u32::from_be_bytes(bytes)))
}

/// An address as written, a slash and a length of 1 or 2 digits up to 32.
#[tactic(auto, unfolding(crate::specs::Texts::prefix_of))]
pub fn prefix_in(text: &[u8]) -> Result<(Addr, u8), BadText>
    ensures value { Reads (λ p. (p.0, p.1)) result (prefix_of text.now) }
    ensures short { IfOk result (λ p. p.1 ≤ 32) }
{
    let (addr, len) = cut(text, b'/')?;
    let addr = addr_in(addr)?;
    let len = digits(len, 2, 32)?;
    Ok((addr, len as u8))
}

/// Six pairs of hexadecimal digits of either case, joined by colons.
#[tactic(auto, unfolding(crate::specs::Texts::mac_of))]
pub fn mac_in(text: &[u8]) -> Result<Mac, BadText>
    ensures { Reads (λ m. m) result (mac_of text.now) }
{
    let (a, rest) = cut(text, b':')?;
    let (b, rest) = cut(rest, b':')?;
    let (c, rest) = cut(rest, b':')?;
    let (d, rest) = cut(rest, b':')?;
    let (e, f) = cut(rest, b':')?;
    let high = [pair(a)?, pair(b)?, pair(c)?];
    let low = [pair(d)?, pair(e)?, pair(f)?];
    Ok(Mac::of_bytes(high, low))
}

/// As `number_in`, over a text.
pub fn read_number(text: &str, most: u32) -> Result<u32, BadText>
    ensures value { Reads (λ n. n) result (number_of 10 most text.now) }
    ensures bound { IfOk result (λ n. n ≤ most) }
{
    number_in(text.as_bytes(), most)
}

/// As `addr_in`, over a text.
pub fn read_addr(text: &str) -> Result<Addr, BadText>
    ensures { Reads (λ a. a) result (address_of text.now) }
{
    addr_in(text.as_bytes())
}

/// As `prefix_in`, over a text.
pub fn read_prefix(text: &str) -> Result<(Addr, u8), BadText>
    ensures value { Reads (λ p. (p.0, p.1)) result (prefix_of text.now) }
    ensures short { IfOk result (λ p. p.1 ≤ 32) }
{
    prefix_in(text.as_bytes())
}

/// As `mac_in`, over a text.
pub fn read_mac(text: &str) -> Result<Mac, BadText>
    ensures { Reads (λ m. m) result (mac_of text.now) }
{
    mac_in(text.as_bytes())
}
