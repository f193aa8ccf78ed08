//! Numbers, addresses and endpoints as they are written, on a command line and in a trace of calls: each has one text, and a reader refuses a text exactly where it is
//! none.
//!
//! Proved: a number of 64 bits (`read_number`) or of 16 (`read_short`), an address (`read_address`) and an endpoint (`read_endpoint`) are read exactly from a text that
//! is theirs: what was read has that text (`number`, `address`, `endpoint`), and a text that is refused is none's (`refused`). Each has one text (`same_address`,
//! `same_endpoint`, lemmas). `split_at` parts a text at the first octet of a kind, and refuses it exactly where there is none (`parts`, `first`, `refused`).
//! `endpoint_string` is an endpoint's text.
#![tactic(auto)]

ghost use Rattle.std.specs.Prelude.{◌≡◌, ◌==◌, ◌++◌, ◌∷◌, ◌&&◌, ◌<◌, ℕ, true, IfOk, IfSome, IfNone, OnErr, length, nat_lt, position, slice_index};
ghost use Rattle.std.specs.List.{list_all};
ghost use Rattle.std.specs.Str.{IsUtf8};
ghost use Rattle.net_octets.specs.declared.Endpoint.{Endpoint as AnEndpoint};
ghost use Rattle.address_text.specs.Texts.{IsNumber, IsAddress, IsEndpointText, is_other, IsReadAs};

mod writing;

use net_octets::{Endpoint, Ip4};
pub use writing::endpoint_string;

/// A text has no reading.
#[derive(Clone, Copy)]
pub struct NoReading;

fn place_of(text: &[u8], octet: u8) -> Option<usize>
    ensures { result ≡ position (λ x. x == octet) text.now }
{
    text.iter().position(|x| *x == octet)
}

/// What stands before the first such octet, and what after it.
pub fn split_at(text: &[u8], octet: u8) -> Result<(&[u8], &[u8]), NoReading>
    ensures parts { IfOk result (λ parts. text.now ≡ parts.0.now ++ octet ∷ parts.1.now) }
    ensures first { IfOk result (λ parts. list_all (is_other octet) parts.0.now ≡ true) }
    ensures refused { OnErr result (list_all (is_other octet) text.now ≡ true) }
{
    let Some(at) = place_of(text, octet) else {
        return Err(NoReading);
    };
    Ok((&text[..at], &text[at + 1..]))
}

/// A number of 64 bits in decimal digits, the first of them no needless zero.
pub fn read_number(text: &[u8]) -> Result<u64, NoReading>
    ensures number { IfOk result (λ n. IsNumber 64 text.now n) }
    ensures refused { OnErr result ((n : ℕ) → ¬ IsNumber 64 text.now n) }
{
    if text.is_empty() {
        return Err(NoReading);
    }
    if text[0] == b'+' {
        return Err(NoReading);
    }
    if has_needless_zero(text) {
        return Err(NoReading);
    }
    let Some(digits) = as_text(text) else {
        return Err(NoReading);
    };
    let Some(n) = parse(digits) else {
        return Err(NoReading);
    };
    Ok(n)
}

fn has_needless_zero(text: &[u8]) -> bool
    requires { 0 < length text.now }
    ensures { result ≡ (slice_index text.now 0 == 48 && nat_lt 1 (length text.now)) }
{
    text[0] == b'0' && text.len() > 1
}

fn as_text(text: &[u8]) -> Option<&str>
    ensures text { IfSome result (λ s. s.now ≡ text.now) }
    ensures none { IfNone result (¬ IsUtf8 text.now) }
{
    std::str::from_utf8(text).ok()
}

fn parse(text: &str) -> Option<u64>
    ensures { IsReadAs text.now result }
{
    text.parse::<u64>().ok()
}

/// A number of 16 bits.
pub fn read_short(text: &[u8]) -> Result<u16, NoReading>
    ensures number { IfOk result (λ n. IsNumber 16 text.now n) }
    ensures refused { OnErr result ((n : ℕ) → ¬ IsNumber 16 text.now n) }
{
    let n = read_number(text)?;
    if n > 65535 {
        return Err(NoReading);
    }
    Ok(n as u16)
}

// A number of 8 bits.
fn read_octet(text: &[u8]) -> Result<u32, NoReading>
    ensures number { IfOk result (λ n. IsNumber 8 text.now n) }
    ensures refused { OnErr result ((n : ℕ) → ¬ IsNumber 8 text.now n) }
{
    let n = read_number(text)?;
    if n > 255 {
        return Err(NoReading);
    }
    Ok(n as u32)
}

/// An address: four numbers, the most significant first.
pub fn read_address(text: &[u8]) -> Result<Ip4, NoReading>
    ensures address { IfOk result (λ a. IsAddress text.now a.0) }
    ensures refused { OnErr result ((a : ℕ) → ¬ IsAddress text.now a) }
{
    let (one, after_one) = split_at(text, b'.')?;
    let (two, after_two) = split_at(after_one, b'.')?;
    let (three, four) = split_at(after_two, b'.')?;
    let first = read_octet(one)?;
    let second = read_octet(two)?;
    let third = read_octet(three)?;
    let fourth = read_octet(four)?;
    Ok(Ip4(first * 0x100_0000 + second * 0x1_0000 + (third * 0x100 + fourth)))
}

/// An endpoint: an address and a port.
pub fn read_endpoint(text: &[u8]) -> Result<Endpoint, NoReading>
    ensures endpoint { IfOk result (λ at. IsEndpointText text.now at) }
    ensures refused { OnErr result ((at : AnEndpoint) → ¬ IsEndpointText text.now at) }
{
    let (address, last) = split_at(text, b':')?;
    let addr = read_address(address)?;
    let port = read_short(last)?;
    Ok(Endpoint { addr, port })
}
