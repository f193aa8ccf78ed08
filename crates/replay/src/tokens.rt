// The parts of a line, as octets.
ghost use Rattle.std.specs.Prelude.{◌≡◌, ◌≢◌, ◌++◌, ◌∷◌, [], ℕ, List, Bool, true, Option, IfOk, OnOk, OnErr, Err, decimal, find, length, option_copied, ◌<◌};
ghost use Rattle.std.specs.Prelude.{◌||◌};
ghost use Rattle.std.specs.List.{list_all};
ghost use Rattle.replay.specs.declared.tokens.Unread.TheVariants.{NoReading, NoMemory};
ghost use Rattle.replay.specs.declared.CallName.{CallName as AName};
ghost use Rattle.hex.specs.Hex.{decode_of};
ghost use Rattle.replay.specs.Names.{is_named, name_text};
ghost use Rattle.hex.specs.declared.error.FromHexError.TheVariants.{OutOfMemory};
ghost use Rattle.net_octets.specs.declared.Endpoint.{Endpoint as AnEndpoint};
ghost use Rattle.poll_list.specs.declared.Who.{Who as AWho};
ghost use Rattle.poll_list.specs.declared.Want.{Want as AWant};
ghost use Rattle.poll_list.specs.Listing.{is_who, are_wants};
ghost use Rattle.world_face.specs.Journal.{AreOctets, IsEndpoint, IsNumber, IsTimeout};
ghost use Rattle.address_text.specs.Texts.{is_other, endpoint_text};
ghost use Rattle.replay.specs.Encoding.{is_lower};
ghost use Rattle.replay.specs.Text.{hexadecimal, who_text, want_text, joined_text, wants_text, timeout_text, direction_text};

use crate::CallName;
use crate::allowing::same;
use hex::FromHexError;
use std::alloc::Global;
use world_face::{Endpoint, Want, Who};

// The names of all calls.
const NAMES: [CallName; 18] = [
    CallName::Now,
    CallName::Wait,
    CallName::LinkOpen,
    CallName::LinkRead,
    CallName::LinkWrite,
    CallName::Connect,
    CallName::Connected,
    CallName::Listen,
    CallName::Accept,
    CallName::TcpRead,
    CallName::TcpWrite,
    CallName::TcpEnd,
    CallName::Close,
    CallName::UdpOpen,
    CallName::UdpSend,
    CallName::UdpRecv,
    CallName::FileLen,
    CallName::FileRead,
];

/// Why a line wasn't read.
#[derive(Clone, Copy)]
pub enum Unread {
    /// The text isn't written as such a part or line is.
    NoReading,
    /// There was no memory for what it holds.
    NoMemory,
}

/// What stands before the first such octet, and what after it. NoReading where there is none.
pub fn split_at(text: &[u8], octet: u8) -> Result<(&[u8], &[u8]), Unread>
    ensures parts { IfOk result (λ parts. text.now ≡ parts.0.now ++ octet ∷ parts.1.now) }
    ensures first { IfOk result (λ parts. list_all (is_other octet) parts.0.now ≡ true) }
    ensures refused { OnErr result (list_all (is_other octet) text.now ≡ true) }
{
    match address_text::split_at(text, octet) {
        Ok(parts) => Ok(parts),
        Err(_) => Err(Unread::NoReading),
    }
}

/// Reads a number below 2^64 in decimal digits, the first of them no needless zero. NoReading where the text is none.
pub fn read_number(text: &[u8]) -> Result<u64, Unread>
    ensures number { IfOk result (λ n. text.now ≡ decimal n) }
    ensures range { IfOk result (λ n. IsNumber n) }
    ensures refused { OnErr result ((n : ℕ) → IsNumber n → text.now ≢ decimal n) }
{
    match address_text::read_number(text) {
        Ok(n) => Ok(n),
        Err(_) => Err(Unread::NoReading),
    }
}

/// Reads an endpoint of IPv4, as `10.0.2.2:80`: four parts and a port. NoReading where the text is none.
pub fn read_endpoint(text: &[u8]) -> Result<Endpoint, Unread>
    ensures endpoint { IfOk result (λ at. text.now ≡ endpoint_text at) }
    ensures range { IfOk result (λ at. IsEndpoint at) }
    ensures refused { OnErr result ((at : AnEndpoint) → IsEndpoint at → text.now ≢ endpoint_text at) }
{
    match address_text::read_endpoint(text) {
        Ok(at) => Ok(at),
        Err(_) => Err(Unread::NoReading),
    }
}

/// Reads octets in lower case hexadecimal, or a dash for none. NoReading where the text is neither, NoMemory where there is no room for them.
pub fn read_octets(alloc: Global, text: &[u8]) -> Result<Vec<u8>, Unread>
    ensures octets { IfOk result (λ octets. text.now ≡ hexadecimal octets.items) }
    ensures range { IfOk result (λ octets. AreOctets octets.items) }
    ensures refused { result ≡ Err NoReading → (octets : List ℕ) → AreOctets octets → text.now ≢ hexadecimal octets }
{
    if same(text, b"-") {
        return Ok(Vec::new(alloc));
    }
    if text.is_empty() {
        return Err(Unread::NoReading);
    }
    if !is_lower_case(text) {
        return Err(Unread::NoReading);
    }
    let octets = decode(alloc, text)?;
    Ok(octets)
}

fn decode(alloc: Global, text: &[u8]) -> Result<Vec<u8>, Unread>
    ensures octets { IfOk result (λ octets. decode_of text.now ≡ Ok octets.items) }
    ensures refused { result ≡ Err NoReading → (octets : List ℕ) → decode_of text.now ≢ Ok octets }
{
    hex::decode(alloc, text).map_err(unread_of)
}

// No capital letter from A to F stands in it.
fn is_lower_case(text: &[u8]) -> bool
    ensures { result ≡ list_all is_lower text.now }
{
    text.iter().all(|x| *x < b'A' || *x > b'F')
}

fn unread_of(fault: FromHexError) -> Unread
    ensures memory { fault ≡ OutOfMemory → result ≢ NoReading }
    ensures reading { fault ≢ OutOfMemory → result ≡ NoReading }
{
    match fault {
        FromHexError::OutOfMemory => Unread::NoMemory,
        _ => Unread::NoReading,
    }
}

fn read_who(text: &[u8]) -> Result<Who, Unread>
    ensures who { IfOk result (λ who. text.now ≡ who_text who) }
    ensures range { IfOk result (λ who. is_who who ≡ true) }
    ensures refused { OnErr result ((who : AWho) → is_who who ≡ true → text.now ≢ who_text who) }
{
    if same(text, b"link") {
        return Ok(Who::Link);
    }
    match text {
        [b'l', number @ ..] => Ok(Who::Listener(read_number(number)?)),
        [b'u', number @ ..] => Ok(Who::Udp(read_number(number)?)),
        [b't', number @ ..] => Ok(Who::Tcp(read_number(number)?)),
        _ => Err(Unread::NoReading),
    }
}

fn read_direction(text: &[u8]) -> Result<(bool, bool), Unread>
    ensures direction { IfOk result (λ d. text.now ≡ direction_text d.0 d.1) }
    ensures some { IfOk result (λ d. (d.0 || d.1) ≡ true) }
    ensures refused { OnErr result ((read write : Bool) → (read || write) ≡ true → text.now ≢ direction_text read write) }
{
    match text {
        b"r" => Ok((true, false)),
        b"w" => Ok((false, true)),
        b"rw" => Ok((true, true)),
        _ => Err(Unread::NoReading),
    }
}

fn read_want(text: &[u8]) -> Result<Want, Unread>
    ensures want { IfOk result (λ want. text.now ≡ want_text want) }
    ensures range { IfOk result (λ want. are_wants (want ∷ []) ≡ true) }
    ensures refused { OnErr result ((want : AWant) → are_wants (want ∷ []) ≡ true → text.now ≢ want_text want) }
{
    let (who, direction) = split_at(text, b':')?;
    let of = read_who(who)?;
    let (read, write) = read_direction(direction)?;
    Ok(Want { of, read, write })
}

/// Reads items that are joined by commas, at least one, each with a direction. NoReading where the text is no such list, NoMemory where there is no
/// room for them.
pub fn read_items(alloc: Global, text: &[u8]) -> Result<Vec<Want>, Unread>
    ensures items { IfOk result (λ items. text.now ≡ joined_text items.items) }
    ensures some { IfOk result (λ items. 0 < length items.items) }
    ensures range { IfOk result (λ items. are_wants items.items ≡ true) }
    ensures refused { result ≡ Err NoReading → (want : AWant) (more : List AWant) → are_wants (want ∷ more) ≡ true → text.now ≢ joined_text (want ∷ more) }
{
    let mut items = Vec::new(alloc);
    let mut rest = text;
    while let Ok((item, after)) = split_at(rest, b',') {
        let want = read_want(item)?;
        push(&mut items, want)?;
        rest = after;
    }
    let want = read_want(rest)?;
    push(&mut items, want)?;
    Ok(items)
}

fn push(items: &mut Vec<Want>, want: Want) -> Result<(), Unread>
    ensures items { OnOk result (items.new.items ≡ items.old.items ++ want ∷ []) }
    ensures memory { OnErr result (result ≡ Err NoMemory) }
{
    match items.push(want) {
        Ok(()) => Ok(()),
        Err(_) => Err(Unread::NoMemory),
    }
}

/// Reads items that are joined by commas, or a dash for none. NoReading where the text is neither, NoMemory where there is no room for them.
pub fn read_wants(alloc: Global, text: &[u8]) -> Result<Vec<Want>, Unread>
    ensures wants { IfOk result (λ wants. text.now ≡ wants_text wants.items) }
    ensures range { IfOk result (λ wants. are_wants wants.items ≡ true) }
    ensures refused { result ≡ Err NoReading → (wants : List AWant) → are_wants wants ≡ true → text.now ≢ wants_text wants }
{
    if same(text, b"-") {
        return Ok(Vec::new(alloc));
    }
    let wants = read_items(alloc, text)?;
    Ok(wants)
}

/// Reads the timeout of a wait: its milliseconds, or a dash where it has none. NoReading where the text is neither.
pub fn read_timeout(text: &[u8]) -> Result<Option<u64>, Unread>
    ensures timeout { IfOk result (λ timeout. text.now ≡ timeout_text timeout) }
    ensures range { IfOk result (λ timeout. IsTimeout timeout) }
    ensures refused { OnErr result ((timeout : Option ℕ) → IsTimeout timeout → text.now ≢ timeout_text timeout) }
{
    if same(text, b"-") {
        return Ok(None);
    }
    Ok(Some(read_number(text)?))
}

/// Reads the name of a call, as `CallName::name` encodes it. NoReading where no call has that name.
pub fn read_name(text: &[u8]) -> Result<CallName, Unread>
    ensures name { IfOk result (λ name. text.now ≡ name_text name) }
    ensures refused { OnErr result ((name : AName) → text.now ≢ name_text name) }
{
    match find_name(&NAMES, text) {
        Some(name) => Ok(*name),
        None => Err(Unread::NoReading),
    }
}

// The first of some names that this text is.
fn find_name<'a>(names: &'a [CallName], text: &[u8]) -> Option<&'a CallName>
    ensures { option_copied result ≡ find (is_named text.now) names.now }
{
    names.iter().find(|name| is_named(text, name))
}

fn is_named(text: &[u8], name: &CallName) -> bool
    ensures { result ≡ is_named text.now name.now }
{
    text == name.name().as_bytes()
}
