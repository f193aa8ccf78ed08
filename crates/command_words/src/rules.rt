//! RULEs: ports of the host that are given to a guest.
ghost use Rattle.std.specs.Prelude.{◌≡◌, ◌↔◌, ℕ, ◌∷◌, ◌++◌, List, [], IfOk, IsTrue, MatchBool, OnErr, OnOk, codes, map, take};
ghost use Rattle.slirp_settings.specs.declared.Forward.{Forward as AForward};
ghost use Rattle.slirp_settings.specs.declared.Proto.{Proto as AProto};
ghost use Rattle.net_octets.specs.declared.Endpoint.{Endpoint as AnEndpoint};
ghost use Rattle.command_words.specs.Narrowing.{held_forwards};
ghost use Rattle.address_text.specs.Rules.{AreForwards, IsAddressOr, IsForward, IsPortAt, IsRule, IsRuleWord, IsType};

use crate::guests::{is_guest_rule, is_guest_word};
use address_text::{NoReading, read_address, read_short, split_at};
use arrayvec::ArrayVec;
use net_octets::{Endpoint, Ip4};
use slirp_settings::{Forward, Proto};

/// How many forwards the settings have room for.
const ROOM: usize = 32;

pub(crate) const NO_PORT: Endpoint = Endpoint {
    addr: Ip4(0),
    port: 0,
};

/// Puts what the rules give. Of more than 32 forwards none is put: in their place stands one of port 0, for which their field is refused.
pub(crate) fn put_forwards(
    rules: &[&str],
    dhcp_start: Ip4,
    forwards: &mut ArrayVec<Forward, ROOM>,
) -> Result<(), NoReading>
    requires { forwards.old.items ≡ [] }
    ensures put { OnOk result ((all : List AForward) × AreForwards (map (λ rule. rule.now) rules.now) dhcp_start.0 all
        × (forwards.new.items ≡ held_forwards all)) }
    ensures refused { OnErr result ((all : List AForward) → ¬ AreForwards (map (λ rule. rule.now) rules.now) dhcp_start.0 all) }
{
    read_rules(rules, dhcp_start, forwards)?;
    if rules.len() > ROOM {
        forwards.clear();
        forwards.push(Forward {
            proto: Proto::Tcp,
            host: NO_PORT,
            guest: NO_PORT,
        });
    }
    Ok(())
}

// Reads the rules, and puts the first 32 of their forwards.
fn read_rules(
    rules: &[&str],
    dhcp_start: Ip4,
    forwards: &mut ArrayVec<Forward, ROOM>,
) -> Result<(), NoReading>
    requires { forwards.old.items ≡ [] }
    ensures read { OnOk result ((all : List AForward) × AreForwards (map (λ rule. rule.now) rules.now) dhcp_start.0 all × (forwards.new.items ≡ take 32 all)) }
    ensures refused { OnErr result ((all : List AForward) → ¬ AreForwards (map (λ rule. rule.now) rules.now) dhcp_start.0 all) }
{
    for rule in rules {
        let forward = read_rule(rule.as_bytes(), dhcp_start)?;
        put_one(forward, forwards);
    }
    Ok(())
}

// Puts a forward where there is room.
fn put_one(forward: Forward, forwards: &mut ArrayVec<Forward, ROOM>)
    ensures { (all : List AForward) → forwards.old.items ≡ take 32 all → forwards.new.items ≡ take 32 (all ++ forward ∷ []) }
{
    if !forwards.is_full() {
        forwards.push(forward);
    }
}

/// Whether a word is a RULE of one kind or the other.
pub(crate) fn is_rule(word: &str) -> bool
    ensures { MatchBool result (IsRuleWord word.now) (¬ IsRuleWord word.now) }
{
    if is_guest_word(word) {
        is_guest_rule(word)
    } else {
        is_host_rule(word)
    }
}

fn is_host_rule(word: &str) -> bool
    ensures { MatchBool result ((forward : AForward) × IsRule word.now 0 forward) (¬ ((forward : AForward) × IsRule word.now 0 forward)) }
{
    match read_rule(word.as_bytes(), Ip4(0)) {
        Ok(_) => true,
        Err(_) => false,
    }
}

/// A RULE for a port of the host, with `hostfwd=` in front or without. Without an address of a guest it leads to the first that is leased.
///
/// # Errors
/// `NoReading` where the octets aren't one; a RULE of guests (`guestfwd=`) is none.
pub fn read_rule(text: &[u8], dhcp_start: Ip4) -> Result<Forward, NoReading>
    ensures rule { IfOk result (λ f. IsRule text.now dhcp_start.0 f) }
    ensures refused { OnErr result ((f : AForward) → ¬ IsRule text.now dhcp_start.0 f) }
{
    match text.strip_prefix(b"hostfwd=") {
        Some(behind) => read_forward(behind, dhcp_start),
        None => read_forward(text, dhcp_start),
    }
}

fn read_forward(text: &[u8], dhcp_start: Ip4) -> Result<Forward, NoReading>
    ensures forward { IfOk result (λ f. IsForward text.now dhcp_start.0 f) }
    ensures refused { OnErr result ((f : AForward) → ¬ IsForward text.now dhcp_start.0 f) }
{
    let (kind, behind) = split_at(text, b':')?;
    let proto = read_type(kind)?;
    let (outside, inside) = split_at(behind, b'-')?;
    Ok(Forward {
        proto,
        host: read_port_at(outside, Ip4(0))?,
        guest: read_port_at(inside, dhcp_start)?,
    })
}

fn read_type(text: &[u8]) -> Result<Proto, NoReading>
    ensures proto { IfOk result (λ proto. IsType text.now proto) }
    ensures refused { OnErr result ((proto : AProto) → ¬ IsType text.now proto) }
{
    if text.is_empty() {
        return Ok(Proto::Tcp);
    }
    if is_tcp(text) {
        return Ok(Proto::Tcp);
    }
    if is_udp(text) {
        return Ok(Proto::Udp);
    }
    Err(NoReading)
}

pub(crate) fn is_tcp(text: &[u8]) -> bool
    ensures { IsTrue result ↔ (text.now ≡ codes "tcp") }
{
    matches!(text, b"tcp")
}

fn is_udp(text: &[u8]) -> bool
    ensures { IsTrue result ↔ (text.now ≡ codes "udp") }
{
    matches!(text, b"udp")
}

// A port at an address that may be left out, and is the usual one then.
fn read_port_at(text: &[u8], usual: Ip4) -> Result<Endpoint, NoReading>
    ensures port { IfOk result (λ at. IsPortAt usual.0 text.now at) }
    ensures refused { OnErr result ((at : AnEndpoint) → ¬ IsPortAt usual.0 text.now at) }
{
    let (address, port) = split_at(text, b':')?;
    Ok(Endpoint {
        addr: read_address_or(address, usual)?,
        port: read_short(port)?,
    })
}

fn read_address_or(text: &[u8], usual: Ip4) -> Result<Ip4, NoReading>
    ensures address { IfOk result (λ a. IsAddressOr usual.0 text.now a.0) }
    ensures refused { OnErr result ((a : ℕ) → ¬ IsAddressOr usual.0 text.now a) }
{
    if text.is_empty() {
        return Ok(usual);
    }
    read_address(text)
}
