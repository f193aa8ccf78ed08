//! RULEs of guests: ports of the network that lead to a port which the host reaches.
ghost use Rattle.std.specs.Prelude.{◌≡◌, ◌++◌, ◌∷◌, List, [], IfOk, MatchBool, OnErr, OnOk, map, take};
ghost use Rattle.slirp_settings.specs.declared.GuestFwd.{GuestFwd as AGuestFwd};
ghost use Rattle.slirp_settings.specs.declared.Proto.TheVariants.{Tcp};
ghost use Rattle.command_words.specs.Narrowing.{held_guests};
ghost use Rattle.address_text.specs.Rules.{AreGuestForwards, IsGuestForward, IsGuestRule, IsType, is_guest_word};

use crate::rules::{NO_PORT, is_tcp};
use address_text::{NoReading, read_endpoint, split_at};
use arrayvec::ArrayVec;
use slirp_settings::GuestFwd;

/// How many the settings have room for.
const ROOM: usize = 16;

/// Puts what the rules give. Of more than 16 forwards none is put: in their place stands one of port 0, for which their field is refused.
pub(crate) fn put_guests(
    rules: &[&str],
    forwards: &mut ArrayVec<GuestFwd, ROOM>,
) -> Result<(), NoReading>
    requires { forwards.old.items ≡ [] }
    ensures put { OnOk result ((all : List AGuestFwd) × AreGuestForwards (map (λ rule. rule.now) rules.now) all × (forwards.new.items ≡ held_guests all)) }
    ensures refused { OnErr result ((all : List AGuestFwd) → ¬ AreGuestForwards (map (λ rule. rule.now) rules.now) all) }
{
    read_rules(rules, forwards)?;
    if rules.len() > ROOM {
        forwards.clear();
        forwards.push(GuestFwd {
            guest: NO_PORT,
            host: NO_PORT,
        });
    }
    Ok(())
}

// Reads the rules, and puts the first 16 of their forwards.
fn read_rules(rules: &[&str], forwards: &mut ArrayVec<GuestFwd, ROOM>) -> Result<(), NoReading>
    requires { forwards.old.items ≡ [] }
    ensures read { OnOk result ((all : List AGuestFwd) × AreGuestForwards (map (λ rule. rule.now) rules.now) all × (forwards.new.items ≡ take 16 all)) }
    ensures refused { OnErr result ((all : List AGuestFwd) → ¬ AreGuestForwards (map (λ rule. rule.now) rules.now) all) }
{
    for rule in rules {
        let forward = read_rule(rule)?;
        put_one(forward, forwards);
    }
    Ok(())
}

// Puts a forward where there is room.
fn put_one(forward: GuestFwd, forwards: &mut ArrayVec<GuestFwd, ROOM>)
    ensures { (all : List AGuestFwd) → forwards.old.items ≡ take 16 all → forwards.new.items ≡ take 16 (all ++ forward ∷ []) }
{
    if !forwards.is_full() {
        forwards.push(forward);
    }
}

/// Whether a word by itself asks for a forward of guests.
pub(crate) fn is_guest_word(word: &str) -> bool
    ensures { result ≡ is_guest_word word.now }
{
    match word.strip_prefix("guestfwd=") {
        Some(_) => true,
        None => false,
    }
}

/// Whether a word is a RULE of guests.
pub(crate) fn is_guest_rule(word: &str) -> bool
    ensures { MatchBool result ((forward : AGuestFwd) × IsGuestRule word.now forward) (¬ ((forward : AGuestFwd) × IsGuestRule word.now forward)) }
{
    match read_rule(word) {
        Ok(_) => true,
        Err(_) => false,
    }
}

fn read_rule(text: &str) -> Result<GuestFwd, NoReading>
    ensures rule { IfOk result (λ f. IsGuestRule text.now f) }
    ensures refused { OnErr result ((f : AGuestFwd) → ¬ IsGuestRule text.now f) }
{
    match text.strip_prefix("guestfwd=") {
        Some(behind) => read_forward(behind.as_bytes()),
        None => Err(NoReading),
    }
}

fn read_forward(text: &[u8]) -> Result<GuestFwd, NoReading>
    ensures forward { IfOk result (λ f. IsGuestForward text.now f) }
    ensures refused { OnErr result ((f : AGuestFwd) → ¬ IsGuestForward text.now f) }
{
    let (kind, behind) = split_at(text, b':')?;
    read_type(kind)?;
    let (inside, outside) = split_at(behind, b'-')?;
    Ok(GuestFwd {
        guest: read_endpoint(inside)?,
        host: read_endpoint(outside)?,
    })
}

// These forwards are of connections.
fn read_type(text: &[u8]) -> Result<(), NoReading>
    ensures tcp { OnOk result (IsType text.now Tcp) }
    ensures refused { OnErr result (¬ IsType text.now Tcp) }
{
    if text.is_empty() {
        return Ok(());
    }
    if is_tcp(text) {
        return Ok(());
    }
    Err(NoReading)
}
