//! What becomes of the leases by a message, and what is answered (RFC 2131, 4.3).
ghost use Rattle.std.specs.Prelude.{◌≡◌, ◌≤◌, ◌<◌, ◌+◌, ◌^◌, length, map, position, Some, IfSome};
ghost use Rattle.slirp_settings.specs.Settings.{settings};
ghost use Rattle.rules_dhcp.specs.Leases.{at_moment, is_free, is_of, place_of, offered, reserve, not_reserved, freed, lend, replaced};
ghost use Rattle.rules_dhcp.specs.Serving.{asked_place, discovered, is_for_another, wanted, lends, requested, given_up, outcome_of};

use crate::leases::{at_moment, bound, can_have, freed, is_free, is_of, not_reserved, reserved};
use net_octets::{Ip4, Mac};
use rules_dhcp::{
    Answer, DECLINE, DISCOVER, INFORM, Lease, Message, Outcome, POOL, RELEASE, REQUEST,
};
use slirp_settings::SlirpConfig;

/// How many milliseconds an address that a client declined is kept from use.
const DECLINED_TIME: u64 = 3_600_000;

/// What a message does at a moment, by its kind: DISCOVER, REQUEST, DECLINE, RELEASE or INFORM.
pub fn outcome_of(config: &SlirpConfig, now: u64, m: &Message, leases: [Lease; POOL]) -> Outcome
    requires { now ≤ 2 ^ 62 }
    ensures { result ≡ outcome_of (settings config.now) now m.now (map (at_moment now) leases) }
{
    let leases = leases_at(leases, now);
    match m.kind {
        DISCOVER => discovered(config, now, m, leases),
        REQUEST => requested(config, now, m, leases),
        DECLINE => given_up(
            m.mac,
            Lease::Declined(now + DECLINED_TIME),
            leases,
            asked_place(config, m),
        ),
        RELEASE => given_up(m.mac, Lease::Free, leases, place_of(config, m.client)),
        INFORM => leaves(leases, Answer::Informs),
        _ => leaves(leases, Answer::Silence),
    }
}

fn leaves(leases: [Lease; POOL], answer: Answer) -> Outcome
    ensures { result ≡ record { leases = leases; answer = answer } }
{
    Outcome { leases, answer }
}

// DISCOVER: an address is offered, where there is one.
fn discovered(config: &SlirpConfig, now: u64, m: &Message, leases: [Lease; POOL]) -> Outcome
    requires { now ≤ 2 ^ 62 }
    ensures { result ≡ discovered (settings config.now) now m.now leases }
{
    match offered(&leases, m.mac, asked_place(config, m)) {
        Some(place) => leaves(reserve(leases, now, m.mac, place), Answer::Offers(place)),
        None => leaves(leases, Answer::Silence),
    }
}

// REQUEST: the address that the client wants is leased, where it can have it.
fn requested(config: &SlirpConfig, now: u64, m: &Message, leases: [Lease; POOL]) -> Outcome
    requires { now ≤ 2 ^ 62 }
    ensures { result ≡ requested (settings config.now) now m.now leases }
{
    if is_for_another(config, m) {
        return leaves(without_offers(leases, m.mac), Answer::Silence);
    }
    match place_of(config, wanted(m)) {
        Some(place) => lends(now, m.mac, leases, place),
        None => leaves(leases, Answer::Refuses),
    }
}

fn lends(now: u64, mac: Mac, leases: [Lease; POOL], place: usize) -> Outcome
    requires moment { now ≤ 2 ^ 62 }
    requires place { place < 16 }
    ensures { result ≡ lends now mac leases (Some place) }
{
    if can_have(leases[place], mac) {
        leaves(lend(leases, now, mac, place), Answer::Lends(place))
    } else {
        leaves(leases, Answer::Refuses)
    }
}

// DECLINE and RELEASE: an address of the client becomes this.
fn given_up(mac: Mac, lease: Lease, leases: [Lease; POOL], place: Option<usize>) -> Outcome
    requires { IfSome place (λ k. k < 16) }
    ensures { result ≡ given_up mac lease leases place }
{
    match place {
        Some(place) => leaves(replaced(leases, mac, place, lease), Answer::Silence),
        None => leaves(leases, Answer::Silence),
    }
}

// The place of an address in the list of leases.
fn place_of(config: &SlirpConfig, a: Ip4) -> Option<usize>
    ensures place { result ≡ place_of (settings config.now) a.0 }
    ensures within { IfSome result (λ k. k < 16) }
{
    let start = config.vdhcp_start.0;
    if start <= a.0 && (a.0 as u64) < start as u64 + 16 {
        Some((a.0 - start) as usize)
    } else {
        None
    }
}

// The place of the address that the client asks for.
fn asked_place(config: &SlirpConfig, m: &Message) -> Option<usize>
    ensures place { result ≡ asked_place (settings config.now) m.now }
    ensures within { IfSome result (λ k. k < 16) }
{
    match m.asked {
        Some(a) => place_of(config, a),
        None => None,
    }
}

// Whether the client chose another server.
fn is_for_another(config: &SlirpConfig, m: &Message) -> bool
    ensures { result ≡ is_for_another (settings config.now) m.now }
{
    match m.server {
        Some(a) => a.0 != config.vhost.0,
        None => false,
    }
}

// The address that the client wants.
fn wanted(m: &Message) -> Ip4
    ensures { result.0 ≡ wanted m.now }
{
    match m.asked {
        Some(a) => a,
        None => m.client,
    }
}

// The place whose address is offered.
fn offered(leases: &[Lease], mac: Mac, asked: Option<usize>) -> Option<usize>
    requires { IfSome asked (λ k. k < length leases.now) }
    ensures place { result ≡ offered mac asked leases.now }
    ensures within { IfSome result (λ k. k < length leases.now) }
{
    if let Some(place) = owned(leases, mac) {
        return Some(place);
    }
    if let Some(place) = asked {
        if is_free(leases[place]) {
            return Some(place);
        }
    }
    free(leases)
}

// The place of the hardware address.
fn owned(leases: &[Lease], mac: Mac) -> Option<usize>
    ensures place { result ≡ position (is_of mac) leases.now }
    ensures within { IfSome result (λ k. k < length leases.now) }
{
    leases.iter().position(|lease| is_of(*lease, mac))
}

// The lowest free place.
fn free(leases: &[Lease]) -> Option<usize>
    ensures place { result ≡ position is_free leases.now }
    ensures within { IfSome result (λ k. k < length leases.now) }
{
    leases.iter().position(|lease| is_free(*lease))
}

// The leases after an offer.
fn reserve(leases: [Lease; POOL], now: u64, mac: Mac, place: usize) -> [Lease; POOL]
    requires moment { now ≤ 2 ^ 62 }
    requires place { place < 16 }
    ensures { result ≡ reserve now mac place leases }
{
    let mut after = leases;
    after[place] = reserved(leases[place], now, mac);
    after
}

// The leases after an address was leased.
fn lend(leases: [Lease; POOL], now: u64, mac: Mac, place: usize) -> [Lease; POOL]
    requires moment { now ≤ 2 ^ 62 }
    requires place { place < 16 }
    ensures { result ≡ lend now mac place leases }
{
    let mut after = without(leases, mac);
    after[place] = bound(now, mac);
    after
}

// The leases after an address of the client became this.
fn replaced(leases: [Lease; POOL], mac: Mac, place: usize, lease: Lease) -> [Lease; POOL]
    requires { place < 16 }
    ensures { result ≡ replaced mac place lease leases }
{
    if is_of(leases[place], mac) {
        let mut after = leases;
        after[place] = lease;
        after
    } else {
        leases
    }
}

// What is left of the leases at a moment.
fn leases_at(leases: [Lease; POOL], now: u64) -> [Lease; POOL]
    ensures { result ≡ map (at_moment now) leases }
{
    let mut after = leases;
    for lease in after.iter_mut() {
        *lease = at_moment(*lease, now);
    }
    after
}

// The leases without those of a hardware address.
fn without(leases: [Lease; POOL], mac: Mac) -> [Lease; POOL]
    ensures { result ≡ map (freed mac) leases }
{
    let mut after = leases;
    for lease in after.iter_mut() {
        *lease = freed(*lease, mac);
    }
    after
}

// The leases without what was offered to a hardware address.
fn without_offers(leases: [Lease; POOL], mac: Mac) -> [Lease; POOL]
    ensures { result ≡ map (not_reserved mac) leases }
{
    let mut after = leases;
    for lease in after.iter_mut() {
        *lease = not_reserved(*lease, mac);
    }
    after
}
