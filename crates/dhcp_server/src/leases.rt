//! The addresses that are leased, and who has each.
ghost use Rattle.std.specs.Prelude.{◌≡◌, ℕ, ◌+◌, ◌^◌, ◌<◌, ◌≤◌, ◌++◌, length, drop, map};
ghost use Rattle.slirp_settings.specs.Ranges.{IsSound};
ghost use Rattle.rules_dhcp.specs.Leases.{at_moment, can_have, freed, is_free, is_of, is_reserved_for, lease_time, not_reserved, reserved};
ghost use Rattle.rules_dhcp.specs.declared.Lease.TheVariants.{Bound};

use crate::message::read_message;
use crate::reply::write_reply;
use crate::serving::outcome_of;
use net_octets::Mac;
use rules_dhcp::{Lease, POOL};
use rules_udp::Reply;
use slirp_settings::SlirpConfig;
use std::marker::Model;

/// How many milliseconds an address is kept for whom it was offered to.
const OFFER_TIME: u64 = 60_000;

/// How many milliseconds an address is leased.
const LEASE_TIME: u64 = 86_400_000;

/// What is left of it at a moment: it is over at its very moment.
pub(crate) fn at_moment(lease: Lease, now: u64) -> Lease
    ensures { result ≡ at_moment now lease }
{
    match lease {
        Lease::Free => Lease::Free,
        Lease::Reserved(mac, until) => {
            if now < until {
                Lease::Reserved(mac, until)
            } else {
                Lease::Free
            }
        }
        Lease::Bound(mac, until) => {
            if now < until {
                Lease::Bound(mac, until)
            } else {
                Lease::Free
            }
        }
        Lease::Declined(until) => {
            if now < until {
                Lease::Declined(until)
            } else {
                Lease::Free
            }
        }
    }
}

/// Whether nobody has it.
pub(crate) fn is_free(lease: Lease) -> bool
    ensures { result ≡ is_free lease }
{
    match lease {
        Lease::Free => true,
        Lease::Reserved(_, _) | Lease::Bound(_, _) | Lease::Declined(_) => false,
    }
}

/// Whether it is bound or reserved to a hardware address.
pub(crate) fn is_of(lease: Lease, mac: Mac) -> bool
    ensures { result ≡ is_of mac lease }
{
    match lease {
        Lease::Free | Lease::Declined(_) => false,
        Lease::Reserved(owner, _) | Lease::Bound(owner, _) => owner == mac,
    }
}

// Whether it is reserved to a hardware address.
fn is_reserved_for(lease: Lease, mac: Mac) -> bool
    ensures { result ≡ is_reserved_for mac lease }
{
    match lease {
        Lease::Reserved(owner, _) => owner == mac,
        Lease::Free | Lease::Bound(_, _) | Lease::Declined(_) => false,
    }
}

/// Free where it was the hardware address's.
pub(crate) fn freed(lease: Lease, mac: Mac) -> Lease
    ensures { result ≡ freed mac lease }
{
    if is_of(lease, mac) {
        Lease::Free
    } else {
        lease
    }
}

/// Free where it was offered to the hardware address.
pub(crate) fn not_reserved(lease: Lease, mac: Mac) -> Lease
    ensures { result ≡ not_reserved mac lease }
{
    if is_reserved_for(lease, mac) {
        Lease::Free
    } else {
        lease
    }
}

/// Whether it can be leased to the hardware address.
pub(crate) fn can_have(lease: Lease, mac: Mac) -> bool
    ensures { result ≡ can_have mac lease }
{
    is_free(lease) || is_of(lease, mac)
}

/// Reserved from a moment on, unless it is bound.
pub(crate) fn reserved(lease: Lease, now: u64, mac: Mac) -> Lease
    requires { now ≤ 2 ^ 62 }
    ensures { result ≡ reserved now mac lease }
{
    match lease {
        Lease::Bound(owner, until) => Lease::Bound(owner, until),
        Lease::Free | Lease::Reserved(_, _) | Lease::Declined(_) => {
            Lease::Reserved(mac, now + OFFER_TIME)
        }
    }
}

/// Lent to a hardware address from a moment on.
pub(crate) fn bound(now: u64, mac: Mac) -> Lease
    requires { now ≤ 2 ^ 62 }
    ensures { result ≡ Bound mac (now + lease_time) }
{
    Lease::Bound(mac, now + LEASE_TIME)
}

/// The 16 addresses from `vdhcp_start` on, and who has each.
#[derive(Drop)]
pub struct Leases {
    config: SlirpConfig,
    leases: [Lease; POOL],
}

impl Model for Leases {
    ghost use Rattle.std.specs.Prelude.{◌≡◌, ◌+◌, ◌<◌, ◌^◌};
    ghost use Rattle.slirp_settings.specs.Settings.{settings};
    ghost use Rattle.rules_dhcp.specs.Leases.{IsOneToOne};
    ghost use Rattle.dhcp_server.specs.Lending.{Lending};

    ghost Value = { Lending };

    ghost view = { λ s. record { config = settings s.config; leases = s.leases } };

    ghost invariant = { λ s. (s.config.vdhcp_start.0 + 15 < 2 ^ 32) × IsOneToOne s.leases };
}

impl Leases {
    ghost use Rattle.std.specs.Prelude.{replicate};
    ghost use Rattle.slirp_settings.specs.Settings.{settings};
    ghost use Rattle.rules_dhcp.specs.Leases.{IsOneToOne};
    ghost use Rattle.rules_dhcp.specs.Messages.{read_message};
    ghost use Rattle.rules_dhcp.specs.Serving.{leases_after};
    ghost use Rattle.rules_dhcp.specs.Replies.{reply_to, replied_octets};
    ghost use Rattle.rules_dhcp.specs.declared.Lease.TheVariants.{Free};

    /// No address is leased yet. The settings are some of which `check` answers Ok.
    pub fn new(c: &SlirpConfig) -> Leases
        requires { IsSound (settings c.now) }
        ensures config { result.config ≡ settings c.now }
        ensures leases { result.leases ≡ replicate 16 Free }
    {
        Leases {
            config: c.copied(),
            leases: [Lease::Free; POOL],
        }
    }

    /// Takes a client's message at a moment of at most 2^62 milliseconds, and writes its reply at the front of `into`, which has room for 1,024 octets; no
    /// reply has over 790. A message that is none is answered by nothing and changes nothing.
    pub fn message(&mut self, now: u64, body: &[u8], into: &mut [u8]) -> Reply
        requires moment { now ≤ 2 ^ 62 }
        requires room { 1024 ≤ length into.old }
        ensures config { self.new.config ≡ self.old.config }
        ensures leases { self.new.leases ≡ leases_after self.old.config now body.now self.old.leases }
        ensures reply { result ≡ reply_to self.old.config now self.old.leases (read_message body.now) }
        ensures octets { let octets = replied_octets self.old.config now self.old.leases (read_message body.now) in
            into.new ≡ octets ++ drop (length octets) into.old }
        ensures few { length (replied_octets self.old.config now self.old.leases (read_message body.now)) ≤ 790 }
        ensures one_to_one { IsOneToOne self.new.leases }
    {
        let leases = self.leases;
        let Some(message) = read_message(body) else {
            return Reply::Nothing;
        };
        let outcome = outcome_of(&self.config, now, &message, leases);
        self.leases.copy_from_slice(&outcome.leases);
        write_reply(&self.config, &message, outcome.answer, into)
    }
}
