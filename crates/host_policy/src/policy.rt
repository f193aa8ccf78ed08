//! Whose the addresses of the virtual network are, and where packets of guests may go.
ghost use Rattle.std.specs.Prelude.{◌≡◌, ◌≤◌, ◌==◌, ◌||◌, not, Some, None, if◌then◌else◌};
ghost use Rattle.std.specs.List.{list_any};
ghost use Rattle.slirp_settings.specs.Ranges.{IsSound};
ghost use Rattle.slirp_settings.specs.Classes.{is_group_or_reserved};
ghost use Rattle.host_policy.specs.Targets.{is_in};

use crate::{Rule, Verdict};
use net_octets::{Endpoint, Ip4, Prefix};
use slirp_settings::{
    NAMES_PORT, Proto, SlirpConfig, first_octet, is_group_or_reserved, is_loopback, is_same,
};
use std::marker::Model;

/// 127.0.0.1, by which the host reaches itself (RFC 1122, 3.2.1.3).
const LOOPBACK: Ip4 = Ip4(0x7f00_0001);

/// 0.0.0.0, for every address of the host.
const EVERY: Ip4 = Ip4(0);

/// Whose the addresses of the virtual network are, and where packets of guests may go.
#[derive(Drop)]
pub struct Policy {
    config: SlirpConfig,
}

impl Model for Policy {
    ghost use Rattle.std.specs.Prelude.{◌≤◌};
    ghost use Rattle.slirp_settings.specs.Addresses.{Config};
    ghost use Rattle.slirp_settings.specs.Settings.{settings};

    ghost Value = { Config };

    ghost view = { λ p. settings p.config };

    ghost invariant = { λ p. (576 ≤ p.config.if_mtu) × (p.config.if_mtu ≤ 1500) };
}

impl Policy {
    ghost use Rattle.slirp_settings.specs.Addresses.{address, is_guest, in_network, is_answered_for, is_ours, last_address};
    ghost use Rattle.slirp_settings.specs.Settings.{settings};
    ghost use Rattle.host_policy.specs.Targets.{target, leads, led_to, resolver_on, by_rules, has_control, is_denied, shown, is_hidden};

    /// The policy of these settings, of which `check` answers Ok.
    pub fn new(c: &SlirpConfig) -> Policy
        requires { IsSound (settings c.now) }
        ensures { result ≡ settings c.now }
    {
        Policy { config: c.copied() }
    }

    /// Whether the address is the host's or the name server's.
    pub fn is_ours(&self, a: Ip4) -> bool
        ensures { result ≡ is_ours self.now a.0 }
    {
        self.config.is_ours(a.0 as u64)
    }

    /// Whether the network answers for the address: it is the host's or the name server's, or that of a forward of guests.
    pub fn answers_for(&self, a: Ip4) -> bool
        ensures { result ≡ is_answered_for self.now a.0 }
    {
        self.is_ours(a) || self.is_led(a)
    }

    /// Whether the address is the name server's.
    pub fn is_name_server(&self, a: Ip4) -> bool
        ensures { result ≡ (a.0 == self.now.vnameserver) }
    {
        a == self.config.vnameserver
    }

    /// Whether guests are leased addresses (RFC 2131).
    pub fn lends_addresses(&self) -> bool
        ensures { result ≡ not self.now.no_dhcp }
    {
        !self.config.disable_dhcp
    }

    /// The host's address.
    pub fn vhost(&self) -> Ip4
        ensures { result.0 ≡ self.now.vhost }
    {
        self.config.vhost
    }

    /// The octets of the longest datagram to a guest, 576 to 1,500 (RFC 894).
    pub fn mtu(&self) -> u16
        ensures settings { result ≡ self.now.mtu }
        ensures least { 576 ≤ result }
        ensures most { result ≤ 1500 }
    {
        self.config.if_mtu
    }

    /// Where a packet of a guest to this endpoint goes. A forward of guests comes first, for TCP. Else the first rule that fits denies it: where guests are
    /// restricted; to port 0; for the name server, unless a resolver answers on port 53; for the host, whose address is 127.0.0.1, where its loopback is shut
    /// or the control stands at the port; for another address of the virtual network; for one in 0/8, 127/8, 224/4 or 240/4; for one in a denied network.
    pub fn target(&self, proto: Proto, to: Endpoint) -> Verdict
        ensures { result ≡ target self.now proto to }
    {
        match self.led_to(proto, to) {
            Some(host) => Verdict::Go(host),
            None => self.by_rules(to),
        }
    }

    // Where a forward of guests leads.
    fn led_to(&self, proto: Proto, to: Endpoint) -> Option<Endpoint>
        ensures { result ≡ led_to self.now proto to }
    {
        match proto {
            Proto::Tcp => self.leads(to),
            Proto::Udp => None,
        }
    }

    // Where the first of the forwards of guests with this port of the network leads.
    fn leads(&self, to: Endpoint) -> Option<Endpoint>
        ensures { result ≡ leads self.now to }
    {
        let forwards = self.config.guestfwds.as_slice();
        let found = forwards.iter().find(|f| is_same(f.guest, to));
        found.map(|f| f.host)
    }

    // Whether a forward of guests has this address of the network.
    fn is_led(&self, a: Ip4) -> bool
        ensures { result ≡ list_any (λ f. address f.guest == a.0) self.now.guest_forwards }
    {
        let forwards = self.config.guestfwds.as_slice();
        forwards.iter().any(|f| f.guest.addr == a)
    }

    // Whether the control is reached at this port of the host's loopback.
    fn has_control(&self, port: u16) -> bool
        ensures { result ≡ has_control self.now port }
    {
        match self.config.control {
            Some(at) => at.port == port && (at.addr == LOOPBACK || at.addr == EVERY),
            None => false,
        }
    }

    // Whether the address is in a network that guests don't reach.
    fn is_denied(&self, a: Ip4) -> bool
        ensures { result ≡ is_denied self.now a.0 }
    {
        self.config.denied.as_slice().iter().any(|d| is_in(&d.0, a))
    }

    // Denied networks come last, behind the resolver and the host's own address.
    fn by_rules(&self, to: Endpoint) -> Verdict
        ensures { result ≡ by_rules self.now to }
    {
        if self.config.restricted {
            Verdict::Denied(Rule::Restricted)
        } else if to.port == 0 {
            Verdict::Denied(Rule::PortZero)
        } else if to.addr == self.config.vnameserver {
            match self.resolver_on(to.port) {
                Some(resolver) => Verdict::Go(resolver),
                None => Verdict::Denied(Rule::NameServer),
            }
        } else if to.addr == self.config.vhost {
            if self.config.disable_host_loopback || self.has_control(to.port) {
                Verdict::Denied(Rule::HostLoopback)
            } else {
                Verdict::Go(Endpoint {
                    addr: LOOPBACK,
                    port: to.port,
                })
            }
        } else if self.is_inside(to.addr) {
            Verdict::Denied(Rule::Network)
        } else if first_octet(to.addr) == 0
            || is_loopback(to.addr)
            || is_group_or_reserved(to.addr)
        {
            Verdict::Denied(Rule::Reserved)
        } else if self.is_denied(to.addr) {
            Verdict::Denied(Rule::DeniedNetwork)
        } else {
            Verdict::Go(to)
        }
    }

    // Who answers for the name server on this port.
    fn resolver_on(&self, port: u16) -> Option<Endpoint>
        ensures { result ≡ resolver_on self.now port }
    {
        if port == NAMES_PORT && !self.config.disable_dns {
            self.config.resolver
        } else {
            None
        }
    }

    /// How a peer is shown to a guest: with the host's address, where its own is in 127/8; not at all, where it is another address of the virtual network.
    pub fn shown(&self, peer: Endpoint) -> Option<Endpoint>
        ensures { result ≡ (if is_hidden self.now peer then None else Some (shown self.now peer)) }
    {
        let addr = if is_loopback(peer.addr) {
            self.config.vhost
        } else {
            peer.addr
        };
        if self.is_inside(addr) && addr != self.config.vhost {
            return None;
        }
        Some(Endpoint {
            addr,
            port: peer.port,
        })
    }

    // Whether the address is in the virtual network.
    fn is_inside(&self, a: Ip4) -> bool
        ensures { result ≡ in_network self.now a.0 }
    {
        self.config.is_inside(a.0 as u64)
    }

    /// Whether the address is one of many: of a group, reserved, or the network's last.
    pub fn is_of_many(&self, a: Ip4) -> bool
        ensures { result ≡ (is_group_or_reserved a.0 || (a.0 == last_address self.now)) }
    {
        is_group_or_reserved(a)
            || a.0 as u64 == self.config.vnetwork.0 as u64 + self.config.network_size() - 1
    }

    /// Whether the address is a guest's: in the network, and neither its first nor its last address, the host's nor the name server's.
    pub fn is_guest(&self, a: Ip4) -> bool
        ensures { result ≡ is_guest self.now a.0 }
    {
        self.config.is_guest(a.0 as u64)
    }
}

// Whether the address is in a network.
fn is_in(network: &Prefix, a: Ip4) -> bool
    ensures { result ≡ is_in network.now a.0 }
{
    network.length <= 32 && network.holds(a)
}
