//! The range of each field of the settings.
ghost use Rattle.std.specs.Prelude.{◌≡◌, ◌==◌, ◌&&◌, not, OnOk, OnErr, find};
ghost use Rattle.std.specs.List.{list_any, list_all};
ghost use Rattle.std.specs.Result.{result_err};
ghost use Rattle.slirp_settings.specs.Addresses.{is_guest, pool};
ghost use Rattle.slirp_settings.specs.Ranges.{is_mask, is_of_one, is_word, none_twice, same_proto, same_host_port, same_guest_port, is_forward, are_forwards, is_guest_forward};
ghost use Rattle.slirp_settings.specs.Ranges.{are_guest_forwards, is_control, is_taken, is_network, are_denied, in_range, first_broken, IsSound};
ghost use Rattle.slirp_settings.specs.Classes.{same_endpoint};
ghost use Rattle.slirp_settings.specs.declared.Proto.TheVariants.{Tcp};

use crate::classes::{first_octet, is_group_or_reserved, is_loopback, is_same};
use crate::{Denial, Field, Forward, GuestFwd, Proto, SlirpConfig};
use net_octets::{Endpoint, Ip4, Prefix};

/// The fields in the order in which they are checked.
const FIELDS: [Field; 25] = [
    Field::Version,
    Field::InEnabled,
    Field::Vnetmask,
    Field::Vnetwork,
    Field::Vhost,
    Field::Vnameserver,
    Field::VdhcpStart,
    Field::Vhostname,
    Field::Vdomainname,
    Field::TftpServerName,
    Field::Bootfile,
    Field::TftpPath,
    Field::IfMtu,
    Field::IfMru,
    Field::Flows,
    Field::Ring,
    Field::Resolver,
    Field::Turns,
    Field::Forwards,
    Field::Outbound,
    Field::DisableDns,
    Field::DisableDhcp,
    Field::Guestfwds,
    Field::Control,
    Field::Denied,
];

/// How many bits a network's prefix may have.
const PREFIX_LENGTHS: [u32; 20] = [
    8, 9, 10, 11, 12, 13, 14, 15, 16, 17, 18, 19, 20, 21, 22, 23, 24, 25, 26, 27,
];

/// How far the addresses that are leased to guests lie behind the first of them.
const POOL: [u64; 16] = [0, 1, 2, 3, 4, 5, 6, 7, 8, 9, 10, 11, 12, 13, 14, 15];

impl SlirpConfig {
    ghost use Rattle.slirp_settings.specs.Settings.{settings};
    ghost use Rattle.slirp_settings.specs.declared.fields.Field.TheVariants.{TftpPath};

    /// Ok exactly where each field is in its range, else the first field that isn't.
    pub fn check(&self) -> Result<(), Field>
        ensures ok { OnOk result (IsSound (settings self.now)) }
        ensures err { OnErr result (¬ IsSound (settings self.now)) }
        ensures first { result_err result ≡ first_broken (settings self.now) }
    {
        match self.first_broken(&FIELDS) {
            Some(field) => Err(field),
            None => Ok(()),
        }
    }

    // The first of some fields that breaks its range.
    fn first_broken(&self, fields: &[Field]) -> Option<Field>
        ensures { result ≡ find (λ field. not (in_range (settings self.now) field)) fields.now }
    {
        fields
            .iter()
            .copied()
            .find(|field| !self.is_in_range(*field))
    }

    // Whether a field is in its range.
    fn is_in_range(&self, field: Field) -> bool
        ensures { result ≡ in_range (settings self.now) field }
    {
        match field {
            Field::Version => self.version == 1 || self.version == 2,
            Field::InEnabled => self.in_enabled,
            Field::Vnetmask => is_mask(self.vnetmask),
            Field::Vnetwork => {
                self.vnetwork.0 as u64 % self.network_size() == 0
                    && is_of_one(self.vnetwork)
                    && !is_loopback(self.vnetwork)
            }
            Field::Vhost => self.is_of_one_host(self.vhost.0 as u64),
            Field::Vnameserver => {
                self.is_of_one_host(self.vnameserver.0 as u64) && self.vnameserver != self.vhost
            }
            Field::VdhcpStart => {
                self.vdhcp_start.0 as u64 + 15 < 1 << 32 && self.lends_to_guests()
            }
            Field::Vhostname => is_word(self.vhostname.as_slice()),
            Field::Vdomainname => is_word(self.vdomainname.as_slice()),
            Field::TftpServerName => is_word(self.tftp_server_name.as_slice()),
            Field::Bootfile => is_word(self.bootfile.as_slice()),
            Field::TftpPath => self.has_tftp_path(),
            Field::IfMtu => 576 <= self.if_mtu && self.if_mtu <= 1500,
            Field::IfMru => 576 <= self.if_mru && self.if_mru <= 9216,
            Field::Flows => 1 <= self.flows && self.flows <= 4096,
            Field::Ring => {
                65535 <= self.ring
                    && self.ring <= 1048576
                    && self.flows as u64 * self.ring as u64 <= 268435456
            }
            Field::Resolver => match self.resolver {
                Some(to) => to.port != 0 && is_of_one(to.addr),
                None => true,
            },
            Field::Turns => 1 <= self.turns && self.turns <= 1 << 44,
            Field::Forwards => self.are_forwards(),
            Field::Outbound => match self.outbound {
                Some(a) => self.is_second() && is_of_one(a),
                None => true,
            },
            Field::DisableDns => !self.disable_dns || self.is_second(),
            Field::DisableDhcp => !self.disable_dhcp || self.is_second(),
            Field::Guestfwds => {
                self.guestfwds.is_empty() || self.is_second() && self.are_guest_forwards()
            }
            Field::Control => match self.control {
                Some(at) => self.is_second() && self.is_control(at),
                None => true,
            },
            Field::Denied => self.denied.is_empty() || self.is_second() && self.are_denied(),
        }
    }

    // Whether each address that is leased is a guest's.
    fn lends_to_guests(&self) -> bool
        ensures { result ≡ list_all (is_guest (settings self.now)) (pool (settings self.now)) }
    {
        POOL.iter()
            .map(|k| self.vdhcp_start.0 as u64 + *k)
            .all(|a| self.is_guest(a))
    }

    // Whether the folder of TFTP is a path.
    fn has_tftp_path(&self) -> bool
        ensures { result ≡ in_range (settings self.now) TftpPath }
    {
        match &self.tftp_path {
            Some(path) => is_path(path.as_str()),
            None => true,
        }
    }

    // Whether the ports of the host can be given to guests.
    fn are_forwards(&self) -> bool
        ensures { result ≡ are_forwards (settings self.now) self.now.forwards.items }
    {
        let forwards = self.forwards.as_slice();
        forwards.len() <= 32 && self.each_is_forward(forwards) && no_host_port_twice(forwards)
    }

    fn each_is_forward(&self, forwards: &[Forward]) -> bool
        ensures { result ≡ list_all (is_forward (settings self.now)) forwards.now }
    {
        forwards.iter().all(|f| self.is_forward(f))
    }

    fn is_forward(&self, f: &Forward) -> bool
        ensures { result ≡ is_forward (settings self.now) f.now }
    {
        f.host.port != 0 && f.guest.port != 0 && self.is_guest(f.guest.addr.0 as u64)
    }

    // Whether the ports of the network can lead where they should.
    fn are_guest_forwards(&self) -> bool
        ensures { result ≡ are_guest_forwards (settings self.now) self.now.guestfwds.items }
    {
        let forwards = self.guestfwds.as_slice();
        forwards.len() <= 16
            && self.each_is_guest_forward(forwards)
            && no_guest_port_twice(forwards)
    }

    fn each_is_guest_forward(&self, forwards: &[GuestFwd]) -> bool
        ensures { result ≡ list_all (is_guest_forward (settings self.now)) forwards.now }
    {
        forwards.iter().all(|f| self.is_guest_forward(f))
    }

    fn is_guest_forward(&self, f: &GuestFwd) -> bool
        ensures { result ≡ is_guest_forward (settings self.now) f.now }
    {
        f.guest.port != 0
            && f.host.port != 0
            && self.is_guest(f.guest.addr.0 as u64)
            && !self.is_leased(f.guest.addr)
            && is_of_one(f.host.addr)
    }

    // Whether the address is one of those that are leased to guests.
    fn is_leased(&self, a: Ip4) -> bool
        ensures { result ≡ list_any (λ b. b == a.0) (pool (settings self.now)) }
    {
        POOL.iter()
            .map(|k| self.vdhcp_start.0 as u64 + *k)
            .any(|b| b == a.0 as u64)
    }

    // Whether the control can listen there.
    fn is_control(&self, at: Endpoint) -> bool
        ensures { result ≡ is_control (settings self.now) at }
    {
        at.port != 0 && !self.is_taken(at)
    }

    // Whether a forward of TCP has this port of the host.
    fn is_taken(&self, at: Endpoint) -> bool
        ensures { result ≡ is_taken (settings self.now) at }
    {
        self.forwards.as_slice().iter().any(|f| is_tcp_at(f, at))
    }

    // Whether the networks that guests don't reach are networks, and not too many.
    fn are_denied(&self) -> bool
        ensures { result ≡ are_denied self.now.denied.items }
    {
        let denied = self.denied.as_slice();
        denied.len() <= 8 && each_is_network(denied)
    }

    fn is_second(&self) -> bool
        ensures { result ≡ (self.now.version == 2) }
    {
        self.version == 2
    }
}

// Whether a mask has 8 to 27 ones and then zeros.
fn is_mask(mask: Ip4) -> bool
    ensures { result ≡ is_mask mask.0 }
{
    PREFIX_LENGTHS
        .iter()
        .any(|ones| mask.0 as u64 == (1 << 32) - (1 << (32 - *ones)))
}

// Whether a text has no octet 0.
fn is_path(text: &str) -> bool
    ensures { result ≡ list_all (λ octet. not (octet == 0)) text.now }
{
    text.as_bytes().iter().all(|octet| *octet != 0)
}

// Whether a text has no blank and no control.
fn is_word(octets: &[u8]) -> bool
    ensures { result ≡ is_word octets.now }
{
    octets.iter().all(|octet| 33 <= *octet && *octet <= 126)
}

// Whether no port of the host stands twice.
fn no_host_port_twice(forwards: &[Forward]) -> bool
    ensures { result ≡ none_twice same_host_port forwards.now }
{
    match forwards.split_first() {
        Some((first, rest)) => !has_host_port(rest, first) && no_host_port_twice(rest),
        None => true,
    }
}

// Whether one of some forwards has the port of the host that this one has.
fn has_host_port(forwards: &[Forward], first: &Forward) -> bool
    ensures { result ≡ list_any (same_host_port first.now) forwards.now }
{
    forwards.iter().any(|f| is_same_host_port(first, f))
}

fn is_same_host_port(f: &Forward, g: &Forward) -> bool
    ensures { result ≡ same_host_port f.now g.now }
{
    f.proto == g.proto && is_same(f.host, g.host)
}

// Whether a forward has this port of the host, with TCP.
fn is_tcp_at(f: &Forward, at: Endpoint) -> bool
    ensures { result ≡ (same_proto f.now.proto Tcp && same_endpoint f.now.host at) }
{
    f.proto == Proto::Tcp && is_same(f.host, at)
}

// Whether no port of the network stands twice.
fn no_guest_port_twice(forwards: &[GuestFwd]) -> bool
    ensures { result ≡ none_twice same_guest_port forwards.now }
{
    match forwards.split_first() {
        Some((first, rest)) => !has_guest_port(rest, first) && no_guest_port_twice(rest),
        None => true,
    }
}

// Whether one of some forwards has the port of the network that this one has.
fn has_guest_port(forwards: &[GuestFwd], first: &GuestFwd) -> bool
    ensures { result ≡ list_any (same_guest_port first.now) forwards.now }
{
    forwards.iter().any(|f| is_same(first.guest, f.guest))
}

fn each_is_network(denied: &[Denial]) -> bool
    ensures { result ≡ list_all (λ d. is_network d.0) denied.now }
{
    denied.iter().all(|d| is_network(&d.0))
}

// Whether the prefix has at most 32 bits, and the address none behind them.
fn is_network(network: &Prefix) -> bool
    ensures { result ≡ is_network network.now }
{
    network.length <= 32 && network.net.0 as u64 % (1 << (32 - network.length)) == 0
}

// Whether one host of the outside may have the address.
fn is_of_one(a: Ip4) -> bool
    ensures { result ≡ is_of_one a.0 }
{
    first_octet(a) != 0 && !is_group_or_reserved(a)
}
