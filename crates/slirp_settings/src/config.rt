//! The settings, and what they say of addresses.
ghost use Rattle.std.specs.Prelude.{◌≡◌, ◌<◌};
ghost use Rattle.slirp_settings.specs.Addresses.{in_network, network_size, is_of_one_host, is_guest, is_ours};
ghost use Rattle.slirp_settings.specs.Ranges.{IsSound};

use crate::{Denial, Forward, GuestFwd};
use arrayvec::{ArrayString, ArrayVec};
use net_octets::{Endpoint, Ip4, Prefix};

/// The settings of the virtual network. They hold all that they are in themselves, and take no memory.
#[derive(Debug, Drop)]
pub struct SlirpConfig {
    /// 1, or 2 where a field from `outbound` on says more than nothing.
    pub version: u32,
    /// Whether guests have IPv4 at all: true.
    pub in_enabled: bool,
    /// Whether guests are kept from the outside.
    pub restricted: bool,
    /// Whether the host's loopback is shut to guests.
    pub disable_host_loopback: bool,
    /// 8 to 27 ones, then zeros: which bits of an address are the network's (RFC 950).
    pub vnetmask: Ip4,
    /// The network's first address, not in 0/8, 127/8, 224/4 or 240/4.
    pub vnetwork: Ip4,
    /// The address under which the host is seen: in the network, neither its first nor its last.
    pub vhost: Ip4,
    /// The address under which the name server is seen: the same, and another.
    pub vnameserver: Ip4,
    /// The first of 16 addresses that are leased to guests by DHCP: each a guest's.
    pub vdhcp_start: Ip4,
    /// The name that a guest is told for itself by DHCP, of octets 0x21 to 0x7E; none where it is empty, as the next three.
    pub vhostname: ArrayVec<u8, 127>,
    /// The domain that a guest is told.
    pub vdomainname: ArrayVec<u8, 127>,
    /// The name of the TFTP server that a guest is told.
    pub tftp_server_name: ArrayVec<u8, 127>,
    /// The file that a guest is told to boot from.
    pub bootfile: ArrayVec<u8, 127>,
    /// The folder whose files are read by TFTP, without an octet 0; None where none are.
    pub tftp_path: Option<ArrayString<1024>>,
    /// The most octets of a datagram to a guest, 576 to 1500.
    pub if_mtu: u16,
    /// The most octets of a datagram that a guest is told to send, 576 to 9216.
    pub if_mru: u16,
    /// How many flows of TCP there are at once at most, 1 to 4096.
    pub flows: u32,
    /// The octets of each of a flow's two buffers, 65,535 to 1,048,576; times `flows` at most 268,435,456.
    pub ring: u32,
    /// Who is asked for names, at a port that isn't 0 and an address that isn't in 0/8, 224/4 or 240/4; None where names are refused.
    pub resolver: Option<Endpoint>,
    /// The most turns of a run, 1 to 2^44.
    pub turns: u64,
    /// The ports of the host that are given to guests: no port 0, each to a guest's address, none twice with one protocol.
    pub forwards: ArrayVec<Forward, 32>,
    /// The host's address from which datagrams of UDP go out, not in 0/8, 224/4 or 240/4; None where the host decides. From here on version 2.
    pub outbound: Option<Ip4>,
    /// Whether no names are served.
    pub disable_dns: bool,
    /// Whether no addresses are leased.
    pub disable_dhcp: bool,
    /// The ports of the network that lead to a port which the host reaches: no port 0, at a guest's address that isn't leased, none twice, to an address that isn't in 0/8, 224/4 or 240/4.
    pub guestfwds: ArrayVec<GuestFwd, 16>,
    /// Where forwards are asked for while the network runs: no port 0, nor one of `forwards` with TCP.
    pub control: Option<Endpoint>,
    /// The networks that guests don't reach, at most 8: each by its first address and a prefix of 0 to 32 bits.
    pub denied: ArrayVec<Denial, 9>,
    /// Whether TCP keeps a congestion window (RFC 5681).
    pub congestion: bool,
}

impl SlirpConfig {
    ghost use Rattle.slirp_settings.specs.Settings.{settings, usual};

    /// The settings of a command without options: 10.0.2.0/24, the host at 10.0.2.2, the name server at 10.0.2.3, guests from 10.0.2.15 on; datagrams of 1,500
    /// octets, 256 flows with buffers of 65,535 octets, 2^44 turns; no resolver, no forward, nothing shut.
    pub fn usual() -> SlirpConfig
        ensures usual { settings result ≡ usual }
        ensures sound { IsSound (settings result) }
    {
        SlirpConfig {
            version: 1,
            in_enabled: true,
            restricted: false,
            disable_host_loopback: false,
            vnetmask: Ip4(0xffffff00),
            vnetwork: Ip4(0x0a000200),
            vhost: Ip4(0x0a000202),
            vnameserver: Ip4(0x0a000203),
            vdhcp_start: Ip4(0x0a00020f),
            vhostname: ArrayVec::new(),
            vdomainname: ArrayVec::new(),
            tftp_server_name: ArrayVec::new(),
            bootfile: ArrayVec::new(),
            tftp_path: None,
            if_mtu: 1500,
            if_mru: 1500,
            flows: 256,
            ring: 65535,
            resolver: None,
            turns: 1 << 44,
            forwards: ArrayVec::new(),
            outbound: None,
            disable_dns: false,
            disable_dhcp: false,
            guestfwds: ArrayVec::new(),
            control: None,
            denied: ArrayVec::new(),
            congestion: false,
        }
    }

    /// A copy of the settings.
    pub fn copied(&self) -> SlirpConfig
        ensures { settings result ≡ settings self.now }
    {
        SlirpConfig {
            version: self.version,
            in_enabled: self.in_enabled,
            restricted: self.restricted,
            disable_host_loopback: self.disable_host_loopback,
            vnetmask: self.vnetmask,
            vnetwork: self.vnetwork,
            vhost: self.vhost,
            vnameserver: self.vnameserver,
            vdhcp_start: self.vdhcp_start,
            vhostname: copy_of(&self.vhostname),
            vdomainname: copy_of(&self.vdomainname),
            tftp_server_name: copy_of(&self.tftp_server_name),
            bootfile: copy_of(&self.bootfile),
            tftp_path: self.tftp_path,
            if_mtu: self.if_mtu,
            if_mru: self.if_mru,
            flows: self.flows,
            ring: self.ring,
            resolver: self.resolver,
            turns: self.turns,
            forwards: copy_of(&self.forwards),
            outbound: self.outbound,
            disable_dns: self.disable_dns,
            disable_dhcp: self.disable_dhcp,
            guestfwds: copy_of(&self.guestfwds),
            control: self.control,
            denied: copy_of(&self.denied),
            congestion: self.congestion,
        }
    }

    /// How many addresses the virtual network has.
    pub fn network_size(&self) -> u64
        ensures exact { result ≡ network_size (settings self.now) }
        ensures some { 0 < result }
    {
        (1 << 32) - self.vnetmask.0 as u64
    }

    /// Whether the address is in the virtual network.
    pub fn is_inside(&self, a: u64) -> bool
        ensures { result ≡ in_network (settings self.now) a }
    {
        a / self.network_size() == self.vnetwork.0 as u64 / self.network_size()
    }

    /// Whether it is in the network, and neither its first nor its last address.
    pub fn is_of_one_host(&self, a: u64) -> bool
        ensures { result ≡ is_of_one_host (settings self.now) a }
    {
        let network = self.vnetwork.0 as u64;
        self.is_inside(a) && a != network && a != network + self.network_size() - 1
    }

    /// Whether it is the host's or the name server's.
    pub fn is_ours(&self, a: u64) -> bool
        ensures { result ≡ is_ours (settings self.now) a }
    {
        a == self.vhost.0 as u64 || a == self.vnameserver.0 as u64
    }

    /// Whether it is an address of one host, and not ours.
    pub fn is_guest(&self, a: u64) -> bool
        ensures { result ≡ is_guest (settings self.now) a }
    {
        self.is_of_one_host(a) && !self.is_ours(a)
    }
}

// A copy of a list.
fn copy_of<T: Copy + Default, const N: usize>(list: &ArrayVec<T, N>) -> ArrayVec<T, N>
    ensures { result.items ≡ list.now.items }
{
    let mut copy = ArrayVec::new();
    let _ = copy.try_extend_from_slice(list.as_slice());
    copy
}
