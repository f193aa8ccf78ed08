// The UDP datagrams of guests, and what becomes of them.
ghost use Rattle.std.specs.Prelude.{◌≡◌, ◌≤◌, ◌||◌, ◌==◌, ◌&&◌, length, IfSome};
ghost use Rattle.std.specs.Option.{option_map};
ghost use Rattle.slirp_settings.specs.Addresses.{is_guest};
ghost use Rattle.ipv4_head.specs.Ip.{ip_of};
ghost use Rattle.slirp_core.specs.Packets.{udp_of};
ghost use Rattle.spec_trace.specs.Packets.{quoted};
ghost use Rattle.slirp_core.specs.Datagrams.{Lies, datagram_of};
ghost use Rattle.world_face.specs.Limits.{most_to_udp};
ghost use Rattle.slirp_settings.specs.Ports.{leases_port};

use dns_relay::is_question;
use host_policy::{Policy, Verdict};
use ipv4_head::IpView;
use net_octets::{Endpoint, Ip4, Mac, UDP_PROTO};
use slirp_settings::{FILES_PORT, LEASES_PORT, Proto};

/// The address of all hosts (RFC 919).
const ALL_HOSTS: Ip4 = Ip4(0xffff_ffff);

/// The octets of a payload that an unreachable quotes (RFC 792).
const QUOTED: usize = 8;

/// A datagram of a guest: the hardware address from which its frame came, its endpoints, its payload, and what an unreachable quotes of it.
#[derive(Clone, Copy)]
pub struct DatagramView<'a> {
    pub mac: Mac,
    pub from: Endpoint,
    pub to: Endpoint,
    pub body: &'a [u8],
    pub quote: &'a [u8],
}

/// What becomes of a datagram of a guest.
#[derive(Clone, Copy)]
pub enum DatagramVerdict {
    /// Nothing.
    Ignored,
    /// The guest is told that it may go nowhere.
    Refused,
    /// It is a message to the server of leases.
    Leases,
    /// It is a packet to the server of files.
    Files,
    /// It is a question to the name server, and goes to this resolver.
    Question(Endpoint),
    /// It goes out, to this endpoint.
    Out(Endpoint),
}

/// The datagram of UDP that a whole packet of a guest carries. `octets` are those of the packet: its header, its body and what else may follow.
pub fn datagram_in<'a>(
    policy: &Policy,
    mac: Mac,
    octets: &'a [u8],
    packet: &IpView<'a>,
) -> Option<DatagramView<'a>>
    requires { Lies octets.now packet.now.head.now packet.now.body.now }
    ensures datagram { option_map datagram_of result ≡ udp_of policy.now mac.0 (ip_of packet.now) }
    ensures quote { IfSome result (λ d. length d.quote.now ≤ 68) }
    ensures body { IfSome result (λ d. length d.body.now ≤ most_to_udp) }
{
    if packet.proto != UDP_PROTO {
        return None;
    }
    let Ok(udp) = udp_datagram::decode(packet.body, packet.from, packet.to) else {
        return None;
    };
    if !may_come(policy, packet.from, udp.to_port) {
        return None;
    }
    Some(DatagramView {
        mac,
        from: Endpoint {
            addr: packet.from,
            port: udp.from_port,
        },
        to: Endpoint {
            addr: packet.to,
            port: udp.to_port,
        },
        body: udp.body,
        quote: quote(octets, packet),
    })
}

// What an unreachable quotes of a packet: its header and the first octets of what it carries.
fn quote<'a>(octets: &'a [u8], packet: &IpView<'a>) -> &'a [u8]
    requires { Lies octets.now packet.now.head.now packet.now.body.now }
    ensures quoted { result.now ≡ quoted (ip_of packet.now) }
    ensures few { length result.now ≤ 68 }
{
    &octets[..packet.head.len() + packet.body.len().min(QUOTED)]
}

// Whether the source of a datagram to this port is a guest, or one without an address that asks for it.
fn may_come(policy: &Policy, from: Ip4, to_port: u16) -> bool
    ensures { result ≡ (is_guest policy.now from.0 || ((from.0 == 0) && (to_port == leases_port))) }
{
    policy.is_guest(from) || from == Ip4(0) && to_port == LEASES_PORT
}

impl DatagramVerdict {
    ghost use Rattle.spec_run.specs.Datagrams.{datagram_verdict, datagram_verdict_by};
    ghost use Rattle.slirp_core.specs.Datagrams.{IsNamed, datagram_verdict_of};

    /// What becomes of a datagram: nothing of one from port 0, nor of one to the server of leases where it isn't wanted; nor of one to the name server that is
    /// no question.
    pub fn of(policy: &Policy, datagram: &DatagramView<'_>) -> DatagramVerdict
        ensures datagram_verdict { datagram_verdict_of result ≡ datagram_verdict policy.now (datagram_of datagram.now) }
        ensures named { IsNamed policy.now datagram.now result }
    {
        let to = datagram.to;
        let ours = to.addr == policy.vhost();
        if datagram.from.port == 0 {
            DatagramVerdict::Ignored
        } else if to.port == LEASES_PORT && (ours || to.addr == ALL_HOSTS) {
            if policy.lends_addresses() {
                DatagramVerdict::Leases
            } else {
                DatagramVerdict::Ignored
            }
        } else if to.port == FILES_PORT && ours {
            DatagramVerdict::Files
        } else {
            DatagramVerdict::by(policy, datagram, policy.target(Proto::Udp, to))
        }
    }

    // What becomes of one that no server of ours takes: to the name server go questions alone.
    fn by(policy: &Policy, datagram: &DatagramView<'_>, verdict: Verdict) -> DatagramVerdict
        ensures datagram_verdict { datagram_verdict_of result ≡ datagram_verdict_by policy.now (datagram_of datagram.now) verdict }
        ensures named { IsNamed policy.now datagram.now result }
    {
        let Verdict::Go(to) = verdict else {
            return DatagramVerdict::Refused;
        };
        if !policy.is_name_server(datagram.to.addr) {
            DatagramVerdict::Out(to)
        } else if is_question(datagram.body) {
            DatagramVerdict::Question(to)
        } else {
            DatagramVerdict::Ignored
        }
    }
}
