// Echo requests and their replies, and what tells a guest that its datagram goes nowhere (RFC 792).
ghost use Rattle.std.specs.Prelude.{[], ◌≡◌, ◌≤◌, length};
ghost use Rattle.ipv4_head.specs.Ip.{ip_of};
ghost use Rattle.slirp_core.specs.Packets.{is_message_to_us};
ghost use Rattle.slirp_core.specs.Packets.{reply_to};
ghost use Rattle.net_octets.specs.Sizes.{most_carried};

use crate::datagrams::DatagramView;
use crate::network::Slirp;
use host_policy::Policy;
use icmp_echo::IcmpView;
use ipv4_head::IpView;
use net_octets::{ICMP_PROTO, Ip4, Mac};

/// Communication is prohibited (RFC 1122, 3.2.2.1).
pub(crate) const PROHIBITED: u8 = 10;

impl Slirp {
    ghost use Rattle.icmp_echo.specs.Icmp.{read_icmp};
    ghost use Rattle.spec_run.specs.Answers.{frames_of, owed_for_icmp, told_about};
    ghost use Rattle.slirp_core.specs.Packets.{owed_for};
    ghost use Rattle.slirp_core.specs.Datagrams.{datagram_of};

    // Takes in a datagram with a message to one of ours.
    pub(crate) fn take_icmp(&mut self, mac: Mac, datagram: &IpView<'_>)
        requires none { self.old.pending ≡ [] }
        requires size { length datagram.now.body.now ≤ most_carried }
        ensures { self.new ≡ record self.old {
          pending = frames_of self.old.config self.old.sent
              (owed_for (owed_for_icmp mac.0 (ip_of datagram.now)) (read_icmp datagram.now.body.now));
        } }
    {
        let Ok(message) = icmp_echo::decode(datagram.body) else {
            return;
        };
        if let Some(reply) = echo_reply(&message) {
            let course = self.course(mac, datagram.to, datagram.from);
            self.outgoing.put_message(&course, &reply);
        }
    }

    // A guest is told that its datagram can't reach its destination.
    pub(crate) fn tell_about(&mut self, code: u8, datagram: &DatagramView<'_>)
        requires none { self.old.pending ≡ [] }
        requires quote { length datagram.now.quote.now ≤ 68 }
        ensures { self.new ≡ record self.old {
          pending = frames_of self.old.config self.old.sent
              (told_about self.old.config code (datagram_of datagram.now));
        } }
    {
        if datagram.from.addr == Ip4(0) || self.policy.is_of_many(datagram.to.addr) {
            return;
        }
        let course = self.course(datagram.mac, self.policy.vhost(), datagram.from.addr);
        let message = IcmpView::Unreachable {
            code,
            quoted: datagram.quote,
        };
        self.outgoing.put_message(&course, &message);
    }
}

// The message that answers an echo request.
fn echo_reply<'a>(message: &IcmpView<'a>) -> Option<IcmpView<'a>>
    ensures { result ≡ reply_to message.now }
{
    match *message {
        IcmpView::Echo {
            reply: false,
            ident,
            number,
            body,
        } => Some(IcmpView::Echo {
            reply: true,
            ident,
            number,
            body,
        }),
        _ => None,
    }
}

// Whether a whole datagram is a guest's, to one of ours, with a message.
pub(crate) fn is_message_to_us(policy: &Policy, datagram: &IpView<'_>) -> bool
    ensures { result ≡ is_message_to_us policy.now (ip_of datagram.now) }
{
    datagram.proto == ICMP_PROTO && policy.is_guest(datagram.from) && policy.is_ours(datagram.to)
}
