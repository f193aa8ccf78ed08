// What asks for a hardware address, and its reply (RFC 826).
ghost use Rattle.std.specs.Prelude.{[], ◌≡◌};
ghost use Rattle.arp_table.specs.Arp.{arp_of};
ghost use Rattle.net_octets.specs.Octets.{our_mac};
ghost use Rattle.spec_run.specs.Answers.{owed_for_arp};
ghost use Rattle.slirp_core.specs.Packets.{packets_of};

use crate::network::Slirp;
use arp_table::{ArpView, EVERYONE, asking};
use host_policy::Policy;
use net_octets::{Ip4, Mac};

impl Slirp {
    ghost use Rattle.arp_table.specs.Arp.{read_arp};
    ghost use Rattle.slirp_core.specs.Packets.{with_arp};
    ghost use Rattle.std.specs.Prelude.{◌∷◌};
    ghost use Rattle.spec_run.specs.Answers.{ArpAnswer, frames_of, request};
    ghost use Rattle.arp_table.specs.Arp.{everyone};
    ghost use Rattle.slirp_core.specs.Packets.{owed_for};

    // Takes in an ARP packet.
    pub(crate) fn take_arp(&mut self, body: &[u8])
        requires { self.old.pending ≡ [] }
        ensures { self.new ≡ record self.old {
          pending = frames_of self.old.config self.old.sent (owed_for (owed_for_arp self.old.config) (read_arp body.now));
          known = with_arp self.old.config (read_arp body.now) self.old.known;
        } }
    {
        let Ok(packet) = arp_table::decode(body) else {
            return;
        };
        self.learn(packet.sender_ip, packet.sender_mac);
        if let Some(reply) = arp_reply(&self.policy, &packet) {
            self.outgoing.put_arp(reply.target_mac, &reply);
        }
    }

    // The virtual host asks everyone for the hardware address of a guest, from now on.
    pub(crate) fn ask_for(&mut self, guest: Ip4)
        ensures { self.new ≡ record self.old { pending = frames_of self.old.config self.old.sent (ArpAnswer everyone (request self.old.config guest.0) ∷ []) } }
    {
        let request = asking(self.policy.vhost(), guest);
        self.outgoing.put_arp(EVERYONE, &request);
    }
}

// The answer that an ARP packet asks for.
fn arp_reply(policy: &Policy, packet: &ArpView) -> Option<ArpView>
    ensures { packets_of result ≡ owed_for_arp policy.now (arp_of packet.now) }
{
    if packet.reply || !policy.answers_for(packet.target_ip) {
        return None;
    }
    Some(ArpView {
        reply: true,
        sender_mac: Mac::of_ours(packet.target_ip),
        sender_ip: packet.target_ip,
        target_mac: packet.sender_mac,
        target_ip: packet.sender_ip,
    })
}
