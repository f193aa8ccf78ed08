// The files that guests get: a packet of a guest is served, and one that isn't acknowledged goes again (RFC 1350, 2).
ghost use Rattle.std.specs.Prelude.{[], ◌≡◌, ◌<◌, List, None, true, false};

use crate::datagrams::DatagramView;
use crate::network::Slirp;
use crate::sending::put_reply;
use world_face::World;

impl Slirp {
    ghost use Rattle.slirp_settings.specs.Addresses.{Config};
    ghost use Rattle.stream_netdev.specs.State.{LinkState};
    ghost use Rattle.rules_tftp.specs.Transfers.{next_again};
    ghost use Rattle.rules_tftp.proofs.Turning.{due_count};
    ghost use Rattle.world_face.specs.Journal.{Entry};
    ghost use Rattle.world_face.specs.Tells.{Brings, Makes};
    ghost use Rattle.slirp_core.specs.Datagrams.{datagram_of};
    ghost use Rattle.slirp_core.specs.Files.{ServesFile};
    ghost use Rattle.slirp_core.specs.Holds.{AsksFile, Holds, Standing, flowing};

    // A packet for the server of files is served: the calls on files that it asks for are made, one after another, and what the guest is told is owed from
    // now on (RFC 1350, 2 to 7).
    pub(crate) fn take_file<W: World>(&mut self, world: &mut W, datagram: &DatagramView<'_>)
        requires none { self.old.pending ≡ [] }
        ensures makes { (config : Config) (at : Standing) (link : LinkState) → Brings (W.tells world.old) (W.tells world.new)
            (AsksFile config at self.old self.old.flows link (datagram_of datagram.now)) (Holds config at self.new (flowing false self.new.flows) link) }
        // The calls are those that the packet asks for, and what comes of it is kept and told.
        ensures serves { Makes (W.tells world.old) (W.tells world.new) (ServesFile self.old (datagram_of datagram.now) self.new) }
        ensures others { self.new ≡ record self.old { pending = self.new.pending; transfers = self.new.transfers } }
    {
        let reply = self.files.packet(
            world,
            self.moment,
            datagram.from,
            datagram.mac,
            datagram.body,
            &mut self.message,
        );
        put_reply(
            &self.policy,
            self.sent,
            reply,
            &self.message,
            &mut self.outgoing,
        );
    }

    /// Where nothing is left to be sent the packet of a file that is due to go again is owed from now on, that of the longest unused transfer, and counted
    /// (RFC 1350, 2). Answers whether one is.
    pub fn send_again(&mut self) -> bool
        ensures holds { (config : Config) (at : Standing) (link : LinkState) (past : List Entry)
            → Holds config at self.old (flowing true self.old.flows) link past
            → Holds config at self.new (flowing true self.new.flows) link past }
        // One is due fewer.
        ensures fewer { result ≡ true → due_count self.new.moment self.new.transfers < due_count self.old.moment self.old.transfers }
        ensures none { result ≡ false → self.new.pending ≡ [] → next_again self.new.moment self.new.transfers ≡ None }
        // And what was left to be sent is as before.
        ensures still { result ≡ false → self.new.pending ≡ self.old.pending }
        ensures others { self.new ≡ record self.old { pending = self.new.pending; transfers = self.new.transfers } }
    {
        if self.pending() {
            return false;
        }
        if !self.files.has_transfers() {
            return false;
        }
        let reply = self.files.next_again(self.moment, &mut self.message);
        put_reply(
            &self.policy,
            self.sent,
            reply,
            &self.message,
            &mut self.outgoing,
        );
        self.pending()
    }
}
