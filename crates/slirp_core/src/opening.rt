// What of a network takes memory, opened before the rest is put beside it.
ghost use Rattle.std.specs.Prelude.{◌≡◌, [], IfOk, length};
ghost use Rattle.slirp_settings.specs.Ranges.{IsSound};
ghost use Rattle.slirp_settings.specs.Settings.{settings};
ghost use Rattle.rules_tftp.specs.Saying.{most_packet};
ghost use Rattle.slirp_core.specs.Numbers.{flows_for};
ghost use Rattle.slirp_core.specs.Services.{IsServer};

use ipv4_reasm::Reasm;
use net_octets::NoMemory;
use owed_frames::Outgoing;
use port_forward::Ports;
use rules_tftp::MOST_PACKET;
use slirp_settings::SlirpConfig;
use std::alloc::Global;
use tcp_flows::{Sizes, TcpFlows};
use tftp_server::Tftp;

// The frames that are owed, the fragments that wait to be joined, and room for a reply.
#[derive(Drop)]
pub(crate) struct Frames {
    pub(crate) outgoing: Outgoing,
    pub(crate) reasm: Reasm,
    pub(crate) message: Vec<u8>,
}

impl Frames {
    // Nothing is owed, and nothing waits.
    pub(crate) fn open(alloc: Global) -> Result<Frames, NoMemory>
        ensures outgoing { IfOk result (λ frames. frames.outgoing ≡ []) }
        ensures reasm { IfOk result (λ frames. frames.reasm ≡ []) }
        ensures message { IfOk result (λ frames. length frames.message.items ≡ most_packet) }
    {
        let Ok(message) = vec![in alloc; 0; MOST_PACKET] else {
            return Err(NoMemory);
        };
        let outgoing = Outgoing::open(alloc)?;
        let reasm = Reasm::open(alloc)?;
        Ok(Frames {
            outgoing,
            reasm,
            message,
        })
    }
}

// The flows of TCP, the ports of the host, and the server of files.
#[derive(Drop)]
pub(crate) struct Servers {
    pub(crate) flows: TcpFlows,
    pub(crate) forwards: Ports,
    pub(crate) files: Tftp,
}

impl Servers {
    // No flow was opened, no port is given, and no file is on its way.
    pub(crate) fn open(alloc: Global, c: &SlirpConfig) -> Result<Servers, NoMemory>
        requires { IsSound (settings c.now) }
        ensures flows { IfOk result (λ servers. servers.flows ≡ flows_for (settings c.now)) }
        ensures forwards { IfOk result (λ servers. servers.forwards ≡ []) }
        ensures files { IfOk result (λ servers. IsServer (settings c.now) servers.files) }
        ensures transfers { IfOk result (λ servers. servers.files.transfers ≡ []) }
    {
        let forwards = Ports::open(alloc)?;
        let files = Tftp::open(alloc, c)?;
        let flows = TcpFlows::open(alloc, &sizes_of(c))?;
        Ok(Servers {
            flows,
            forwards,
            files,
        })
    }
}

// What the settings say of flows.
fn sizes_of(c: &SlirpConfig) -> Sizes
    ensures { result ≡ record {
      slots = c.now.flows;
      ring = c.now.ring;
      mtu = c.now.if_mtu;
      mru = c.now.if_mru;
      congestion = c.now.congestion;
      vhost = c.now.vhost;
    } }
{
    Sizes {
        slots: c.flows as usize,
        ring: c.ring as usize,
        mtu: c.if_mtu,
        mru: c.if_mru,
        congestion: c.congestion,
        vhost: c.vhost,
    }
}
