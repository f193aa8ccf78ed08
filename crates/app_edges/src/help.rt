// What the program tells of itself.
#![tactic(auto, using(world_face::proofs::Putting::puts_then, world_face::proofs::Putting::puts_failed, replay::proofs::Putting::added_none))]

ghost use Rattle.std.specs.Prelude.{◌≡◌, codes};
ghost use Rattle.world_face.specs.Puts.{Puts};
ghost use Rattle.app_edges.specs.Texts.{help_text, version_text};

use world_face::{Failed, Sink};

/// The version of the program.
const VERSION: &[u8] = b"slirpd 0.9.0\n";

/// How the words are written: the commands, each option by its group, and the forms of a RULE.
const HELP: &str = concat!(
    "usage: slirpd serve --link AT [OPTIONS] [RULE]...\n",
    "       slirpd replay FILE [OPTIONS] [RULE]...\n",
    "       slirpd drive NUMBER OCTETS\n",
    "An option is --name VALUE or --name=VALUE; in parentheses stands what is usual.\n",
    "A is an IPv4 address, N a number, T a text of at most 127 octets.\n",
    "Link:\n",
    "  --link AT             serve: where to listen, unix:PATH or tcp:A:PORT\n",
    "  --record              serve: put each call with its answer, for replay\n",
    "  --capture             serve: put the frames of the link, classic pcap\n",
    "  --mtu N               the longest datagram to the guest, 576 to 1500 (1500)\n",
    "  --mru N               the longest datagram from it, 576 to 9216 (1500)\n",
    "Network:\n",
    "  --net A/N             the network, N from 8 to 27 (10.0.2.0/24)\n",
    "  --host A              the host's address in it (.2)\n",
    "  --dns A               the name server's address in it (.3)\n",
    "  --dhcpstart A         the first of 16 addresses for DHCP (.15)\n",
    "  --restrict            nothing leaves the network\n",
    "  --no-loopback         nothing reaches the host's loopback\n",
    "  --deny A/N            guests don't reach this network, up to 8 times (none)\n",
    "  --outbound A          the host's address from which datagrams go out (any)\n",
    "Services:\n",
    "  --resolver A:PORT     who answers questions to the name server (none)\n",
    "  --no-dns              nothing goes to the name server\n",
    "  --no-dhcp             answer nothing at the port of DHCP\n",
    "  --hostname T          the guest's name, told by DHCP\n",
    "  --domainname T        the guest's domain, told by DHCP\n",
    "  --tftp FOLDER         the folder whose files a guest may fetch (none)\n",
    "  --tftp-server-name T  the name of the server to boot from, told by DHCP\n",
    "  --bootfile T          the file to boot, told by DHCP\n",
    "Forwards:\n",
    "  RULE, up to 32        [hostfwd=][tcp|udp]:[A]:PORT-[A]:PORT\n",
    "                        a port of the host leads to a port of a guest, as\n",
    "                        tcp:127.0.0.1:2222-:22\n",
    "  RULE, up to 16        guestfwd=[tcp]:A:PORT-A:PORT\n",
    "                        a port of the network leads to one the host reaches, as\n",
    "                        guestfwd=:10.0.2.100:8000-127.0.0.1:8000\n",
    "  --control A:PORT      where to take commands that add and remove forwards\n",
    "Limits:\n",
    "  --flows N             connections at once, 1 to 4096 (256)\n",
    "  --ring N              octets of a connection's buffer in each direction,\n",
    "                        65535 to 1048576 (65535)\n",
    "  --turns N             how often the run may wait, 1 to 17592186044416 (2^44)\n",
    "  --congestion          bound what is under way by a congestion window\n",
    "Alone:\n",
    "  --help, help          this\n",
    "  --version             the version\n",
);

/// Puts how the words are written.
pub fn put_help<K: Sink>(out: &mut K) -> Result<(), Failed>
    ensures { Puts (K.holds out.old) (K.holds out.new) (K.faults out.old) (K.faults out.new) help_text result }
{
    out.put(HELP.as_bytes())
}

/// Puts the program's name and version.
pub fn put_version<K: Sink>(out: &mut K) -> Result<(), Failed>
    ensures { Puts (K.holds out.old) (K.holds out.new) (K.faults out.old) (K.faults out.new) version_text result }
{
    out.put(VERSION)
}
