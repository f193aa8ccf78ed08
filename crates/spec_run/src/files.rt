//! What a lawful run does with the files of the folder of its settings, said of guests' ports, of what they asked for, and of
//! what was read (RFC 1350; RFC 2347 to 2349).
//!
//! A *transfer* is a file on its way to a port of a guest. The server of files is port 69 of the virtual host. Moments and
//! timeouts are in milliseconds.

ghost use Rattle.std.specs.Prelude.{◌≡◌, ℕ, ◌^◌, ◌<◌, ◌≤◌, ◌⊎◌, List, ◌∷◌, true, Some};
ghost use Rattle.net_octets.specs.Kinds.{udp_proto};
ghost use Rattle.net_octets.specs.Octets.{two_at};
ghost use Rattle.world_face.specs.declared.FileSize.{FileSize};
ghost use Rattle.world_face.specs.declared.Io.{Io};
ghost use Rattle.world_face.specs.Journal.{Entry, AreAllowed, FileLen, FileRead};
ghost use Rattle.world_face.specs.Frames.{goes_out};
ghost use Rattle.slirp_settings.specs.Addresses.{Config};
ghost use Rattle.ipv4_head.specs.Ip.{Ip, is_unbroken};
ghost use Rattle.udp_datagram.specs.Udp.{Udp, read_udp};
ghost use Rattle.rules_tftp.specs.Transfers.{Said};
ghost use Rattle.spec_run.specs.Files.{IsAsTold, IsAskedFor, IsBlockAsRead, IsOfFiles, IsOnItsWay, ReadsWanted, goes_by, sent_again_by, told_by};
ghost use Rattle.spec_run.specs.Laws.{Lawful};
ghost use Rattle.spec_run.specs.Said.{Carries, HasPorts, IsReplyToItsPort};
ghost use Rattle.slirp_settings.specs.Ports.{files_port};

/// Files are read only as guests ask. The length is asked for only of a file for which the datagram that came last asks: of the
/// folder of the settings, `/` and a name without a part that is empty, `.` or `..`. Octets are read only of such a file, and
/// only those that are missing of one block: the first of a file for which the datagram that came last asks, or the next one of a
/// transfer that was open when it came, of which it acknowledges the block that was sent last.
pub fn files_are_read_as_guests_ask()
    ensures lengths { (config : Config) (past : List Entry) (name : List ℕ) (answer : FileSize)
        → Lawful config (FileLen name answer ∷ past) → IsAskedFor config past name }
    ensures octets { (config : Config) (past : List Entry) (name : List ℕ) (place asked : ℕ) (answer : Io) (octets : List ℕ)
        → Lawful config (FileRead name place asked answer octets ∷ past) → ReadsWanted config past name place asked }
{}

/// The octets of a block that a guest is told are those that were read for it, each at its place of the file, since the datagram
/// came that asked for it. A block is what has the opcode 3 (RFC 1350, 5).
pub fn blocks_have_the_octets_that_were_read()
    ensures { (config : Config) (e : Entry) (past : List Entry) (said : Said) → Lawful config (e ∷ past)
        → told_by config past e ≡ Some said → two_at said.octets 0 ≡ 3 → IsBlockAsRead config (e ∷ past) said }
{}

/// A packet that goes again wasn't acknowledged, and goes as it was told, at most five times, each no earlier than the timeout of
/// its transfer after the one before, or after it was told. The time runs from when it is sent on its way: by its first frame, or
/// by a wait, where the link takes nothing. Each time it goes out once.
pub fn packets_go_again_as_they_were()
    ensures as_told { (config : Config) (e : Entry) (past : List Entry) (said : Said) → Lawful config (e ∷ past)
        → sent_again_by config past e ≡ Some said → IsAsTold config e past said }
    ensures once { (config : Config) (e : Entry) (past : List Entry) (said : Said) → Lawful config (e ∷ past)
        → goes_by config past e ≡ Some said → (sent_again_by config past e ≡ Some said) ⊎ IsOnItsWay config past said }
{}

/// A datagram of UDP from port 69 of the virtual host answers the packet that came last, is made by what was read last, or goes
/// again; or it is what a peer of the host itself sent from its own port 69, which is shown so. A frame that goes out and is read
/// as one is such a one where each answer was one that a World may give.
pub fn the_server_of_files_answers_or_goes_again()
    ensures { (config : Config) (e : Entry) (past : List Entry) (frame : List ℕ) (ip : Ip) (udp : Udp) → 28 ≤ config.mtu
        → Lawful config (e ∷ past) → AreAllowed past → config.vhost < 2 ^ 32 → config.vnameserver < 2 ^ 32 → HasPorts config
        → goes_out e past ≡ Some frame → Carries frame ip → is_unbroken ip ≡ true → ip.proto ≡ udp_proto
        → read_udp ip.from ip.to ip.body ≡ Some udp → ip.from ≡ config.vhost → udp.from_port ≡ files_port
        → IsReplyToItsPort config past ip udp ⊎ IsOfFiles config e past frame }
{}
