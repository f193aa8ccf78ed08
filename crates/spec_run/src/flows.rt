//! What the flows of TCP of a lawful run come to, said of guests, their streams and the sockets that connected for them.
//!
//! A *flow* is a guest's connection with a socket of the host, and its story is what happened to it, the newest event first.
//! A guest is *conforming* where it gives one octet to each number of its stream and has one end with nothing past it; what holds
//! of every guest is said without that. `lawful_runs_keep_the_law_of_flows` is why each of these holds; what needs no lawful
//! run, as that what happens to other flows leaves a flow as it is, is a law of `spec_flows`.

ghost use Rattle.std.specs.Prelude.{◌≡◌, ℕ, ◌+◌, ◌<◌, ◌≤◌, ◌||◌, List, ◌∷◌, length, true, false, IsTrue, Some, slice_get};
ghost use Rattle.net_octets.specs.declared.Endpoint.{Endpoint};
ghost use Rattle.world_face.specs.Journal.{Entry, Close, Connect, TcpRead};
ghost use Rattle.world_face.specs.declared.Io.{Io};
ghost use Rattle.world_face.specs.declared.Made.{Made};
ghost use Rattle.slirp_settings.specs.Addresses.{Config};
ghost use Rattle.seq_space.specs.Places.{number_of};
ghost use Rattle.spec_flow.specs.Event.{IsStory};
ghost use Rattle.spec_flow.specs.Flow.{guest, host, their_number, has_connected, is_accepted};
ghost use Rattle.spec_flow.specs.Guest.{Conforming, HasCome, IsAcknowledged, ackd, front, has_ended};
ghost use Rattle.spec_flow.specs.Host.{Gave, end_is_out, got_end, sent};
ghost use Rattle.spec_flow.specs.Close.{owes_reset};
ghost use Rattle.spec_flow.specs.Dutiful.{IsDutiful, read_size};
ghost use Rattle.spec_flow.specs.Lawful.{HasCause, IsLawful, IsPrefixOf};
ghost use Rattle.spec_flow.specs.Said.{CameAt, closed_as_failed, reset_is_out, something_is_out};
ghost use Rattle.spec_trace.specs.Moments.{moment};
ghost use Rattle.spec_trace.specs.Happenings.{happens};
ghost use Rattle.spec_flows.specs.Book.{book, scene, story};
ghost use Rattle.spec_flows.specs.Flows.{Flow, comes_directly, comes_last, flow_of, guest_is_known};
ghost use Rattle.spec_flows.specs.Laws.{flow_settings};
ghost use Rattle.spec_flows.specs.Said.{ConnectsAsAsked, Differ, given_on, taken_on};
ghost use Rattle.spec_flows.specs.Segments.{OnTuple, segment_came};
ghost use Rattle.spec_run.specs.Laws.{Lawful};
ghost use Rattle.spec_run.specs.Peers.{IsForPeer};

/// Octets arrive in order and once, from guest to host: what a host's socket took is a prefix of what the guest of its flow
/// sent, and whatever the guest does each octet came from the guest at the number that stands for its place after the guest's
/// SYN, modulo 2^32 (RFC 9293, 3.4).
pub fn hosts_get_what_their_guests_sent()
    ensures prefix { (config : Config) (past : List Entry) (socket : ℕ) → Lawful config past
        → Conforming (guest (story config past socket)) → IsPrefixOf (taken_on socket past) (front (guest (story config past socket))) }
    ensures came { (config : Config) (past : List Entry) (socket : ℕ) (f : Flow) → Lawful config past
        → flow_of socket (book config past).flows ≡ Some f → (i x : ℕ) → slice_get (taken_on socket past) i ≡ Some x
        → (n : ℕ) × (their_number (story config past socket) ≡ Some n) × CameAt (story config past socket) (number_of n i) x }
{}

/// A host is told its guest's end after every octet: its socket took all that the guest sent.
pub fn hosts_are_ended_after_every_octet()
    ensures { (config : Config) (past : List Entry) (socket : ℕ) → Lawful config past
        → Conforming (guest (story config past socket)) → has_ended (guest (story config past socket)) ≡ true
        → taken_on socket past ≡ front (guest (story config past socket)) }
{}

/// Octets arrive in order and once, from host to guest, whatever the guest does: what went to a guest at a place of the host's
/// stream was read there on the socket of its flow, and no place before the end of what went out was left out.
pub fn guests_get_what_was_read_for_them()
    ensures read { (config : Config) (past : List Entry) (socket : ℕ) → Lawful config past
        → (i x : ℕ) → Gave (host (story config past socket)) i x → slice_get (given_on socket past) i ≡ Some x }
    ensures no_gap { (config : Config) (past : List Entry) (socket : ℕ) → Lawful config past
        → (i : ℕ) → i < sent (host (story config past socket)) → i < length (given_on socket past)
        → (x : ℕ) × Gave (host (story config past socket)) i x }
{}

/// A guest is told the host's end after every octet: where our FIN went out the host's end was read, and all that was read on
/// the socket went out.
pub fn guests_are_ended_after_every_octet()
    ensures end { (config : Config) (past : List Entry) (socket : ℕ) → Lawful config past
        → end_is_out (host (story config past socket)) ≡ true → got_end (host (story config past socket)) ≡ true }
    ensures all { (config : Config) (past : List Entry) (socket : ℕ) → Lawful config past
        → end_is_out (host (story config past socket)) ≡ true
        → (i : ℕ) → i < length (given_on socket past) → (x : ℕ) × Gave (host (story config past socket)) i x }
{}

/// What a conforming guest was told that came did.
pub fn what_is_acknowledged_came()
    ensures { (config : Config) (past : List Entry) (socket : ℕ) → Lawful config past
        → Conforming (guest (story config past socket))
        → HasCome (guest (story config past socket)) (ackd (guest (story config past socket))) }
{}

/// And it found room: what was acknowledged of a conforming guest's octets is no more than its host's socket took and the ring holds
/// (RFC 9293, 3.8.6).
pub fn acknowledged_octets_found_room()
    ensures { (config : Config) (past : List Entry) (socket : ℕ) → Lawful config past
        → Conforming (guest (story config past socket)) → (a : ℕ) → IsAcknowledged (guest (story config past socket)) a
        → a ≤ length (taken_on socket past) + config.ring }
{}

/// A guest's SYN is answered only after the host connected: nothing but a reset goes out on a flow before, unless a peer's
/// connection was accepted (RFC 9293, 3.5).
pub fn nothing_goes_out_before_the_host_connected()
    ensures { (config : Config) (past : List Entry) (socket : ℕ) → Lawful config past
        → IsTrue (something_is_out (story config past socket))
        → IsTrue (has_connected (story config past socket) || is_accepted (story config past socket)) }
{}

/// A socket connects directly after a guest's SYN, which the entry before brought, on a tuple that no flow has or stays in TIME-WAIT,
/// where there is room for a flow more, and to where the policy says that a connection to the SYN's destination goes.
pub fn connects_follow_their_syn_to_the_policys_target()
    ensures asked { (config : Config) (past : List Entry) (socket : ℕ) (to : Endpoint) (answer : Made)
        → Lawful config (Connect socket to answer ∷ past) → ConnectsAsAsked config (book config past) to }
    ensures newest { (config : Config) (e : Entry) (past : List Entry) (socket : ℕ) (to : Endpoint) (answer : Made)
        → Lawful config (Connect socket to answer ∷ (e ∷ past))
        → (on : OnTuple) × ((book config (e ∷ past)).came ≡ Some on) × (segment_came (happens config past e).came ≡ Some on) }
{}

/// A connection that was accepted at a port of the host is one with the guest to which that port is given, and with a
/// peer that the guest sees as the policy shows it: at its own address, or at the virtual host's where that is in 127/8. No
/// peer passes for another address of the network.
pub fn peers_reach_the_guest_that_the_settings_name()
    ensures { (config : Config) (past : List Entry) (socket : ℕ) (f : Flow) → Lawful config past → flow_of socket (book config past).flows ≡ Some f
        → is_accepted f.story ≡ true → IsForPeer config f.tuple }
{}

/// The socket of a flow is closed only for a cause: both ends passed and each side knows it, the guest reset the flow, a call on
/// the socket failed, the guest acknowledged nothing for 243,000 ms or its hardware address wasn't found, the host didn't connect
/// in 75,000 ms, the peer had ended without an octet and the guest didn't answer in time (`is_deserted`, `patience_end`), the run
/// is over and this is the first of the open sockets, or the flow was without a sign of life for its `quiet_time` (RFC 5382,
/// REQ-5) and gives way to a guest's SYN.
pub fn flows_are_closed_for_a_cause()
    ensures { (config : Config) (past : List Entry) (socket : ℕ) (f : Flow) → Lawful config (Close socket ∷ past)
        → flow_of socket (book config past).flows ≡ Some f
        → HasCause (comes_directly (book config past).came f) (comes_last (scene config past) f) (guest_is_known (scene config past) f)
        (moment past) f.story }
{}

/// A flow resets its guest only after it was closed since it had failed, and once (RFC 9293, 3.10.7).
pub fn flows_reset_their_guest_for_a_cause()
    ensures cause { (config : Config) (past : List Entry) (socket : ℕ) → Lawful config past
        → IsTrue (reset_is_out (story config past socket)) → IsTrue (closed_as_failed (story config past socket)) }
    ensures once { (config : Config) (past : List Entry) (socket : ℕ) → Lawful config past
        → IsTrue (reset_is_out (story config past socket)) → owes_reset (story config past socket) ≡ false }
{}

/// A host is asked for all the octets that there is room for, 16,384 at most.
pub fn reads_ask_for_all_that_there_is_room_for()
    ensures { (config : Config) (past : List Entry) (socket asked : ℕ) (answer : Io) (octets : List ℕ) (f : Flow)
        → Lawful config (TcpRead socket asked answer octets ∷ past) → flow_of socket (book config past).flows ≡ Some f
        → asked ≡ read_size (flow_settings config) f.story }
{}

/// Each flow of a run keeps the law of one flow: its story begins with what opened it, and whatever was done for it was allowed
/// by what had happened to it, and done as it must be: each segment told the room that was left, each write offered all that was
/// acknowledged, and nothing but the close was done after a reset at the next number. No two flows have one socket.
pub fn each_flow_keeps_the_law_of_one()
    ensures story { (config : Config) (past : List Entry) (socket : ℕ) (f : Flow) → Lawful config past
        → flow_of socket (book config past).flows ≡ Some f → IsStory (story config past socket) }
    ensures lawful { (config : Config) (past : List Entry) (socket : ℕ) → Lawful config past
        → IsLawful (flow_settings config) (story config past socket) }
    ensures dutiful { (config : Config) (past : List Entry) (socket : ℕ) → Lawful config past
        → IsDutiful (flow_settings config) (story config past socket) }
    ensures differ { (config : Config) (past : List Entry) → Lawful config past → Differ (book config past).flows }
{}
