//! The flows of TCP in a run: which there are, what happened to each, and what a run may do with them.
//!
//! There is no code to run. The definitions stand in `specs/`, over the trace of calls, newest entry first: `Doings` says what an entry is to flows, `Book` which flows
//! there are and which of them are in TIME-WAIT (one fold over the trace), `SegmentVerdicts` what a segment asks for, `Laws` which call may come next. A flow is opened by a
//! connect, or by a peer that is accepted; a segment is one of the flow that was opened last on its two ends. The story of a flow is that of `spec_flow`, so each law
//! of one flow holds of each flow of a run.
//!
//! Each function here is a law of every run in which each call was one that may follow its past, and its contract is proved though its body is empty. Every beginning
//! of such a run is one, so each law holds at every moment. A guest *conforms* where it gives one octet to each number of its stream and has one end with nothing past
//! it.
//!
//! Proved, of the flows of every trace whose calls flows allow, each after its past (`KeepsFlows`), as of each lawful run:
//! - Each flow keeps the law of one flow and is dutiful, and no two have one socket (`each_flow_keeps_the_law_of_one`). What happens to other flows leaves a flow as
//!   it is (`other_flows_change_nothing`).
//! - So the laws of one flow hold by the calls of the trace: `hosts_get_what_their_guests_sent`, `hosts_are_ended_after_every_octet`,
//!   `guests_get_what_was_read_for_them`, `guests_are_ended_after_every_octet`, `what_is_acknowledged_came`, `acknowledged_octets_found_room`,
//!   `nothing_goes_out_before_the_host_connected`, `reads_ask_for_all_that_there_is_room_for`, `flows_are_closed_for_a_cause`, `flows_reset_their_guest_for_a_cause`,
//!   `connects_follow_their_syn_to_the_policys_target`.
//! - A guest's SYN is answered by a reset at once only where the policy denies its destination, and ignored only where that is of many or there is no room
//!   (`syns_are_denied_or_ignored_for_a_reason`). Only then the quietest flow that may gives way, and is closed by the next call (`the_quietest_gives_way_to_a_syn`,
//!   `MayFlow`).
#![tactic(auto)]

ghost use Rattle.std.specs.Prelude.{◌≡◌, ℕ, ◌+◌, ◌<◌, ◌≤◌, ◌++◌, ◌||◌, ◌⊎◌, List, ◌∷◌, length, true, false, Bool, IsTrue, Some, slice_get};
ghost use Rattle.net_octets.specs.declared.Endpoint.{Endpoint};
ghost use Rattle.world_face.specs.Journal.{Entry, Close, Connect, TcpRead};
ghost use Rattle.world_face.specs.declared.Io.{Io};
ghost use Rattle.world_face.specs.declared.Made.{Made};
ghost use Rattle.slirp_settings.specs.Addresses.{Config};
ghost use Rattle.seq_space.specs.Places.{number_of};
ghost use Rattle.spec_flow.specs.Event.{IsStory};
ghost use Rattle.spec_flow.specs.Flow.{guest, host, their_number, has_connected, is_accepted};
ghost use Rattle.spec_flow.specs.Guest.{Conforming, HasCome, IsAcknowledged, ackd, front, has_ended};
ghost use Rattle.spec_flow.specs.Host.{Gave, got_end, end_is_out};
ghost use Rattle.spec_flow.specs.Close.{owes_reset};
ghost use Rattle.spec_flow.specs.Dutiful.{IsDutiful, read_size};
ghost use Rattle.spec_flow.specs.Lawful.{HasCause, IsLawful, IsPrefixOf};
ghost use Rattle.spec_flow.specs.Said.{CameAt, closed_as_failed, reset_is_out, something_is_out};
ghost use Rattle.spec_trace.specs.Moments.{moment};
ghost use Rattle.spec_trace.specs.Happenings.{happens};
ghost use Rattle.spec_flows.specs.Book.{book, heard, scene, story};
ghost use Rattle.spec_flows.specs.Flows.{Book, Flow, comes_directly, comes_last, flow_of, guest_is_known};
ghost use Rattle.spec_flows.specs.Laws.{flow_settings, KeepsFlows};
ghost use Rattle.spec_flows.specs.Doings.{Comes, doing};
ghost use Rattle.spec_flows.specs.SegmentVerdicts.{Dropped, NeedsRoom, giving_way, is_opening, is_reset, segment_verdict};
ghost use Rattle.spec_flows.specs.Said.{ConnectsAsAsked, Differ, IsDenied, IsIgnored, IsQuietest, given_on, taken_on};
ghost use Rattle.spec_flows.specs.Segments.{OnTuple, segment_came};
ghost use Rattle.spec_flows.specs.Touching.{AreApart};

use net_octets::Endpoint;

/// The two ends of a flow: the guest's, and the other that the guest sees.
#[derive(Clone, Copy, Debug, PartialEq, Eq)]
pub struct Tuple {
    pub guest: Endpoint,
    pub other: Endpoint,
}

/// Each flow of a run keeps the law of one flow: its story begins with what opened it, and whatever was done for it was allowed
/// by what had happened to it, and done as it must be: each segment told the room that was left, each write offered all that was
/// acknowledged, and nothing but the close was done after a reset at the next number. No two flows have one socket.
pub fn each_flow_keeps_the_law_of_one()
    ensures story { (config : Config) (past : List Entry) (socket : ℕ) (f : Flow) → KeepsFlows config past
        → flow_of socket (book config past).flows ≡ Some f → IsStory (story config past socket) }
    ensures lawful { (config : Config) (past : List Entry) (socket : ℕ) → KeepsFlows config past
        → IsLawful (flow_settings config) (story config past socket) }
    ensures dutiful { (config : Config) (past : List Entry) (socket : ℕ) → KeepsFlows config past
        → IsDutiful (flow_settings config) (story config past socket) }
    ensures differ { (config : Config) (past : List Entry) → KeepsFlows config past → Differ (book config past).flows }
{}

/// A host is asked for all the octets that there is room for, 16,384 at most.
pub fn reads_ask_for_all_that_there_is_room_for()
    ensures { (config : Config) (past : List Entry) (socket asked : ℕ) (answer : Io) (octets : List ℕ) (f : Flow)
        → KeepsFlows config (TcpRead socket asked answer octets ∷ past) → flow_of socket (book config past).flows ≡ Some f
        → asked ≡ read_size (flow_settings config) f.story }
{}

/// What a host's socket took is a prefix of what the guest of its flow sent, and whatever the guest does each octet came from
/// the guest at the number that stands for its place after the guest's SYN, modulo 2^32 (RFC 9293, 3.4).
pub fn hosts_get_what_their_guests_sent()
    ensures prefix { (config : Config) (past : List Entry) (socket : ℕ) → KeepsFlows config past
        → Conforming (guest (story config past socket)) → IsPrefixOf (taken_on socket past) (front (guest (story config past socket))) }
    ensures came { (config : Config) (past : List Entry) (socket : ℕ) (f : Flow) → KeepsFlows config past
        → flow_of socket (book config past).flows ≡ Some f → (i x : ℕ) → slice_get (taken_on socket past) i ≡ Some x
        → (n : ℕ) × (their_number (story config past socket) ≡ Some n) × CameAt (story config past socket) (number_of n i) x }
{}

/// A host is told the guest's end after every octet: it took all that the guest sent.
pub fn hosts_are_ended_after_every_octet()
    ensures { (config : Config) (past : List Entry) (socket : ℕ) → KeepsFlows config past
        → Conforming (guest (story config past socket)) → has_ended (guest (story config past socket)) ≡ true
        → taken_on socket past ≡ front (guest (story config past socket)) }
{}

/// What went to a guest at a place of the host's stream was read there on the socket of its flow, whatever the guest does.
pub fn guests_get_what_was_read_for_them()
    ensures { (config : Config) (past : List Entry) (socket : ℕ) → KeepsFlows config past
        → (i x : ℕ) → Gave (host (story config past socket)) i x → slice_get (given_on socket past) i ≡ Some x }
{}

/// A guest is told the host's end after every octet: where our FIN went out the host's end was read, and all that was read on
/// the socket went out.
pub fn guests_are_ended_after_every_octet()
    ensures end { (config : Config) (past : List Entry) (socket : ℕ) → KeepsFlows config past
        → end_is_out (host (story config past socket)) ≡ true → got_end (host (story config past socket)) ≡ true }
    ensures all { (config : Config) (past : List Entry) (socket : ℕ) → KeepsFlows config past
        → end_is_out (host (story config past socket)) ≡ true
        → (i : ℕ) → i < length (given_on socket past) → (x : ℕ) × Gave (host (story config past socket)) i x }
{}

/// What a guest was told that came did.
pub fn what_is_acknowledged_came()
    ensures { (config : Config) (past : List Entry) (socket : ℕ) → KeepsFlows config past
        → Conforming (guest (story config past socket))
        → HasCome (guest (story config past socket)) (ackd (guest (story config past socket))) }
{}

/// And it found room: what was acknowledged of a conforming guest's octets is no more than the socket of its flow took and the ring
/// holds.
pub fn acknowledged_octets_found_room()
    ensures { (config : Config) (past : List Entry) (socket : ℕ) → KeepsFlows config past
        → Conforming (guest (story config past socket)) → (a : ℕ) → IsAcknowledged (guest (story config past socket)) a
        → a ≤ length (taken_on socket past) + config.ring }
{}

/// A guest's SYN is answered only after the host connected: nothing but a reset goes out on a flow before, unless a peer's
/// connection was accepted.
pub fn nothing_goes_out_before_the_host_connected()
    ensures { (config : Config) (past : List Entry) (socket : ℕ) → KeepsFlows config past
        → IsTrue (something_is_out (story config past socket))
        → IsTrue (has_connected (story config past socket) || is_accepted (story config past socket)) }
{}

/// A socket connects directly after a guest's SYN, on a tuple that no flow has or stays in TIME-WAIT, where there is room for a flow more,
/// and to where the policy says that a connection to the SYN's destination goes. The SYN is what the newest entry brought.
pub fn connects_follow_their_syn_to_the_policys_target()
    ensures asked { (config : Config) (past : List Entry) (socket : ℕ) (to : Endpoint) (answer : Made)
        → KeepsFlows config (Connect socket to answer ∷ past) → ConnectsAsAsked config (book config past) to }
    ensures newest { (config : Config) (e : Entry) (past : List Entry) (on : OnTuple)
        → (book config (e ∷ past)).came ≡ Some on → segment_came (happens config past e).came ≡ Some on }
{}

/// What happens to other flows leaves a flow as it is: entries that open no flow with its number, and are no segment, call, close
/// or request of it, add nothing to its story.
pub fn other_flows_change_nothing()
    ensures { (config : Config) (socket : ℕ) (past made : List Entry) → AreApart config socket past made
        → story config (made ++ past) socket ≡ story config past socket }
{}

/// The socket of a flow is closed only for a cause: both ends passed and each side knows it, the guest reset the flow, a call on
/// the socket failed, the guest acknowledged nothing for 243,000 ms or its hardware address wasn't found, the host didn't connect
/// in 75,000 ms, a peer was gone without an octet and the guest didn't answer in a second, the flow had no sign of life for as
/// long as one has to that gives way to a SYN, or the run is over and this is the first of the open sockets.
pub fn flows_are_closed_for_a_cause()
    ensures { (config : Config) (past : List Entry) (socket : ℕ) (f : Flow) → KeepsFlows config (Close socket ∷ past)
        → flow_of socket (book config past).flows ≡ Some f
        → HasCause (comes_directly (book config past).came f) (comes_last (scene config past) f) (guest_is_known (scene config past) f)
        (moment past) f.story }
{}

/// A flow resets its guest only after it was closed since it had failed, and once.
pub fn flows_reset_their_guest_for_a_cause()
    ensures cause { (config : Config) (past : List Entry) (socket : ℕ) → KeepsFlows config past
        → IsTrue (reset_is_out (story config past socket)) → IsTrue (closed_as_failed (story config past socket)) }
    ensures once { (config : Config) (past : List Entry) (socket : ℕ) → KeepsFlows config past
        → IsTrue (reset_is_out (story config past socket)) → owes_reset (story config past socket) ≡ false }
{}

/// A guest's SYN is answered by a reset at once only where no flow on its two ends is in use or in TIME-WAIT, its destination is of one
/// host, and the policy denies it (RFC 9293, 3.10.7.1); and it is ignored only where its destination is of many, or as many flows
/// as may be are in use.
pub fn syns_are_denied_or_ignored_for_a_reason()
    ensures denied { (config : Config) (b : Book) (on : OnTuple) → is_opening on.segment ≡ true → is_reset config b on ≡ true
        → IsDenied config b on }
    ensures ignored { (config : Config) (b : Book) (on : OnTuple) → is_opening on.segment ≡ true
        → (segment_verdict config b on ≡ Dropped) ⊎ (segment_verdict config b on ≡ NeedsRoom) → IsIgnored config b on }
{}

/// A flow gives way to a guest's SYN alone, to one that finds as many flows in use as may be (RFC 5382, REQ-5). It had no sign of
/// life for its quiet time, and of all flows of which that is so none had its last sign of life earlier. It is doomed by the entry
/// that brings the SYN, so that the next entry closes its socket.
pub fn the_quietest_gives_way_to_a_syn()
    ensures syn { (config : Config) (now number : ℕ) (on : OnTuple) (b : Book) → giving_way config now on b ≡ Some number
        → segment_verdict config b on ≡ NeedsRoom }
    ensures quietest { (config : Config) (now number : ℕ) (on : OnTuple) (b : Book) → giving_way config now on b ≡ Some number
        → (f : Flow) × (f.number ≡ number) × IsQuietest now b.flows f }
    ensures doomed { (config : Config) (past : List Entry) (e : Entry) (on : OnTuple) → doing config past e ≡ Comes on
        → (book config (e ∷ past)).doomed ≡ giving_way config (moment past) on (heard (moment past) on (book config past)) }
{}
