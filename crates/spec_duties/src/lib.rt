//! What a run of the network must do, beside what it may: it waits only where nothing that can be done is left.
//!
//! There is no code to run. The definitions stand in `specs/`, over the trace of calls, newest entry first; each function here is a law of every run that does what it
//! must, as those of the network do, and its contract is proved though its body is empty.
//!
//! Proved, at a wait:
//! - It waits for the link to take more exactly where that is blocked (`link`), for frames and datagrams where it isn't (`frames`, `datagrams`), for peers while
//!   there is room for one (`peers`), for a host's octets exactly where the ring has room (`takes`, `full`), for a host to take octets where something was acknowledged
//!   that it hasn't (`gives`), and for nothing else (`nothing_else_read`, `nothing_else_written`): `a_run_waits_for_all_that_it_can_take`.
//! - Unless the link is blocked, all is out that *Out* and *Settled* in docs/DEFINITIONS.md ask for: the answer to what came last (`answer`), packets of files that
//!   go again (`files`), what was read, as far as the guest takes it (`octets`), acknowledgements (`acknowledged`, of a conforming guest; `answered`), resets
//!   (`reset`), our SYN or a request for the guest's hardware address (`opens`, `calls`), news of the room (`told`), and in TIME-WAIT the last end's acknowledgement
//!   (`time_waits`): `a_run_waits_only_where_all_is_out`.
//! - Unless the link is blocked, the oldest number under way of a flow went out, or the one before it was acknowledged, less than 60,000 ms ago
//!   (`what_is_under_way_goes_again_within_a_minute`); within that time a guest that a peer calls was asked for its hardware address, if that isn't known
//!   (`a_guest_is_asked_again_within_a_minute`), and something happened to a flow whose guest's window is closed (`a_closed_window_is_asked_about_within_a_minute`). A
//!   guest that says nothing was called nine times at most (`a_guest_that_says_nothing_is_called_nine_times`).
//! - No socket for datagrams is open past its idle life (`no_socket_is_kept_past_its_life`: `associations`, `questions`), no host has been connecting for 75,000 ms,
//!   no deserted flow is past its patience, unless a segment of its guest stands unanswered, and flows of conforming guests of which both ends passed are closed
//!   (`no_flow_is_kept_that_is_done`: `connects`, `deserted`, `done`).
//! - A wait ends by each of the `deadlines` (`until`), isn't cut short but for one of the `alarms` (`from`), both in docs/DEFINITIONS.md, and is never of no time
//!   (`some_time`): `a_wait_ends_in_time`. One for a guest's hardware address may be cut short from a second after the accept on.
//!
//! From wait to wait:
//! - What a wait wanted and reported is served before the next, if it is waited for all the while: a frame is read to its end, or nothing comes of it; a peer, octets
//!   or a datagram are asked for; a host is asked whether it has connected, gets octets, or is told the end (`each_report_is_served`: `reading`, `writing`).
//! - A trace goes on to be dutiful by calls that don't wait, and a wait that is as it must be (`duties_are_kept_from_wait_to_wait`).
//! - The test passes nothing else (`tests_are_sound`). Wrong calls are refuted in proofs/Rows and on.
//!
//! Neither: when what has to go out while the link is blocked goes out.
#![tactic(auto)]

ghost use Rattle.std.specs.Prelude.{◌≡◌, ℕ, ◌+◌, ◌≤◌, ◌<◌, ◌&&◌, ◌||◌, not, nat_lt, Bool, List, ◌∷◌, ◌++◌, true, false, length, min, Contains, Option, Some, None, IsTrue};
ghost use Rattle.poll_list.specs.Listing.{reads, writes};
ghost use Rattle.poll_list.specs.declared.Want.{Want};
ghost use Rattle.poll_list.specs.declared.Who.{Who};
ghost use Rattle.poll_list.specs.declared.Who.TheVariants.{Link, Listener, Tcp, Udp};
ghost use Rattle.world_face.specs.Frames.{is_blocked};
ghost use Rattle.world_face.specs.Journal.{Entry, Wait};
ghost use Rattle.world_face.specs.declared.Waited.{Waited};
ghost use Rattle.slirp_settings.specs.Addresses.{Config};
ghost use Rattle.spec_trace.specs.Moments.{moment, waits};
ghost use Rattle.spec_trace.specs.Sockets.{is_among};
ghost use Rattle.spec_flow.specs.Close.{asked_at, is_deserted, is_done, last_at, owes_reset, patience_end, times_asked};
ghost use Rattle.spec_flow.specs.Dutiful.{ToldRoom, fin_is_answered, must_wait_to_write, oldest_unheard, resolves_guest, waits_for_window, waits_since, waits_to_read};
ghost use Rattle.spec_flow.specs.Event.{newest_moment};
ghost use Rattle.spec_flow.specs.Flow.{guest, has_connected, host, is_accepted, is_closed, is_connecting, is_under_way, opened_at, syn_is_out};
ghost use Rattle.spec_flow.specs.Guest.{AckIsDue, Asks, Conforming, ackd};
ghost use Rattle.spec_flow.specs.Host.{acked, answered, got, owned, sent};
ghost use Rattle.spec_flow.specs.Lawful.{is_prompted};
ghost use Rattle.spec_flow.specs.Windows.{edge};
ghost use Rattle.spec_flows.specs.Book.{book, scene};
ghost use Rattle.spec_flows.specs.Flows.{Flow, flow_of, guest_is_known};
ghost use Rattle.spec_flows.specs.Laws.{flow_settings};
ghost use Rattle.spec_run.specs.Answers.{may_go_again, serving};
ghost use Rattle.spec_run.specs.Laws.{is_all_out, takes_peers};
ghost use Rattle.spec_run.specs.Ports.{associations_open, used_at};
ghost use Rattle.spec_run.specs.Questions.{questions_open};
ghost use Rattle.spec_duties.specs.Check.{is_dutiful};
ghost use Rattle.spec_duties.specs.Duties.{Dutiful, MustWait, is_in_time_wait};
ghost use Rattle.spec_duties.specs.Said.{Throughout, some_reads, some_writes};
ghost use Rattle.spec_duties.specs.Times.{alarms, deadlines, wait_end};
ghost use Rattle.spec_duties.specs.Waiting.{MayBeWritten, is_read, is_written, takes_datagrams};

/// Where a run that does what it must waits and its link isn't blocked, the answer to what came last is out, and no packet of a file that
/// is to go again is left; so is all that was read for each guest, as far as that takes it; what came of a conforming guest and found room is
/// acknowledged, and each segment that asks for an acknowledgement got one; no reset is owed. Where a host has connected its SYN-ACK is out, and
/// a guest that a peer calls was sent our SYN, or asked for its hardware address. A guest was told of its room, but for less than two segments
/// (RFC 9293, 3.8.6.2.2), and in TIME-WAIT the last end was acknowledged (3.6.1).
pub fn a_run_waits_only_where_all_is_out()
    ensures answer { (config : Config) (later past : List Entry) (wants : List Want) (timeout : Option ℕ) (answer : Waited) (ready : List Want)
        → Dutiful config (later ++ Wait wants timeout answer ready ∷ past) → is_blocked past ≡ false → is_all_out config past ≡ true }
    ensures files { (config : Config) (later past : List Entry) (wants : List Want) (timeout : Option ℕ) (answer : Waited) (ready : List Want)
        → Dutiful config (later ++ Wait wants timeout answer ready ∷ past) → is_blocked past ≡ false → may_go_again (serving config past) ≡ None }
    ensures octets { (config : Config) (later past : List Entry) (wants : List Want) (timeout : Option ℕ) (answer : Waited) (ready : List Want) (socket : ℕ)
        (f : Flow)
        → Dutiful config (later ++ Wait wants timeout answer ready ∷ past) → is_blocked past ≡ false → flow_of socket (book config past).flows ≡ Some f
        → IsTrue (answered (host f.story) && not (is_closed f.story)) → min (edge (flow_settings config) f.story) (owned (host f.story)) ≤ sent (host f.story) }
    ensures acknowledged { (config : Config) (later past : List Entry) (wants : List Want) (timeout : Option ℕ) (answer : Waited) (ready : List Want)
        (socket : ℕ) (f : Flow)
        → Dutiful config (later ++ Wait wants timeout answer ready ∷ past) → is_blocked past ≡ false → flow_of socket (book config past).flows ≡ Some f
        → is_closed f.story ≡ false → Conforming (guest f.story) → (a : ℕ) → Asks config.ring (guest f.story) a → a ≤ ackd (guest f.story) }
    ensures reset { (config : Config) (later past : List Entry) (wants : List Want) (timeout : Option ℕ) (answer : Waited) (ready : List Want) (socket : ℕ)
        (f : Flow)
        → Dutiful config (later ++ Wait wants timeout answer ready ∷ past) → is_blocked past ≡ false → flow_of socket (book config past).flows ≡ Some f
        → owes_reset f.story ≡ false }
    ensures opens { (config : Config) (later past : List Entry) (wants : List Want) (timeout : Option ℕ) (answer : Waited) (ready : List Want)
        (socket : ℕ) (f : Flow)
        → Dutiful config (later ++ Wait wants timeout answer ready ∷ past) → is_blocked past ≡ false → flow_of socket (book config past).flows ≡ Some f
        → IsTrue (has_connected f.story && not (is_closed f.story)) → syn_is_out f.story ≡ true }
    ensures calls { (config : Config) (later past : List Entry) (wants : List Want) (timeout : Option ℕ) (answer : Waited) (ready : List Want)
        (socket : ℕ) (f : Flow)
        → Dutiful config (later ++ Wait wants timeout answer ready ∷ past) → is_blocked past ≡ false → flow_of socket (book config past).flows ≡ Some f
        → IsTrue (is_accepted f.story && not (is_closed f.story))
        → IsTrue (syn_is_out f.story || (not (guest_is_known (scene config past) f) && nat_lt 0 (times_asked f.story))) }
    ensures answered { (config : Config) (later past : List Entry) (wants : List Want) (timeout : Option ℕ) (answer : Waited) (ready : List Want)
        (socket : ℕ) (f : Flow)
        → Dutiful config (later ++ Wait wants timeout answer ready ∷ past) → is_blocked past ≡ false → flow_of socket (book config past).flows ≡ Some f
        → is_closed f.story ≡ false → AckIsDue (guest f.story) → ⊥ }
    ensures told { (config : Config) (later past : List Entry) (wants : List Want) (timeout : Option ℕ) (answer : Waited) (ready : List Want)
        (socket : ℕ) (f : Flow)
        → Dutiful config (later ++ Wait wants timeout answer ready ∷ past) → is_blocked past ≡ false → flow_of socket (book config past).flows ≡ Some f
        → ToldRoom (flow_settings config) f.story }
    ensures time_waits { (config : Config) (later past : List Entry) (wants : List Want) (timeout : Option ℕ) (answer : Waited) (ready : List Want)
        (socket : ℕ) (f : Flow)
        → Dutiful config (later ++ Wait wants timeout answer ready ∷ past) → is_blocked past ≡ false → flow_of socket (book config past).flows ≡ Some f
        → is_in_time_wait config past f ≡ true → fin_is_answered f.story ≡ true }
{}

/// A run that does what it must waits for its link to take more exactly where that is blocked, and for frames and datagrams wherever it
/// isn't; for peers of a port of the host that is given to a guest while there is room for the flow of one more; for octets of a host exactly where its ring has room
/// for some; and for a host to take octets wherever something was acknowledged
/// that it hasn't. It waits for nothing else.
pub fn a_run_waits_for_all_that_it_can_take()
    ensures link { (config : Config) (later past : List Entry) (wants : List Want) (timeout : Option ℕ) (answer : Waited) (ready : List Want)
        → Dutiful config (later ++ Wait wants timeout answer ready ∷ past) → writes Link wants ≡ is_blocked past }
    ensures frames { (config : Config) (later past : List Entry) (wants : List Want) (timeout : Option ℕ) (answer : Waited) (ready : List Want)
        → Dutiful config (later ++ Wait wants timeout answer ready ∷ past) → is_blocked past ≡ false → reads Link wants ≡ true }
    ensures datagrams { (config : Config) (later past : List Entry) (wants : List Want) (timeout : Option ℕ) (answer : Waited) (ready : List Want) (socket : ℕ)
        → Dutiful config (later ++ Wait wants timeout answer ready ∷ past) → is_blocked past ≡ false → takes_datagrams past socket ≡ true
        → reads (Udp socket) wants ≡ true }
    ensures peers { (config : Config) (later past : List Entry) (wants : List Want) (timeout : Option ℕ) (answer : Waited) (ready : List Want) (socket : ℕ)
        → Dutiful config (later ++ Wait wants timeout answer ready ∷ past) → takes_peers config past socket ≡ true → reads (Listener socket) wants ≡ true }
    ensures full { (config : Config) (later past : List Entry) (wants : List Want) (timeout : Option ℕ) (answer : Waited) (ready : List Want) (socket : ℕ)
        (f : Flow)
        → Dutiful config (later ++ Wait wants timeout answer ready ∷ past) → flow_of socket (book config past).flows ≡ Some f
        → acked (host f.story) + config.ring ≤ length (got (host f.story)) → reads (Tcp socket) wants ≡ false }
    ensures gives { (config : Config) (later past : List Entry) (wants : List Want) (timeout : Option ℕ) (answer : Waited) (ready : List Want) (socket : ℕ)
        (f : Flow)
        → Dutiful config (later ++ Wait wants timeout answer ready ∷ past) → flow_of socket (book config past).flows ≡ Some f
        → must_wait_to_write f.story ≡ true → writes (Tcp socket) wants ≡ true }
    ensures takes { (config : Config) (later past : List Entry) (wants : List Want) (timeout : Option ℕ) (answer : Waited) (ready : List Want) (socket : ℕ)
        (f : Flow)
        → Dutiful config (later ++ Wait wants timeout answer ready ∷ past) → flow_of socket (book config past).flows ≡ Some f
        → waits_to_read (flow_settings config) f.story ≡ true → reads (Tcp socket) wants ≡ true }
    ensures nothing_else_read { (config : Config) (later past : List Entry) (wants : List Want) (timeout : Option ℕ) (answer : Waited) (ready : List Want) (who : Who)
        → Dutiful config (later ++ Wait wants timeout answer ready ∷ past) → reads who wants ≡ true → is_read config past who ≡ true }
    ensures nothing_else_written { (config : Config) (later past : List Entry) (wants : List Want) (timeout : Option ℕ) (answer : Waited) (ready : List Want)
        (who : Who) → Dutiful config (later ++ Wait wants timeout answer ready ∷ past) → writes who wants ≡ true → MayBeWritten config past who }
{}

/// What a wait wanted and reported is served before the next wait, if it is waited for all the while: a frame is read to its end, or
/// nothing comes of it; a peer, octets or a datagram are asked for; a host that may take octets is asked whether it has connected, gets
/// octets, or is told the end.
pub fn each_report_is_served()
    ensures reading { (config : Config) (past made : List Entry) (who : Who) (wants later : List Want) (timeout next : Option ℕ) (answer after : Waited)
        (ready items : List Want)
        → Dutiful config (Wait later next after items ∷ made ++ Wait wants timeout answer ready ∷ past)
        → waits (made ++ Wait wants timeout answer ready ∷ past) ≡ waits (Wait wants timeout answer ready ∷ past) → reads who wants ≡ true
        → reads who ready ≡ true
        → Throughout (λ p. is_read config p who ≡ true) (Wait wants timeout answer ready ∷ past) made
        → some_reads who (Wait wants timeout answer ready ∷ past) made ≡ true }
    ensures writing { (config : Config) (past made : List Entry) (who : Who) (wants later : List Want) (timeout next : Option ℕ) (answer after : Waited)
        (ready items : List Want)
        → Dutiful config (Wait later next after items ∷ made ++ Wait wants timeout answer ready ∷ past)
        → waits (made ++ Wait wants timeout answer ready ∷ past) ≡ waits (Wait wants timeout answer ready ∷ past) → writes who wants ≡ true
        → writes who ready ≡ true
        → Throughout (λ p. is_written config p who ≡ true) (Wait wants timeout answer ready ∷ past) made → some_writes who made ≡ true }
{}

/// Where a run that does what it must waits, no socket of a guest's port was last used 240,000 ms ago or earlier, and none of a question
/// 10,000 ms ago or earlier: those are closed.
pub fn no_socket_is_kept_past_its_life()
    ensures associations { (config : Config) (later past : List Entry) (wants : List Want) (timeout : Option ℕ) (answer : Waited) (ready : List Want)
        (socket : ℕ)
        → Dutiful config (later ++ Wait wants timeout answer ready ∷ past) → is_among socket (associations_open config past) ≡ true
        → moment past < used_at socket past + 240000 }
    ensures questions { (config : Config) (later past : List Entry) (wants : List Want) (timeout : Option ℕ) (answer : Waited) (ready : List Want) (socket : ℕ)
        → Dutiful config (later ++ Wait wants timeout answer ready ∷ past) → is_among socket (questions_open config past) ≡ true
        → moment past < used_at socket past + 10000 }
{}

/// Where a run that does what it must waits, no host has been connecting for 75,000 ms; no flow whose peer is gone without an octet is open, unanswered by
/// its guest, a second after the accept and after our SYN went out last, where all that its guest sent was answered before this moment; and each flow of an
/// conforming guest of which both ends passed is closed.
pub fn no_flow_is_kept_that_is_done()
    ensures connects { (config : Config) (later past : List Entry) (wants : List Want) (timeout : Option ℕ) (answer : Waited) (ready : List Want) (socket : ℕ)
        (f : Flow)
        → Dutiful config (later ++ Wait wants timeout answer ready ∷ past) → flow_of socket (book config past).flows ≡ Some f
        → is_connecting f.story ≡ true → moment past < opened_at f.story + 75000 }
    ensures deserted { (config : Config) (later past : List Entry) (wants : List Want) (timeout : Option ℕ) (answer : Waited) (ready : List Want) (socket : ℕ)
        (f : Flow)
        → Dutiful config (later ++ Wait wants timeout answer ready ∷ past) → flow_of socket (book config past).flows ≡ Some f
        → is_deserted f.story ≡ true → is_prompted f.story ≡ false → last_at f.story < moment past → moment past < patience_end f.story }
    ensures done { (config : Config) (later past : List Entry) (wants : List Want) (timeout : Option ℕ) (answer : Waited) (ready : List Want) (socket : ℕ)
        (f : Flow)
        → Dutiful config (later ++ Wait wants timeout answer ready ∷ past) → flow_of socket (book config past).flows ≡ Some f
        → Conforming (guest f.story) → is_done f.story ≡ true → is_closed f.story ≡ true }
{}

/// Where a run that does what it must waits and its link isn't blocked, what is under way of a flow goes again within a minute: its oldest number
/// went out, or the one before it was acknowledged, less than 60,000 ms ago (RFC 6298, 2.5).
pub fn what_is_under_way_goes_again_within_a_minute()
    ensures { (config : Config) (later past : List Entry) (wants : List Want) (timeout : Option ℕ) (answer : Waited) (ready : List Want) (socket : ℕ)
        (f : Flow)
        → Dutiful config (later ++ Wait wants timeout answer ready ∷ past) → is_blocked past ≡ false → flow_of socket (book config past).flows ≡ Some f
        → IsTrue (is_under_way f.story && not (is_closed f.story)) → moment past < waits_since f.story + 60000 }
{}

/// Where a run that does what it must waits and its link isn't blocked, a guest that a peer's connection is to be opened to, and whose hardware address isn't
/// known, was asked for it less than 60,000 ms ago (RFC 826): it is asked again within a minute each time, or its flow is closed, which the laws allow
/// once nine requests went out and 243,000 ms passed (`finds_no_guest` of `spec_flow`).
pub fn a_guest_is_asked_again_within_a_minute()
    ensures { (config : Config) (later past : List Entry) (wants : List Want) (timeout : Option ℕ) (answer : Waited) (ready : List Want) (socket : ℕ)
        (f : Flow)
        → Dutiful config (later ++ Wait wants timeout answer ready ∷ past) → is_blocked past ≡ false → flow_of socket (book config past).flows ≡ Some f
        → IsTrue (resolves_guest f.story) → (0 < times_asked f.story) × (moment past < asked_at f.story + 60000) }
{}

/// Where a run that does what it must waits, a guest that says nothing was called nine times at most: since a segment of it came, the oldest number that it
/// didn't acknowledge, or our SYN, went out so often (RFC 9293, 3.8.3).
pub fn a_guest_that_says_nothing_is_called_nine_times()
    ensures { (config : Config) (later past : List Entry) (wants : List Want) (timeout : Option ℕ) (answer : Waited) (ready : List Want) (socket : ℕ)
        (f : Flow)
        → Dutiful config (later ++ Wait wants timeout answer ready ∷ past) → flow_of socket (book config past).flows ≡ Some f
        → is_closed f.story ≡ false → oldest_unheard f.story ≤ 9 }
{}

/// Where a run that does what it must waits and its link isn't blocked, a guest whose window is closed is asked within a minute whether it still is: octets or
/// the end of a host are left, none of them is under way, and the newest event of the flow is less than 60,000 ms ago (RFC 9293, 3.8.6.1).
pub fn a_closed_window_is_asked_about_within_a_minute()
    ensures { (config : Config) (later past : List Entry) (wants : List Want) (timeout : Option ℕ) (answer : Waited) (ready : List Want) (socket : ℕ)
        (f : Flow)
        → Dutiful config (later ++ Wait wants timeout answer ready ∷ past) → is_blocked past ≡ false → flow_of socket (book config past).flows ≡ Some f
        → waits_for_window f.story ≡ true → moment past < newest_moment f.story + 60000 }
{}

/// A wait ends in time for all that has a time, and isn't cut short but for that; and it lasts some time.
pub fn a_wait_ends_in_time()
    ensures some_time { (config : Config) (later past : List Entry) (wants : List Want) (timeout : Option ℕ) (answer : Waited) (ready : List Want)
        → Dutiful config (later ++ Wait wants timeout answer ready ∷ past) → timeout ≡ Some 0 → ⊥ }
    ensures until { (config : Config) (later past : List Entry) (wants : List Want) (timeout : Option ℕ) (answer : Waited) (ready : List Want) (m : ℕ)
        → Dutiful config (later ++ Wait wants timeout answer ready ∷ past) → Contains (deadlines config past) m
        → (t : ℕ) × (timeout ≡ Some t) × (moment past + t ≤ m) }
    ensures from { (config : Config) (later past : List Entry) (wants : List Want) (timeout : Option ℕ) (answer : Waited) (ready : List Want) (t : ℕ)
        → Dutiful config (later ++ Wait wants timeout answer ready ∷ past) → timeout ≡ Some t
        → (m : ℕ) × Contains (alarms config past) m × (m ≤ moment past + t) }
{}

/// How the duties of a run are shown: calls that don't wait leave those of waits kept, and a wait that is as it must be adds itself.
/// (That whatever brings one thing from another brings the duties too is the lemma `brings_on` of proofs/Going; that a run which
/// keeps two laws keeps both at each call is `keeps_both`.)
pub fn duties_are_kept_from_wait_to_wait()
    ensures calls { (config : Config) (made past : List Entry) → waits (made ++ past) ≡ waits past → Dutiful config past → Dutiful config (made ++ past) }
    ensures wait { (config : Config) (past : List Entry) (wants : List Want) (timeout : Option ℕ) (answer : Waited) (ready : List Want)
        → MustWait config past wants timeout → Dutiful config past → Dutiful config (Wait wants timeout answer ready ∷ past) }
{}

/// Where the test beside the duties holds, which computes, so do they. It asks of every guest what they ask of a conforming one.
pub fn tests_are_sound()
    ensures { (config : Config) (past : List Entry) → is_dutiful config past ≡ true → Dutiful config past }
{}
