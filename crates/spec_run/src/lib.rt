//! What a lawful run of the network is: definitions, and laws that follow from them.
//!
//! There is no code to run. The definitions stand in `specs/`, over the trace of calls, newest entry first; each function here is a law, said of guests, their ports,
//! their datagrams and the sockets that were opened for them, and its contract is proved though its body is empty. Every beginning of a lawful run is one, so each law
//! holds at every moment.
//!
//! Proved, of datagrams and sockets:
//! - What a peer sends reaches only the port of the guest that asked; any other frame of UDP to a guest answers its question or is a server of ours'
//!   (`replies_reach_only_the_port_that_asked`).
//! - A port of the host that is given to a guest leads where the settings say (`forwards_lead_where_the_settings_say`). It is opened there, or where a forward that
//!   was asked for says, and closed where it is taken back or at the end (`ports_are_opened_where_the_settings_say`: `listens`, `opens`, `closes`).
//! - What is sent is the whole payload of what a guest sent, on the socket of its port, to the target (`datagrams_sent_came_from_their_port`).
//! - No call on a socket leaves the policy, connects and accepts among them (`no_socket_leaves_the_policy`).
//! - The longest unused socket of a guest's port gives way, and no sooner (`the_longest_unused_gives_way`). That list in the order of use is that of the trace
//!   (`the_list_in_order_of_use_is_that_of_the_record`).
//! - No socket is used before it is open or after it was closed, and no number twice (`calls_are_on_open_sockets`).
//!
//! Of frames:
//! - Each frame that goes out is the next part of the answer to what came last, and those behind it stay, or nothing is left of it and the frame is a flow's own,
//!   asks for a guest's hardware address, or begins a file's packet that goes again (`each_frame_out_answers_the_last_arrival`).
//! - A flow's own frame is that of its segment, octet for octet, with no other option or flag (`flows_write_nothing_but_their_segment`), goes to the hardware address
//!   that was learnt last for its guest (`is_well_sent`), and holds no datagram longer than the MTU (`no_segment_of_a_flow_is_longer_than_the_mtu`).
//! - Identifications count up by datagrams, all parts of one have the same (`identifications_count_up`, `what_is_left_first_has_the_next_identification`).
//!
//! Of services:
//! - No client has two of the addresses that are leased, whatever was done (`no_client_has_two_addresses`). The answer that DHCP owes is the definition's function of
//!   the leases of the trace (`left`, `serving`). They are those of the messages that came, in order (`leases_are_those_of_the_messages_that_came`), so what
//!   `rules_dhcp` says of histories holds of runs.
//! - A file's length is asked for, and octets of it are read, only in the folder, by a name without a part that is empty, `.` or `..`, for which the datagram that
//!   came last asks, or of a transfer of which it acknowledges the block that was sent last (`files_are_read_as_guests_ask`: `lengths`, `octets`). A block that a guest
//!   is told has the octets that were read for it, each at its place (`blocks_have_the_octets_that_were_read`). A packet goes again as it was told, at most five times,
//!   each no earlier than its timeout after the one before, and each time once (`packets_go_again_as_they_were`: `as_told`, `once`). What comes from port 69 of the
//!   virtual host answers what came last, is made by what was read last, goes again, or is what a peer of the host sent from its own port 69
//!   (`the_server_of_files_answers_or_goes_again`).
//! - What is sent on the socket of a question is one, whole, and goes to the resolver alone (`questions_go_to_the_resolver_alone`). A datagram that a guest gets from
//!   port 53 of the name server is, whole, what came last from the resolver on the socket of a question of that very port, and has the identifier of a question that
//!   was sent from that port on that socket before (`answers_reach_only_the_port_that_asked`). After it the next call closes the socket
//!   (`an_answered_question_is_closed_next`). Each question has one open socket, and each of these one question (`each_question_has_a_socket_of_its_own`); before the
//!   end it is closed only for its answer, after 10,000 ms without use, or as the longest unused of 512 (`questions_wait_for_their_answer`).
//!
//! Of flows: all that `spec_flows` says holds of every lawful run (`lawful_runs_keep_the_law_of_flows`); most of it stands again in `flows`:
//! `hosts_get_what_their_guests_sent`, `hosts_are_ended_after_every_octet`, `guests_get_what_was_read_for_them`, `guests_are_ended_after_every_octet`,
//! `what_is_acknowledged_came`, `acknowledged_octets_found_room`, `nothing_goes_out_before_the_host_connected`, `connects_follow_their_syn_to_the_policys_target`,
//! `flows_are_closed_for_a_cause`, `flows_reset_their_guest_for_a_cause`, `reads_ask_for_all_that_there_is_room_for`, `each_flow_keeps_the_law_of_one`. Beside it a
//! connection that a peer opens is with the guest to which the settings give the port, and that guest sees the peer as the policy shows it
//! (`peers_reach_the_guest_that_the_settings_name`).
//!
//! Settings of which the check answers Ok are in the ranges that laws ask for (`sound_settings_meet_the_premises_of_the_laws`, `ports_of_settings_have_16_bits`).
//!
//! The test of lawfulness is sound, and written runs pass it; broken ones are refuted by the laws (proofs/FlowRows, LeaseRows, NameRows, ForwardRows, FileRows).
#![tactic(auto)]

pub mod files;
pub mod flows;
pub mod names;
pub mod settings;

ghost use Rattle.std.specs.Prelude.{◌≡◌, ℕ, ◌+◌, ◌-◌, ◌%◌, ◌^◌, ◌<◌, ◌≤◌, ◌⊎◌, ◌↔◌, ◌++◌};
ghost use Rattle.std.specs.Prelude.{List, [], ◌∷◌, length, true, false, Some, option_map};
ghost use Rattle.world_face.specs.declared.Accepted.{Accepted};
ghost use Rattle.world_face.specs.declared.Io.{Io};
ghost use Rattle.world_face.specs.declared.Joined.{Joined};
ghost use Rattle.world_face.specs.declared.Got.{Got};
ghost use Rattle.world_face.specs.declared.Made.{Made};
ghost use Rattle.world_face.specs.declared.Sent.{Sent};
ghost use Rattle.world_face.specs.Journal.{Entry, AreAllowed, Accept, Close, Connect, Connected, Listen};
ghost use Rattle.world_face.specs.Journal.{TcpEnd, TcpRead, TcpWrite, UdpOpen, UdpRecv, UdpSend};
ghost use Rattle.world_face.specs.Frames.{goes_out};
ghost use Rattle.net_octets.specs.declared.Endpoint.{Endpoint};
ghost use Rattle.net_octets.specs.Kinds.{udp_proto};
ghost use Rattle.slirp_settings.specs.Addresses.{Config};
ghost use Rattle.host_policy.specs.Targets.{target};
ghost use Rattle.slirp_settings.specs.declared.Proto.TheVariants.{Tcp, Udp};
ghost use Rattle.host_policy.specs.declared.Verdict.TheVariants.{Go};
ghost use Rattle.ipv4_head.specs.Ip.{Ip, is_unbroken};
ghost use Rattle.rules_udp.specs.declared.Association.{Association};
ghost use Rattle.udp_datagram.specs.Udp.{Udp as UdpFields, read_udp};
ghost use Rattle.rules_udp.specs.Associations.{idle_life, is_idle, numbered, numbers, socket_of};
ghost use Rattle.spec_trace.specs.Moments.{moment, waits};
ghost use Rattle.spec_trace.specs.Packets.{Datagram};
ghost use Rattle.spec_trace.specs.Shape.{GivesNone, is_ended};
ghost use Rattle.spec_trace.specs.Sockets.{first, is_among, is_association, kind_of, open_sockets, Forward, Listener};
ghost use Rattle.spec_flows.specs.Book.{book};
ghost use Rattle.spec_flows.specs.Laws.{KeepsFlows};
ghost use Rattle.spec_flows.specs.Said.{ConnectsAsAsked};
ghost use Rattle.spec_flows.specs.Segments.{OnTuple, segment_in};
ghost use Rattle.tcp_segment.specs.Tcp.{tcp_octets};
ghost use Rattle.spec_run.specs.Answers.{again_frames, datagrams_out, identification, is_first, left, serving, starts};
ghost use Rattle.spec_run.specs.Asking.{step};
ghost use Rattle.spec_run.specs.Errands.{errand_left};
ghost use Rattle.spec_run.specs.Names.{kind_for, questions};
ghost use Rattle.spec_run.specs.Relayed.{associations, step_for};
ghost use Rattle.rules_dhcp.specs.History.{answer_over, leases_over};
ghost use Rattle.rules_dhcp.specs.Leases.{IsOneToOne};
ghost use Rattle.rules_dhcp.specs.Messages.{read_message};
ghost use Rattle.rules_dhcp.specs.Serving.{served};
ghost use Rattle.spec_run.specs.Leasing.{leases};
ghost use Rattle.spec_run.specs.Messages.{messages, AreInOrder};
ghost use Rattle.spec_run.specs.Laws.{Lawful};
ghost use Rattle.spec_run.specs.Ports.{associations_open, forward_for, given_port, last_datagram, longest_unused, opened_for, socket_for, used_at};
ghost use Rattle.spec_run.specs.Said.{AnswersLast, AnswersQuestion, AsksForGuest, Carries, GoesAgain, HasPorts, IsFromHost, IsOfServer, IsIdle, IsOfFlow, IsRest, IsLongestUnused};
ghost use Rattle.spec_run.specs.Said.{IsForAdded, OpensGiven, is_given};
ghost use Rattle.spec_run.specs.Sending.{tcp_for};
ghost use Rattle.spec_run.specs.Said.{IsReplyToItsPort, RepliesToItsPort};
ghost use Rattle.spec_run.specs.Said.{AreByLastUse, SaysOf, SendsWhatCame};

/// A datagram is sent, one is asked for, a connection is asked, written to, ended or read, a peer is accepted, or a socket is
/// closed only where the socket is open; and a socket that was closed is never open again: its number isn't used twice.
pub fn calls_are_on_open_sockets()
    ensures sends { (config : Config) (past : List Entry) (socket : ℕ) (to : Endpoint) (octets : List ℕ) (answer : Sent)
        → Lawful config (UdpSend socket to octets answer ∷ past) → is_among socket (open_sockets past) ≡ true }
    ensures receives { (config : Config) (past : List Entry) (socket asked : ℕ) (answer : Got) (octets : List ℕ)
        → Lawful config (UdpRecv socket asked answer octets ∷ past) → is_among socket (open_sockets past) ≡ true }
    ensures asks { (config : Config) (past : List Entry) (socket : ℕ) (answer : Joined)
        → Lawful config (Connected socket answer ∷ past) → is_among socket (open_sockets past) ≡ true }
    ensures writes { (config : Config) (past : List Entry) (socket : ℕ) (octets : List ℕ) (answer : Io)
        → Lawful config (TcpWrite socket octets answer ∷ past) → is_among socket (open_sockets past) ≡ true }
    ensures ends { (config : Config) (past : List Entry) (socket : ℕ) (answer : Made)
        → Lawful config (TcpEnd socket answer ∷ past) → is_among socket (open_sockets past) ≡ true }
    ensures reads { (config : Config) (past : List Entry) (socket asked : ℕ) (answer : Io) (octets : List ℕ)
        → Lawful config (TcpRead socket asked answer octets ∷ past) → is_among socket (open_sockets past) ≡ true }
    ensures accepts { (config : Config) (past : List Entry) (listener socket : ℕ) (answer : Accepted)
        → Lawful config (Accept listener socket answer ∷ past) → is_among listener (open_sockets past) ≡ true }
    ensures closes { (config : Config) (past : List Entry) (socket : ℕ)
        → Lawful config (Close socket ∷ past) → is_among socket (open_sockets past) ≡ true }
    ensures once { (config : Config) (later past : List Entry) (socket : ℕ)
        → Lawful config (later ++ (Close socket ∷ past)) → is_among socket (open_sockets (later ++ (Close socket ∷ past))) ≡ false }
{}

/// Whatever the guests do, no call on a socket leaves the policy. Sockets for datagrams are opened at port 0, which the host
/// chooses, of every address or of that from which datagrams are to go out, but for the forwards that the settings ask for before
/// the first wait and those that are asked for later; a datagram goes to the target that the policy has for the one that came
/// last; a socket connects only for the SYN of a guest that came last, to the target that the policy has for its destination; and
/// none listens or takes peers, but for those forwards.
pub fn no_socket_leaves_the_policy()
    ensures opens { (config : Config) (past : List Entry) (socket : ℕ) (at : Endpoint) (answer : Made)
        → GivesNone config → Lawful config (UdpOpen socket at answer ∷ past) → IsFromHost config at }
    ensures opens_later { (config : Config) (past : List Entry) (socket : ℕ) (at : Endpoint) (answer : Made)
        → 0 < waits past → Lawful config (UdpOpen socket at answer ∷ past) → IsFromHost config at ⊎ IsForAdded config Udp socket at }
    ensures sends { (config : Config) (past : List Entry) (socket : ℕ) (to : Endpoint) (octets : List ℕ) (answer : Sent)
        → Lawful config (UdpSend socket to octets answer ∷ past)
        → (d : Datagram) × (last_datagram config past ≡ Some d) × (target config Udp d.to ≡ Go to) }
    ensures connects { (config : Config) (past : List Entry) (socket : ℕ) (to : Endpoint) (answer : Made)
        → Lawful config (Connect socket to answer ∷ past) → ConnectsAsAsked config (book config past) to }
    ensures accepts { (config : Config) (past : List Entry) (listener socket : ℕ) (answer : Accepted)
        → Lawful config (Accept listener socket answer ∷ past) → kind_of listener past ≡ Some Listener }
    ensures listens { (config : Config) (past : List Entry) (socket : ℕ) (at : Endpoint) (answer : Made)
        → GivesNone config → ¬ Lawful config (Listen socket at answer ∷ past) }
{}

/// What is sent on a socket is the payload, whole, of the datagram that came last from a guest; its source is the port for
/// which the socket was opened, and the target that the policy has for its destination is where it goes (RFC 768).
pub fn datagrams_sent_came_from_their_port()
    ensures { (config : Config) (past : List Entry) (socket : ℕ) (to : Endpoint) (octets : List ℕ) (answer : Sent)
        → Lawful config (UdpSend socket to octets answer ∷ past) → SendsWhatCame config past socket to octets }
{}

/// A port of the host for datagrams that is given to a guest leads where its forward says, at every moment of any run: what its
/// socket brings goes to that port of the guest alone, whoever spoke last, and what is sent on it came from there.
pub fn forwards_lead_where_the_settings_say()
    ensures { (config : Config) (past : List Entry) (socket : ℕ) → kind_of socket past ≡ Some Forward
        → opened_for config socket past ≡ given_port config socket }
{}

/// A port of the host that is given to a guest is opened where the settings say, or where the forward says that was asked for with its number, and at no other
/// endpoint: each listener, and each socket for datagrams before the first wait. It is closed only after the run's end, unless it is taken back while the run goes on.
pub fn ports_are_opened_where_the_settings_say()
    ensures listens { (config : Config) (past : List Entry) (socket : ℕ) (at : Endpoint) (answer : Made)
        → Lawful config (Listen socket at answer ∷ past) → OpensGiven config.forwards Tcp at ⊎ IsForAdded config Tcp socket at }
    ensures opens { (config : Config) (past : List Entry) (socket : ℕ) (at : Endpoint) (answer : Made)
        → waits past ≡ 0 → Lawful config (UdpOpen socket at answer ∷ past) → OpensGiven config.forwards Udp at }
    ensures closes { (config : Config) (past : List Entry) (socket : ℕ) → is_among socket config.removed ≡ false
        → Lawful config (Close socket ∷ past) → is_given (kind_for config socket past) ≡ true → is_ended config past ≡ true }
{}

/// Before the end the socket of a guest's port for datagrams is closed only where it wasn't used for 240,000 milliseconds, or
/// where 512 are open and none of them was used before it (RFC 4787, 4.3).
pub fn the_longest_unused_gives_way()
    ensures { (config : Config) (past : List Entry) (socket : ℕ) → Lawful config (Close socket ∷ past)
        → is_ended config past ≡ false → is_association (kind_for config socket past) ≡ true → IsIdle socket past ⊎ IsLongestUnused config socket past }
{}

/// Each frame that goes out answers what came last, or nothing is left of that answer, and the frame is a segment of a flow,
/// asks for the hardware address of a flow's guest, or begins a packet of a file that wasn't acknowledged for its timeout and
/// goes again. What came last is a packet of the guests, a peer's datagram on a socket, octets of a file, such a packet, or word
/// that a guest's datagram couldn't go out or that its connection was refused. One answer is owed for that, and the frame
/// is the next one of this answer, in the order of its parts; it is the first that is left, and those behind it stay. So what is
/// left is at every moment all that is owed for what came last but for the frames of it that are out, or nothing. A frame has
/// room for a header and a unit of 8 octets.
pub fn each_frame_out_answers_the_last_arrival()
    ensures answers { (config : Config) (e : Entry) (past : List Entry) (frame : List ℕ) → 28 ≤ config.mtu
        → Lawful config (e ∷ past) → goes_out e past ≡ Some frame
        → AnswersLast config past frame ⊎ (IsOfFlow config past frame ⊎ (AsksForGuest config past frame ⊎ GoesAgain config past frame)) }
    ensures first { (config : Config) (e : Entry) (past : List Entry) (frame : List ℕ) → Lawful config (e ∷ past)
        → goes_out e past ≡ Some frame → (left config past ≡ []) ⊎ (is_first frame (left config past) ≡ true) }
    ensures others { (config : Config) (e : Entry) (past : List Entry) (frame : List ℕ) → Lawful config (e ∷ past)
        → goes_out e past ≡ Some frame → is_first frame (left config past) ≡ true → left config past ≡ frame ∷ left config (e ∷ past) }
    ensures none { (config : Config) (e : Entry) (past : List Entry) (frame : List ℕ) → Lawful config (e ∷ past)
        → goes_out e past ≡ Some frame → left config past ≡ [] → starts frame (again_frames config (identification past) (serving config past)) ≡ false
        → left config (e ∷ past) ≡ [] }
    ensures left { (config : Config) (past : List Entry) → 28 ≤ config.mtu → Lawful config past
        → (left config past ≡ []) ⊎ IsRest config past (left config past) }
{}

/// A flow's own frame holds its segment and nothing beside it: the octets of TCP are those of the segment that is read of it, with
/// no other option, no other flag (PSH where it carries octets), and no pointer (RFC 9293, 3.1).
pub fn flows_write_nothing_but_their_segment()
    ensures { (config : Config) (e : Entry) (past : List Entry) (frame : List ℕ) (ip : Ip) (on : OnTuple) → Lawful config (e ∷ past)
        → goes_out e past ≡ Some frame → left config past ≡ [] → Carries frame ip → segment_in frame ≡ Some on
        → ip.body ≡ tcp_octets ip.from ip.to (tcp_for on) }
{}

/// A segment of a flow is no longer, with its headers, than the MTU (RFC 9293, 3.7.1), so no datagram of a flow is ever cut. A
/// frame has room for a SYN with its options, 48 octets.
pub fn no_segment_of_a_flow_is_longer_than_the_mtu()
    ensures { (config : Config) (e : Entry) (past : List Entry) (frame : List ℕ) (ip : Ip) (on : OnTuple) → 48 ≤ config.mtu → Lawful config (e ∷ past)
        → goes_out e past ≡ Some frame → left config past ≡ [] → Carries frame ip → segment_in frame ≡ Some on → 20 + length ip.body ≤ config.mtu }
{}

/// The flows of a lawful run keep the law of flows: so whatever `spec_flows` says of traces that do holds of every lawful run,
/// and whatever `spec_flow` says of one flow of each of its flows.
pub fn lawful_runs_keep_the_law_of_flows()
    ensures { (config : Config) (past : List Entry) → Lawful config past → KeepsFlows config past }
{}

/// Datagrams go out with the identifications 0, 1, 2 and on, modulo 2^16 (RFC 791, 3.2). A frame that goes out and is read as
/// one of IPv4 that stands at the front of its datagram has the count of those that began before, and is counted; one that
/// stands behind has the identification of the datagram that began last, and isn't counted.
pub fn identifications_count_up()
    ensures next { (config : Config) (e : Entry) (past : List Entry) (frame : List ℕ) (ip : Ip) → 28 ≤ config.mtu
        → Lawful config (e ∷ past) → goes_out e past ≡ Some frame → Carries frame ip → ip.place ≡ 0 → ip.ident ≡ datagrams_out past % 2 ^ 16 }
    ensures later { (config : Config) (e : Entry) (past : List Entry) (frame : List ℕ) (ip : Ip) → 28 ≤ config.mtu
        → Lawful config (e ∷ past) → goes_out e past ≡ Some frame → Carries frame ip → 0 < ip.place
        → ip.ident ≡ (datagrams_out past - 1) % 2 ^ 16 }
    ensures counted { (config : Config) (e : Entry) (past : List Entry) (frame : List ℕ) (ip : Ip) → 28 ≤ config.mtu
        → Lawful config (e ∷ past) → goes_out e past ≡ Some frame → Carries frame ip → ip.place ≡ 0
        → datagrams_out (e ∷ past) ≡ datagrams_out past + 1 }
    ensures uncounted { (config : Config) (e : Entry) (past : List Entry) (frame : List ℕ) (ip : Ip) → 28 ≤ config.mtu
        → Lawful config (e ∷ past) → goes_out e past ≡ Some frame → Carries frame ip → 0 < ip.place
        → datagrams_out (e ∷ past) ≡ datagrams_out past }
    ensures first { datagrams_out [] ≡ 0 }
{}

/// The first frame that is left to be sent, where it is read as one of IPv4, has the identification that is the next one where
/// it stands at the front of its datagram, and else that of the datagram that began last.
pub fn what_is_left_first_has_the_next_identification()
    ensures front { (config : Config) (past : List Entry) (frame : List ℕ) (rest : List (List ℕ)) (ip : Ip) → 28 ≤ config.mtu
        → Lawful config past → left config past ≡ frame ∷ rest → Carries frame ip → ip.place ≡ 0 → ip.ident ≡ identification past }
    ensures behind { (config : Config) (past : List Entry) (frame : List ℕ) (rest : List (List ℕ)) (ip : Ip) → 28 ≤ config.mtu
        → Lawful config past → left config past ≡ frame ∷ rest → Carries frame ip → 0 < ip.place
        → ip.ident ≡ (datagrams_out past - 1) % 2 ^ 16 }
{}

/// What a peer sends reaches only the port that asked. A frame that goes out and is read as a datagram of UDP, or as a part of
/// one, is one of the datagram that carries the payload, whole, of what was received last, to the port of a guest for which the
/// socket was opened on which it was received, and from the peer as it is shown (RFC 768): so a whole one is read where each
/// answer was one that a World may give, and so it is written at all events, to the hardware address from which that port spoke
/// last, or, on a port of the host that is given to it, to the one learnt last for its guest. Other such frames are of two kinds:
/// the answer to a question to the name server, to the port that asked it, and what a server of ours says to a guest.
pub fn replies_reach_only_the_port_that_asked()
    ensures read { (config : Config) (e : Entry) (past : List Entry) (frame : List ℕ) (ip : Ip) (udp : UdpFields) → 28 ≤ config.mtu
        → Lawful config (e ∷ past) → AreAllowed past → config.vhost < 2 ^ 32 → HasPorts config → goes_out e past ≡ Some frame → Carries frame ip
        → is_unbroken ip ≡ true → ip.proto ≡ udp_proto → read_udp ip.from ip.to ip.body ≡ Some udp
        → IsReplyToItsPort config past ip udp ⊎ (AnswersQuestion config past frame ⊎ IsOfServer config past frame) }
    ensures written { (config : Config) (e : Entry) (past : List Entry) (frame : List ℕ) (ip : Ip) → 28 ≤ config.mtu
        → Lawful config (e ∷ past) → goes_out e past ≡ Some frame → Carries frame ip → ip.proto ≡ udp_proto
        → RepliesToItsPort config past frame ⊎ (AnswersQuestion config past frame ⊎ IsOfServer config past frame) }
{}

/// No hardware address has two of the addresses that are leased, whatever was done (RFC 2131, 2.2).
pub fn no_client_has_two_addresses()
    ensures { (config : Config) (past : List Entry) → IsOneToOne (leases config past) }
{}

/// The addresses that are leased are those of a history of messages: of those that came for the server of leases, each at the moment in force, none later than
/// one that came after it. So whatever `dhcp_server` says of histories holds of every run: which message an answer answers, and that an address that was leased
/// stays its client's for a day (RFC 2131, 3.1 and 4.3).
pub fn leases_are_those_of_the_messages_that_came()
    ensures leases { (config : Config) (past : List Entry) → leases config past ≡ leases_over config (messages config past) }
    ensures answers { (config : Config) (past : List Entry) (now : ℕ) (octets : List ℕ)
        → (served config now (leases config past) (read_message octets)).answer ≡ answer_over config (messages config past) (record { at = now; octets = octets }) }
    ensures in_order { (config : Config) (past : List Entry) → AreInOrder (moment past) (messages config past) }
{}

/// The list of associations in the order of use, by which datagrams are relayed, is what the trace says of sockets: its
/// numbers are those of the open sockets for guests' ports, by rising last use; each has the port, the hardware address and
/// the moment of the last use that the trace has; the socket for a port, the first of them, and those whose idle life is over
/// are found as the trace says; and so is what the datagram that came last still asks for.
pub fn the_list_in_order_of_use_is_that_of_the_record()
    ensures sockets { (config : Config) (past : List Entry) → Lawful config past → (socket : ℕ)
        → is_among socket (associations_open config past) ≡ is_among socket (numbers (associations config past)) }
    ensures order { (config : Config) (past : List Entry) → Lawful config past → AreByLastUse past (numbers (associations config past)) }
    ensures each { (config : Config) (past : List Entry) → Lawful config past → (socket : ℕ) (a : Association)
        → numbered socket (associations config past) ≡ Some a → SaysOf config past socket a }
    ensures port { (config : Config) (past : List Entry) → Lawful config past → (guest : Endpoint)
        → socket_of guest (associations config past) ≡ socket_for config guest past }
    ensures oldest { (config : Config) (past : List Entry) → Lawful config past
        → option_map (λ (a : Association). a.number) (first (associations config past)) ≡ longest_unused config past }
    ensures idle { (config : Config) (past : List Entry) → Lawful config past → (socket now : ℕ)
        → is_among socket (associations_open config past) ≡ true
        → (is_idle socket now (associations config past) ≡ true) ↔ (used_at socket past + idle_life ≤ now) }
    ensures asks { (config : Config) (past : List Entry) → Lawful config past
        → step config past ≡ step_for config (questions config past) (λ guest. forward_for config guest past) (associations config past)
        (errand_left config past) }
{}
