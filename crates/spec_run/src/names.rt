//! What a lawful run does with questions to the name server and their answers, said of guests' ports, of the sockets that were
//! opened for their questions, and of the resolver.
//!
//! A *question* is a datagram of a guest to the name server that has a header of a message and isn't an answer (RFC 1035,
//! 4.1.1). A socket is opened for each one of a port with one identifier, and each waits for its answer.

ghost use Rattle.std.specs.Prelude.{◌≡◌, ℕ, ◌^◌, ◌<◌, ◌≤◌, ◌⊎◌, ◌++◌, List, ◌∷◌, true, false, Some};
ghost use Rattle.net_octets.specs.declared.Endpoint.{Endpoint};
ghost use Rattle.net_octets.specs.Kinds.{udp_proto};
ghost use Rattle.world_face.specs.declared.Got.{Got};
ghost use Rattle.world_face.specs.declared.Got.TheVariants.{From};
ghost use Rattle.world_face.specs.declared.Sent.{Sent};
ghost use Rattle.world_face.specs.Journal.{Entry, AreAllowed, Close, UdpRecv, UdpSend, CallClose, call_of};
ghost use Rattle.world_face.specs.Frames.{goes_out};
ghost use Rattle.slirp_settings.specs.Addresses.{Config, address, endpoint};
ghost use Rattle.ipv4_head.specs.Ip.{Ip, is_unbroken};
ghost use Rattle.udp_datagram.specs.Udp.{Udp, read_udp};
ghost use Rattle.rules_dns.specs.Questions.{is_question};
ghost use Rattle.spec_trace.specs.Packets.{Datagram};
ghost use Rattle.spec_trace.specs.Shape.{is_ended};
ghost use Rattle.spec_trace.specs.Sockets.{is_among, open_sockets};
ghost use Rattle.spec_run.specs.Laws.{Lawful};
ghost use Rattle.spec_run.specs.Names.{kind_for};
ghost use Rattle.spec_run.specs.Ports.{last_datagram};
ghost use Rattle.spec_run.specs.Questions.{AnswerCame, HasNameServer, HasWaitedLong, HasWaitedLongest, IsAnswerTo, WasAsked, WasJustAnswered, is_for_question};
ghost use Rattle.spec_run.specs.Said.{AnswersQuestion, Carries, HasPorts};
ghost use Rattle.slirp_settings.specs.Ports.{names_port};

/// What is sent on the socket of a question goes to the resolver alone. It is a question, and the payload, whole, of the datagram
/// of a guest that came last, which went to the name server.
pub fn questions_go_to_the_resolver_alone()
    ensures to { (config : Config) (past : List Entry) (socket : ℕ) (to : Endpoint) (octets : List ℕ) (answer : Sent)
        → Lawful config (UdpSend socket to octets answer ∷ past) → is_for_question (kind_for config socket past) ≡ true → config.resolver ≡ Some to }
    ensures asks { (config : Config) (past : List Entry) (socket : ℕ) (to : Endpoint) (octets : List ℕ) (answer : Sent)
        → Lawful config (UdpSend socket to octets answer ∷ past) → is_for_question (kind_for config socket past) ≡ true
        → (d : Datagram) × (last_datagram config past ≡ Some d) × (address d.to ≡ config.vnameserver) × (octets ≡ d.body) × (is_question octets ≡ true) }
{}

/// Each question waits on one socket, and each socket is for one: no two open ones were asked questions of one port with one
/// identifier, so one that is asked again goes out again on the same socket; and whatever was asked on an open one is of one port
/// with one identifier.
pub fn each_question_has_a_socket_of_its_own()
    ensures socket { (config : Config) (past : List Entry) (one other : ℕ) (guest : Endpoint) (ident : ℕ) → Lawful config past
        → is_among one (open_sockets past) ≡ true → is_among other (open_sockets past) ≡ true
        → WasAsked config past one guest ident → WasAsked config past other guest ident → one ≡ other }
    ensures question { (config : Config) (past : List Entry) (socket : ℕ) (guest other : Endpoint) (ident more : ℕ) → Lawful config past
        → is_among socket (open_sockets past) ≡ true → WasAsked config past socket guest ident → WasAsked config past socket other more
        → (guest ≡ other) × (ident ≡ more) }
{}

/// An answer goes to the asker, whole. A frame that goes out and is read as a datagram from the name server is from its port 53,
/// and carries what came last, whole, which came from the resolver on the socket of a question of the very port to which the
/// frame goes, is an answer, and has the identifier of a question that was sent from that port on that socket before (RFC 1035,
/// 4.1.1 and 7.3). It is so of each frame that answers a question, also where it isn't read back.
pub fn answers_reach_only_the_port_that_asked()
    ensures read { (config : Config) (e : Entry) (past : List Entry) (frame : List ℕ) (ip : Ip) (udp : Udp) → 28 ≤ config.mtu
        → Lawful config (e ∷ past) → AreAllowed past → config.vhost < 2 ^ 32 → HasPorts config → HasNameServer config → goes_out e past ≡ Some frame
        → Carries frame ip → is_unbroken ip ≡ true → ip.proto ≡ udp_proto → read_udp ip.from ip.to ip.body ≡ Some udp
        → ip.from ≡ config.vnameserver → (udp.from_port ≡ names_port) × AnswerCame config past (endpoint ip.to udp.to_port) udp.body }
    ensures written { (config : Config) (past : List Entry) (frame : List ℕ) → Lawful config past → (a : AnswersQuestion config past frame)
        → AnswerCame config past a.question.guest a.octets }
{}

/// After the answer to a question the next call closes its socket. So nothing more is received on it, and no second answer is
/// passed on.
pub fn an_answered_question_is_closed_next()
    ensures next { (config : Config) (e : Entry) (past : List Entry) (socket asked count : ℕ) (guest peer : Endpoint) (octets : List ℕ)
        → Lawful config (e ∷ (UdpRecv socket asked (From peer count) octets ∷ past)) → IsAnswerTo config past socket guest peer octets
        → call_of e ≡ CallClose socket }
    ensures once { (config : Config) (between past : List Entry) (socket asked count more : ℕ) (guest peer : Endpoint) (octets others : List ℕ) (answer : Got)
        → Lawful config (UdpRecv socket more answer others ∷ (between ++ (UdpRecv socket asked (From peer count) octets ∷ past)))
        → ¬ IsAnswerTo config past socket guest peer octets }
{}

/// Before the end the socket of a question is closed only where its answer came by the call before, where it wasn't used for
/// 10,000 milliseconds, or where 512 questions wait and no other socket of them was used before it.
pub fn questions_wait_for_their_answer()
    ensures { (config : Config) (past : List Entry) (socket : ℕ) → Lawful config (Close socket ∷ past)
        → is_ended config past ≡ false → is_for_question (kind_for config socket past) ≡ true
        → WasJustAnswered config socket past ⊎ (HasWaitedLong socket past ⊎ HasWaitedLongest config socket past) }
{}
