//! How a connection with a guest follows the story of its flow: one simulation relation between a `Conn` with its two buffers and what has happened to the flow
//! (`Holds`), and a step for each event. There is no code to run.
//!
//! A connection is kept by whoever makes the calls: it asks a socket whether it connected, reads from it and writes to it, sends what is owed, and closes it. Each of
//! these is an event of the flow's story, and lawful by the laws of one flow where the connection follows the story so far; and the connection follows the longer story
//! then. The steps stand in `proofs/`, a file for each kind of event. The functions here are those of them that are said in plain words, and their contracts are proved
//! though their bodies are empty.
//!
//! Proved:
//! - A connection with its buffers goes on to follow the flow's story (`Holds`), for each event while it is open (lemmas).
//! - What is owed may be sent, and as it must be (`what_is_owed_may_be_sent`: `lawful`, `dutiful`, `follows`). Held octets may be offered, however many the host
//!   takes (`octets_that_are_held_may_be_written`). A flow that is owed nothing, once both SYNs were acknowledged, is settled, and in time where its timer isn't due
//!   (`a_flow_that_is_owed_nothing_is_settled`).
//! - Lemmas alone: causes of a close and the reset owed then (`Causes`, `Closing`, `Owing`), TIME-WAIT (`InTimeWait`), what a wait names (`Wanting`), and that the timer
//!   is within both bounds on a wait (`Bounds`).
#![tactic(auto)]

ghost use Rattle.std.specs.Prelude.{◌≡◌, ℕ, ◌^◌, ◌<◌, ◌≤◌, List, ◌∷◌, length, take, min, Bool, true, false, Some, None};
ghost use Rattle.sock_buffers.specs.Downward.{Downward};
ghost use Rattle.sock_buffers.specs.Upward.{Upward};
ghost use Rattle.tcp_connection.specs.Connection.{Connection, HasBuffers};
ghost use Rattle.tcp_connection.specs.Owing.{gone, owed_of};
ghost use Rattle.tcp_connection.specs.Segments.{settled};
ghost use Rattle.tcp_connection.specs.Timing.{due_of};
ghost use Rattle.tcp_connection.specs.declared.Owed.{Owed};
ghost use Rattle.tcp_connection.specs.declared.Stage.TheVariants as stage;
ghost use Rattle.spec_flow.specs.Settings.{Settings};
ghost use Rattle.spec_flow.specs.Event.{Story, At, Departs, Writes};
ghost use Rattle.spec_flow.specs.Lawful.{May, Send, Write};
ghost use Rattle.spec_flow.specs.Dutiful.{Must};
ghost use Rattle.sim_halves.specs.Settled.{IsSettledIf};
ghost use Rattle.sim_connection.specs.Holding.{Holds, is_calls, is_at_connecting, without};
ghost use Rattle.sim_connection.specs.Sending.{segment_out};

/// What a connection owes may be sent, as it must be: a SYN, a SYN-ACK, a piece of the host's stream or an acknowledgement,
/// with the numbers and the window that the connection gives. And once it went out the connection follows the story.
pub fn what_is_owed_may_be_sent()
    ensures lawful { (s : Settings) (c : Connection) (up : Upward) (down : Downward) (past : Story) (now m : ℕ) (what : Owed)
        → Holds s c up down past now → now ≤ m → m ≤ 2 ^ 62 → owed_of c up down ≡ Some what
        → HasBuffers (settled (gone what c up m)) up down → May s past m (Send (segment_out s.mru c up down what)) }
    ensures dutiful { (s : Settings) (c : Connection) (up : Upward) (down : Downward) (past : Story) (now m : ℕ) (what : Owed)
        → Holds s c up down past now → now ≤ m → m ≤ 2 ^ 62 → owed_of c up down ≡ Some what
        → HasBuffers (settled (gone what c up m)) up down → Must s past m (Send (segment_out s.mru c up down what)) }
    ensures follows { (s : Settings) (c : Connection) (up : Upward) (down : Downward) (past : Story) (now m : ℕ) (what : Owed)
        → Holds s c up down past now → now ≤ m → m ≤ 2 ^ 62 → owed_of c up down ≡ Some what
        → HasBuffers (settled (gone what c up m)) up down
        → Holds s (gone what c up m) up down (At m (Departs (segment_out s.mru c up down what)) ∷ past) m }
{}

/// The octets of the guest that are held may be offered to a host that has connected, 16,384 at most, and the connection
/// follows the story however many of them the host took.
pub fn octets_that_are_held_may_be_written()
    ensures lawful { (s : Settings) (c : Connection) (up : Upward) (down : Downward) (past : Story) (now m k n : ℕ)
        → Holds s c up down past now → now ≤ m → is_calls c.stage ≡ false → is_at_connecting c.stage ≡ false → n ≤ k → k ≡ min 16384 (length up.held)
        → HasBuffers c (without up n) down → May s past m (Write (take k up.held)) }
    ensures dutiful { (s : Settings) (c : Connection) (up : Upward) (down : Downward) (past : Story) (now m k n : ℕ)
        → Holds s c up down past now → now ≤ m → is_calls c.stage ≡ false → is_at_connecting c.stage ≡ false → n ≤ k → k ≡ min 16384 (length up.held)
        → HasBuffers c (without up n) down → Must s past m (Write (take k up.held)) }
    ensures follows { (s : Settings) (c : Connection) (up : Upward) (down : Downward) (past : Story) (now m k n : ℕ)
        → Holds s c up down past now → now ≤ m → is_calls c.stage ≡ false → is_at_connecting c.stage ≡ false → n ≤ k → k ≡ min 16384 (length up.held)
        → HasBuffers c (without up n) down
        → Holds s c (without up n) down (At m (Writes (take k up.held) n) ∷ past) m }
{}

/// Where a connection owes nothing, once both SYNs were acknowledged, all holds of its flow that is to hold whenever the
/// program waits: all octets and ends that may go out are out, what came is acknowledged, and the room is told. Where its
/// timer isn't due either, what is under way goes again within a minute.
pub fn a_flow_that_is_owed_nothing_is_settled()
    ensures { (s : Settings) (c : Connection) (up : Upward) (down : Downward) (past : Story) (now : ℕ) (known : Bool)
        → Holds s c up down past now → c.stage ≡ stage.Synchronized → owed_of c up down ≡ None
        → IsSettledIf ((at : ℕ) → due_of c ≡ Some at → now < at) s past known false now }
{}
