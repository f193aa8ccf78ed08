//! The relay of guests' questions to the host's resolver (RFC 1035): what it keeps, and what becomes of it (`specs/`: Questions, Relaying, Asking).
//!
//! Each question of a guest to the name server has a socket of its own, by the port that asks and the identifier of the message (RFC 1035, 4.1.1). The list (one of
//! `idle_sockets`) has a row for each that waits for its answer, the longest unused first: the socket's number, the port, the hardware address from which it was asked
//! last, the identifier, and the moment of its last use. At most 512 wait. A guest asks from port 4000; the numbers of the next sockets are 7 and 8:
//!
//! | At | What comes | Calls | The guest is told | What waits then |
//! |---|---|---|---|---|
//! | 0 ms | question 0x1234 | `udp_open` of 7, `udp_send` on 7 to the resolver | nothing | 7 (0x1234, used at 0) |
//! | 900 | the same question | `udp_send` on 7 | nothing | 7 (used at 900) |
//! | 950 | question 0x1235 | `udp_open` of 8, `udp_send` on 8 | nothing | 7, 8 (0x1235, used at 950) |
//! | 960 | on 7 answer 0x9999 of the resolver, or 0x1234 of another peer | `udp_recv` on 7 | nothing | 8, 7 (used at 960) |
//! | 980 | on 7 answer 0x1234 of the resolver | `udp_recv`, `close` of 7 | the answer, from port 53 of the name server | 8 |
//! | 990 | on 7 the same answer | none: 7 is closed | nothing | 8 |
//! | 10,950 | time | `close` of 8 | nothing | nothing |
//!
//! What becomes of a row, by what comes:
//!
//! - A question, where none of its port waits with its identifier: a socket is opened and the question sent on it; the row is the last of all, used now. Where 512
//!   wait the longest unused one is closed before, and is gone also where no other can be opened. The guest gets an unreachable with code 0 where none can be opened or
//!   the sending fails.
//! - The same question again: it is sent on its socket; the row is the last of all, used now, of the hardware address from which it came now. An unreachable with
//!   code 0 where the sending fails.
//! - An answer of the resolver with its identifier: the next call closes the socket, the row is gone, and the guest gets the answer, from port 53 of the name server.
//! - Any other datagram on its socket: that stays open, and the row is the last of all, used now. Where nothing was there to be received, or that failed, all stays.
//! - 10,000 ms since its last use: the socket is closed, by rising number, and the row is gone.
//!
//! Sockets are opened at `outbound` where the settings have it, else at 0.0.0.0; for a resolver in 127/8 at 0.0.0.0 (`bind_for`). The port is the host's choice. In the
//! core (`slirp_core`) the questions stand beside the associations (`OfRelay`); the numbers of their sockets stay under the next one by the lemmas of proofs/Below.
//!
//! Proved:
//! - `Relay::query` and `answer`: over every World exactly which calls are made, in their order, what becomes of the list of questions and what the guest is told: a
//!   question goes out on the socket of the same question, else on a new one, before which the longest unused of 512 is closed (`relays`). One datagram is asked for on
//!   the socket of a question, which is closed in the same call exactly where the resolver's answer to that question came, and that answer alone passes (`hears`,
//!   `fits`).
//! - `tick` closes those that have waited for 10,000 ms, by rising number, and none is left (`closes`, `none`); `close_first` the least number (`closes`, `fewer`).
//!   All else stays (`rest` of each).
//! - `Relay::new`, `has`, `rising` (`all`, `rising`, `most`), `oldest`, `next_due` and `is_question` exactly.
//!
//! Neither: that the host carries a datagram.
//!
//! Let through (rt plant): nothing.
#![tactic(auto)]

mod messages;
mod relay;

pub use messages::is_question;
pub use relay::Relay;
