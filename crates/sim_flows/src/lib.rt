//! What the calls of a flow are in the trace of a run, that the slots of a core stand for the flows of it, and what a core waits for of its flows, and how long,
//! against the flows of the trace: definitions and lemmas, over any type of parts. There is no code to run, and no call is public.
//!
//! Proved, as lemmas alone:
//! - Slots of a core go on to stand for the flows of the trace (`Seats`), after each call of `flow_splice`, which is lawful and as it must be.
//! - A frame of a flow is read back as its segment (`segment_back`, `written_back`), a request for a hardware address asks for it (`request_back`), and a frame of an
//!   answer is no flow's own (`left_strange`).
//! - Of every lawful trace: each open flow has its open socket, that of a closed one isn't (`open_has_socket`, `closed_has_none`), and each open socket of a
//!   connection has its flow (`open_flow`, `open_seat`).
//! - What a core waits for of its slots is what the trace asks for of its flows, and so are the moments.
#![tactic(auto)]
