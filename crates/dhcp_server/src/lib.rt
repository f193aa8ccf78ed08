//! A server of DHCP (RFC 2131): guests are leased 16 addresses, and told of the network. It takes no memory.
//!
//! Proved:
//! - `Leases::message`: the leases that it leaves (`leases`), the reply and where it goes (`reply`) and its octets (`octets`) are the function of `rules_dhcp` of
//!   settings, moment, message and old leases, at most 790 octets (`few`). `Leases::new`: no address is leased (`config`, `leases`).
//! - After every message no hardware address has two addresses (`one_to_one`).
//! - The tables of options that are read and that are written: `options_read`, `options_written`.
//! - What holds over every history of messages are laws of `rules_dhcp`.
//!
//! Let through (rt plant): nothing.
#![tactic(auto)]

mod leases;
mod message;
mod options;
mod reply;
mod serving;

pub use leases::Leases;
pub use options::{options_read, options_written};
