//! The ports at which a guest reaches the servers of the network, and that of a client of DHCP.

/// Names (RFC 1035, 4.2).
pub const NAMES_PORT: u16 = 53;

/// Leases (RFC 2131, 4.1).
pub const LEASES_PORT: u16 = 67;

/// Clients of DHCP (RFC 2131, 4.1).
pub const CLIENT_PORT: u16 = 68;

/// Files (RFC 1350, 4).
pub const FILES_PORT: u16 = 69;
