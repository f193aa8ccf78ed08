//! One transfer, as it is kept.
ghost use Rattle.std.specs.Prelude.{◌≡◌, ◌≤◌, ◌*◌, false};

use crate::MOST_NAME;
use arrayvec::{ArrayString, ArrayVec};
use net_octets::{Endpoint, Mac};
use rules_tftp::MOST_PACKET;

/// A file that a port of a guest gets: the port, and the hardware address from which its request came; the name and the length of the file; the octets of a
/// block and the timeout in milliseconds; the block that was sent last, counted on, 0 for the options; whether it is the file's last, and its packet; how often
/// this went again, and the moment at which it is due to go again.
#[derive(Drop)]
pub(crate) struct Row {
    pub guest: Endpoint,
    pub mac: Mac,
    pub name: ArrayString<MOST_NAME>,
    pub length: u64,
    pub size: u16,
    pub timeout: u64,
    pub block: u64,
    pub is_last: bool,
    pub packet: ArrayVec<u8, MOST_PACKET>,
    pub again: u8,
    pub due: u64,
    ghost least: { 8 ≤ size },
    ghost most: { size ≤ 1468 },
    ghost waits: { 1000 ≤ timeout },
    ghost waits_most: { timeout ≤ 255000 },
    ghost within: { is_last ≡ false → block * size ≤ length },
}
