//! What a guest is told: the options that are answered, a block of a file, an error (RFC 1350, 5; RFC 2347).
ghost use Rattle.std.specs.Prelude.{◌≡◌, ◌+◌, ◌%◌, ◌^◌, ◌≤◌, ◌++◌, ◌∷◌, [], length};
ghost use Rattle.rules_tftp.specs.Packets.{answered_octets, block_octets, error_octets, options_octets};
ghost use Rattle.rules_tftp.specs.Saying.{most_packet};
ghost use Rattle.tftp_server.specs.Options.{answered_pair};

use crate::options::{Agreed, Answer};
use arrayvec::ArrayVec;
use itoa::Buffer;
use rules_tftp::MOST_PACKET;

/// The options that are answered.
pub fn options_packet(agreed: &Agreed) -> ArrayVec<u8, MOST_PACKET>
    ensures { result.items ≡ options_octets agreed.now }
{
    let mut packet = ArrayVec::new();
    put(&mut packet, &[0, 6]);
    for answer in agreed.answered() {
        put_answer(&mut packet, answer);
    }
    packet
}

// The option's name, and the number in decimal digits, each ended by a 0.
fn put_answer(packet: &mut ArrayVec<u8, MOST_PACKET>, answer: &Answer)
    requires { length packet.old.items + 40 ≤ most_packet }
    ensures octets { packet.new.items ≡ packet.old.items ++ answered_octets (answered_pair answer.now ∷ []) }
    ensures few { length packet.new.items ≤ length packet.old.items + 40 }
{
    put(packet, answer.option.name());
    put(packet, &[0]);
    put(packet, Buffer::new().format(answer.number).as_bytes());
    put(packet, &[0]);
}

/// A block of a file, at most 1,468 octets, with its number, which is counted on and written modulo 2^16.
pub fn block_packet(block: u64, octets: &[u8]) -> ArrayVec<u8, MOST_PACKET>
    requires { length octets.now ≤ 1468 }
    ensures { result.items ≡ block_octets (block % 2 ^ 16) octets.now }
{
    let mut packet = ArrayVec::new();
    put(&mut packet, &[0, 3]);
    put(&mut packet, &((block % 65536) as u16).to_be_bytes());
    put(&mut packet, octets);
    packet
}

/// An error by its number, without a text.
pub fn error_packet(code: u16) -> ArrayVec<u8, MOST_PACKET>
    ensures { result.items ≡ error_octets code }
{
    let mut packet = ArrayVec::new();
    put(&mut packet, &[0, 5]);
    put(&mut packet, &code.to_be_bytes());
    put(&mut packet, &[0]);
    packet
}

// Puts octets behind those that are there.
fn put(packet: &mut ArrayVec<u8, MOST_PACKET>, octets: &[u8])
    requires { length packet.old.items + length octets.now ≤ most_packet }
    ensures { packet.new.items ≡ packet.old.items ++ octets.now }
{
    match packet.try_extend_from_slice(octets) {
        Ok(()) => {}
        Err(_) => unreachable!(),
    }
}
