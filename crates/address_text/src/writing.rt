// How an endpoint is written.
ghost use Rattle.std.specs.Prelude.{◌≡◌, ◌++◌, ◌≤◌, ◌+◌, decimal};
ghost use Rattle.arrayvec.specs.ArrayString.{array_string_len};
ghost use Rattle.address_text.specs.Texts.{endpoint_text};

use arrayvec::ArrayString;
use itoa::Buffer;
use net_octets::{Endpoint, Ip4};

/// The text of an endpoint: its address and its port.
#[tactic(auto, unfolding(crate::specs::Texts::endpoint_text, crate::specs::Texts::address_text))]
pub fn endpoint_string(at: Endpoint) -> ArrayString<21>
    ensures { result.bytes ≡ endpoint_text at }
{
    let Ip4(address) = at.addr;
    let mut text = ArrayString::new();
    push_part(&mut text, (address >> 24) as u8);
    text.push_str(".");
    push_part(&mut text, (address >> 16 & 0xff) as u8);
    text.push_str(".");
    push_part(&mut text, (address >> 8 & 0xff) as u8);
    text.push_str(".");
    push_part(&mut text, (address & 0xff) as u8);
    text.push_str(":");
    push_port(&mut text, at.port);
    text
}

// Puts a number of an address behind a text.
fn push_part(text: &mut ArrayString<21>, part: u8)
    requires { array_string_len text.old + 3 ≤ 21 }
    ensures bytes { text.new.bytes ≡ text.old.bytes ++ decimal part }
    ensures len { array_string_len text.new ≤ array_string_len text.old + 3 }
{
    let mut buffer = Buffer::new();
    text.push_str(buffer.format(part));
}

// Puts a port behind a text.
fn push_port(text: &mut ArrayString<21>, port: u16)
    requires { array_string_len text.old + 5 ≤ 21 }
    ensures { text.new.bytes ≡ text.old.bytes ++ decimal port }
{
    let mut buffer = Buffer::new();
    text.push_str(buffer.format(port));
}
