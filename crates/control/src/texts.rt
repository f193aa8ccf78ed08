// What the control answers to a command, as text.
ghost use Rattle.std.specs.Prelude.{◌≡◌, ◌≤◌, ◌+◌, ◌++◌, codes, decimal, length};
ghost use Rattle.std.specs.Result.{result_err};
ghost use Rattle.arrayvec.specs.ArrayString.{array_string_len};
ghost use Rattle.address_text.specs.Texts.{endpoint_text};
ghost use Rattle.rules_control.specs.Commands.{proto_text};
ghost use Rattle.spec_control.specs.Replies.{added_text, fault_text, flow_text, forward_text, removed_text, reply_line};

use address_text::endpoint_string;
use arrayvec::ArrayString;
use itoa::Buffer;
use net_octets::Endpoint;
use rules_forward::FwdFault;
use slirp_settings::{Forward, Proto};
use spec_flows::Tuple;

/// What the addition of a port of the host came to: `ok`, or why it isn't given to a guest.
pub fn added_text(added: Result<(), FwdFault>) -> &'static str
    ensures text { result.now ≡ added_text (result_err added) }
    ensures short { length result.now ≤ 9 }
{
    match added {
        Ok(()) => "ok",
        Err(fault) => fault_text(fault),
    }
}

/// What a removal came to, by whether a forward had the port.
pub fn removed_text(was_there: bool) -> &'static str
    ensures text { result.now ≡ removed_text was_there }
    ensures short { length result.now ≤ 9 }
{
    if was_there { "ok" } else { "not there" }
}

// Why a port of the host isn't given to a guest.
fn fault_text(fault: FwdFault) -> &'static str
    ensures text { result.now ≡ fault_text fault }
    ensures short { length result.now ≤ 9 }
{
    match fault {
        FwdFault::Taken => "taken",
        FwdFault::BadGuest => "bad guest",
        FwdFault::Full => "full",
        FwdFault::Refused => "refused",
    }
}

/// The line that names a forward, with its line feed: `forward tcp HOST GUEST`, or with `udp`.
pub fn forward_line(forward: &Forward) -> ArrayString<56>
    ensures text { result.bytes ≡ reply_line (forward_text forward.now) }
    ensures short { length result.bytes ≤ 56 }
{
    let mut line = ArrayString::new();
    line.push_str("forward ");
    line.push_str(proto_text(forward.proto));
    push_endpoint(&mut line, forward.host);
    push_endpoint(&mut line, forward.guest);
    line.push_str("\n");
    line
}

/// The line that names a flow, with its line feed: `flow NUMBER GUEST OTHER`.
pub fn flow_line(number: u64, ends: &Tuple) -> ArrayString<70>
    ensures text { result.bytes ≡ reply_line (flow_text (number, ends.now)) }
    ensures short { length result.bytes ≤ 50 + length (decimal number) }
{
    let mut line = ArrayString::new();
    line.push_str("flow ");
    push_number(&mut line, number);
    push_endpoint(&mut line, ends.guest);
    push_endpoint(&mut line, ends.other);
    line.push_str("\n");
    line
}

fn proto_text(proto: Proto) -> &'static str
    ensures text { result.now ≡ proto_text proto }
    ensures short { length result.now ≤ 3 }
{
    match proto {
        Proto::Tcp => "tcp",
        Proto::Udp => "udp",
    }
}

// Puts a number behind a text.
fn push_number<const N: usize>(line: &mut ArrayString<N>, number: u64)
    requires { array_string_len line.old + 20 ≤ N }
    ensures bytes { line.new.bytes ≡ line.old.bytes ++ decimal number }
    ensures len { array_string_len line.new ≤ array_string_len line.old + 20 }
    ensures exact { array_string_len line.new ≡ array_string_len line.old + length (decimal number) }
{
    let mut buffer = Buffer::new();
    line.push_str(buffer.format(number));
}

// Puts an endpoint behind a text and a blank.
fn push_endpoint<const N: usize>(line: &mut ArrayString<N>, at: Endpoint)
    requires { array_string_len line.old + 22 ≤ N }
    ensures bytes { line.new.bytes ≡ line.old.bytes ++ codes " " ++ endpoint_text at }
    ensures len { array_string_len line.new ≤ array_string_len line.old + 22 }
{
    line.push_str(" ");
    line.push_str(endpoint_string(at).as_str());
}
