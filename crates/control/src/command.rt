// What lines of the control's connection ask for.
//
// | Line, without its line feed | What it asks for |
// |---|---|
// | `add RULE` | a port of the host is to lead to a guest's: RULE as on a command line (`command_words`), with `hostfwd=` in front or without, and neither port 0 |
// | `remove tcp ENDPOINT`, `remove udp ENDPOINT` | that port of the host is to be taken back |
// | `list` | what there is |
// | any other | nothing of these; so also a blank more, a carriage return at the end, and `guestfwd=` |
//
// Nothing is allocated.
ghost use Rattle.std.specs.Prelude.{◌≡◌, ◌++◌, ◌↔◌, ◌==◌, ◌||◌, ℕ, List, IfOk, IsTrue, OnErr, codes};
ghost use Rattle.slirp_settings.specs.declared.Forward.{Forward as AForward};
ghost use Rattle.net_octets.specs.declared.Endpoint.{Endpoint as AnEndpoint};
ghost use Rattle.rules_control.specs.Commands.{IsAdd, IsRemove, Means, has_no_port, removal};
ghost use Rattle.rules_control.specs.declared.Command.{Command as ACommand};

use address_text::{NoReading, read_endpoint};
use command_words::read_rule;
use net_octets::{Endpoint, Ip4};
use rules_control::Command;
use slirp_settings::{Forward, Proto};

/// What a line asks for, which has no line feed. In a RULE without an address of a guest it is `guest`.
pub fn read_command(line: &[u8], guest: Ip4) -> Command
    ensures { Means guest.0 line.now result }
{
    if is_list(line) {
        return Command::List;
    }
    if let Ok(forward) = read_add(line, guest) {
        return Command::Add(forward);
    }
    if let Ok(host) = read_remove(line, Proto::Tcp) {
        return Command::Remove(Proto::Tcp, host);
    }
    if let Ok(host) = read_remove(line, Proto::Udp) {
        return Command::Remove(Proto::Udp, host);
    }
    Command::What
}

/// A line asks for one thing at most: whoever reads it by what it means reads the same.
pub fn a_line_asks_for_one_thing()
    ensures { (guest : ℕ) (line : List ℕ) (one other : ACommand) → Means guest line one → Means guest line other → one ≡ other }
{}

fn is_list(line: &[u8]) -> bool
    ensures { IsTrue result ↔ (line.now ≡ codes "list") }
{
    matches!(line, b"list")
}

fn read_add(line: &[u8], guest: Ip4) -> Result<Forward, NoReading>
    ensures add { IfOk result (λ forward. IsAdd guest.0 line.now forward) }
    ensures refused { OnErr result ((forward : AForward) → ¬ IsAdd guest.0 line.now forward) }
{
    let Some(rule) = line.strip_prefix(b"add ") else {
        return Err(NoReading);
    };
    let forward = read_rule(rule, guest)?;
    if has_no_port(&forward) {
        return Err(NoReading);
    }
    Ok(forward)
}

// One of its two ports is 0, which is none.
fn has_no_port(forward: &Forward) -> bool
    ensures { result ≡ has_no_port forward.now }
{
    forward.host.port == 0 || forward.guest.port == 0
}

fn read_remove(line: &[u8], proto: Proto) -> Result<Endpoint, NoReading>
    ensures remove { IfOk result (λ host. IsRemove line.now proto host) }
    ensures refused { OnErr result ((host : AnEndpoint) → ¬ IsRemove line.now proto host) }
{
    let Some(text) = line.strip_prefix(removal(proto)) else {
        return Err(NoReading);
    };
    read_endpoint(text)
}

// What stands in front of the endpoint.
fn removal(proto: Proto) -> &'static [u8]
    ensures { result.now ≡ removal proto }
{
    match proto {
        Proto::Tcp => b"remove tcp ",
        Proto::Udp => b"remove udp ",
    }
}
