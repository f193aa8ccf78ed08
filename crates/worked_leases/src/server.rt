use crate::cases::Case;
use arrayvec::ArrayVec;
use dhcp_server::Leases;
use net_octets::{Endpoint, Ip4, Mac};
use rules_udp::Reply;
use slirp_settings::SlirpConfig;
use std::alloc::{AllocError, Global};

/// Room for a reply, in octets.
const ROOM: usize = 1024;

/// Gives a server the messages of a case in turn, and says whether each was answered as it was to be: `passed`, or what was otherwise.
pub fn verdict(alloc: Global, case: &Case) -> Result<String, AllocError> {
    let config = config_of(case.settings.as_str());
    if config.check().is_err() {
        return "FAILED: its settings aren't in their ranges".to_string(alloc);
    }
    let mut leases = Leases::new(&config);
    let mut count = 0usize;
    for message in case.messages.lines() {
        let (asked, wanted) = message.split_once(" = ").unwrap_or((message, ""));
        let answered = answer(alloc, &mut leases, asked)?;
        if answered.as_str() != wanted {
            return format!(in alloc;
                "FAILED: {count} answers are right, and behind them is {answered}"
            );
        }
        count = count.saturating_add(1);
    }
    "passed".to_string(alloc)
}

// The settings that differ from the usual ones by these words.
fn config_of(words: &str) -> SlirpConfig {
    let mut config = SlirpConfig::usual();
    for word in words.split_whitespace() {
        let (name, value) = word.split_once('=').unwrap_or((word, ""));
        match name {
            "restricted" => config.restricted = true,
            "resolver" => {
                config.resolver = Some(Endpoint {
                    addr: Ip4(0x7f000001),
                    port: 53,
                })
            }
            "no_dns" => {
                config.version = 2;
                config.disable_dns = true;
            }
            "hostname" => put_name(value, &mut config.vhostname),
            "domainname" => put_name(value, &mut config.vdomainname),
            "tftp" => put_name(value, &mut config.tftp_server_name),
            "bootfile" => put_name(value, &mut config.bootfile),
            _ => {}
        }
    }
    config
}

// The octets of a name, in place of those that stand there. None where they are too many.
fn put_name(text: &str, name: &mut ArrayVec<u8, 127>) {
    name.clear();
    let _ = name.try_extend_from_slice(text.as_bytes());
}

// What a message gets at its moment.
fn answer(alloc: Global, leases: &mut Leases, asked: &str) -> Result<String, AllocError> {
    let (moment, octets) = asked.split_once(' ').unwrap_or((asked, ""));
    let (Ok(now), Ok(body)) = (moment.parse::<u64>(), hex::decode(alloc, octets)) else {
        return "no message".to_string(alloc);
    };
    if now > 1 << 62 {
        return "no moment".to_string(alloc);
    }
    let mut into = [0xee; ROOM];
    let reply = leases.message(now, &body, &mut into);
    said(alloc, &reply, &into)
}

// What a reply says, whose octets stand first in `into`.
fn said(alloc: Global, reply: &Reply, into: &[u8]) -> Result<String, AllocError> {
    match reply {
        Reply::Nothing => "nothing".to_string(alloc),
        Reply::Unreachable(_) => "an unreachable".to_string(alloc),
        Reply::Datagram {
            length,
            from,
            to,
            mac,
        } => {
            let mut text = String::new(alloc);
            push_place(alloc, &mut text, *from)?;
            push_place(alloc, &mut text, *to)?;
            push_mac(alloc, &mut text, *mac)?;
            push_octets(alloc, &mut text, into.get(..*length).unwrap_or(&[]))?;
            Ok(text)
        }
    }
}

fn push_place(alloc: Global, text: &mut String, place: Endpoint) -> Result<(), AllocError> {
    let [a, b, c, d] = place.addr.0.to_be_bytes();
    let place = format!(in alloc; "{a}.{b}.{c}.{d}:{} ", place.port)?;
    text.push_str(place.as_str())
}

fn push_mac(alloc: Global, text: &mut String, mac: Option<Mac>) -> Result<(), AllocError> {
    match mac {
        Some(mac) => push_octets(alloc, text, &mac.0)?,
        None => text.push('-')?,
    }
    text.push(' ')
}

fn push_octets(alloc: Global, text: &mut String, octets: &[u8]) -> Result<(), AllocError> {
    let octets = hex::encode(alloc, octets)?;
    text.push_str(octets.as_str())
}
