//! What words of the command line mean. Each word names a file in the folder where this runs, each line of which has the words of a command line; for each what they
//! mean is printed, with all settings that an option or a RULE can name; a drill has none. A line that begins with `#` is a remark, an empty one nothing.
//!
//! Proved: nothing but that it is safe and returns. It tests the settings that words mean, and words that mean none.
#![tactic(auto)]

use command_words::{Command, Stop, Tap, WordFault, read_words};
use net_octets::{Endpoint, Ip4};
use slirp_settings::{Denial, Forward, GuestFwd, Proto, SlirpConfig};
use std::alloc::{AllocError, Global};
use std::{env, fs, io};
use world_face::LinkAt;

fn main(rt: HostRuntime) -> io::Result<()> {
    for name in env::args(&rt)?.skip(1) {
        let text = fs::read_to_string(&rt, name.as_str())?;
        for line in text.lines() {
            if !line.is_empty() && !line.starts_with('#') {
                let meaning = meaning_of(rt.alloc(), line)?;
                println!(rt; "{name}: {meaning}")?;
            }
        }
    }
    Ok(())
}

// What the words of a line mean.
fn meaning_of(alloc: Global, line: &str) -> Result<String, AllocError> {
    let mut words = Vec::new(alloc);
    for word in line.split_whitespace() {
        words.push(word.to_string(alloc)?)?;
    }
    meaning_of_words(alloc, &words)
}

fn meaning_of_words(alloc: Global, words: &Vec<String>) -> Result<String, AllocError> {
    let read = read_words(words);
    match &read {
        Ok(Command::Replay(file, config)) => replay_of(alloc, file.as_str(), config),
        Ok(Command::Serve(config, at, tap)) => serve_of(alloc, config, at, *tap),
        Ok(Command::Drive(number, octets)) => format!(in alloc; "drive {number} {octets}"),
        Ok(Command::Help) => "help".to_string(alloc),
        Ok(Command::Version) => "version".to_string(alloc),
        Err(WordFault::Usage(Stop::Word(place))) => stopped_at(alloc, words, *place),
        Err(WordFault::Usage(Stop::End)) => "no reading: a word is missing".to_string(alloc),
        Err(WordFault::BadConfig(field)) => {
            format!(in alloc; "{} is out of its range", field.name())
        }
    }
}

// The word at this place, counted from 0, by which no reading can go on.
fn stopped_at(alloc: Global, words: &[String], place: usize) -> Result<String, AllocError> {
    match words.get(place) {
        Some(word) => format!(in alloc; "no reading: word {} {word}", place.saturating_add(1)),
        None => "no reading of no word".to_string(alloc),
    }
}

fn replay_of(alloc: Global, file: &str, config: &SlirpConfig) -> Result<String, AllocError> {
    let mut text = format!(in alloc; "replay {file}: ")?;
    push_settings(alloc, &mut text, config)?;
    Ok(text)
}

fn serve_of(
    alloc: Global,
    config: &SlirpConfig,
    at: &LinkAt,
    tap: Tap,
) -> Result<String, AllocError> {
    let mut text = "serve ".to_string(alloc)?;
    push_link(alloc, &mut text, at)?;
    text.push_str(match tap {
        Tap::Off => "",
        Tap::Record => ", recorded",
        Tap::Capture => ", captured",
    })?;
    text.push_str(": ")?;
    push_settings(alloc, &mut text, config)?;
    Ok(text)
}

fn push_link(alloc: Global, text: &mut String, at: &LinkAt) -> Result<(), AllocError> {
    match at {
        LinkAt::Unix(path) => {
            text.push_str("unix:")?;
            text.push_str(path.as_str())
        }
        LinkAt::Tcp(place) => push_place(alloc, text, "tcp:", *place),
    }
}

// All settings that an option can name.
fn push_settings(alloc: Global, text: &mut String, config: &SlirpConfig) -> Result<(), AllocError> {
    push_addrs(alloc, text, config)?;
    push_sizes(alloc, text, config)?;
    push_switches(text, config)?;
    push_version(alloc, text, config.version)?;
    push_names(text, config)?;
    push_ways(alloc, text, config)?;
    for denial in config.denied.as_slice() {
        push_denial(alloc, text, denial)?;
    }
    for forward in config.forwards.as_slice() {
        push_forward(alloc, text, forward)?;
    }
    for forward in config.guestfwds.as_slice() {
        push_guest(alloc, text, forward)?;
    }
    Ok(())
}

// The addresses of the network.
fn push_addrs(alloc: Global, text: &mut String, config: &SlirpConfig) -> Result<(), AllocError> {
    for (name, addr) in [
        ("net ", config.vnetwork),
        (" mask ", config.vnetmask),
        (", host ", config.vhost),
        (", dns ", config.vnameserver),
        (", dhcpstart ", config.vdhcp_start),
    ] {
        push_addr(alloc, text, name, addr)?;
    }
    Ok(())
}

fn push_sizes(alloc: Global, text: &mut String, config: &SlirpConfig) -> Result<(), AllocError> {
    let (mtu, mru, flows) = (config.if_mtu, config.if_mru, config.flows);
    let (ring, turns) = (config.ring, config.turns);
    let sizes = format!(in alloc;
        ", mtu {mtu}, mru {mru}, flows {flows}, ring {ring}, turns {turns}"
    )?;
    text.push_str(sizes.as_str())
}

// What is either so or not.
fn push_switches(text: &mut String, config: &SlirpConfig) -> Result<(), AllocError> {
    for (is_on, name) in [
        (config.restricted, ", restrict"),
        (config.disable_host_loopback, ", no-loopback"),
        (config.congestion, ", congestion"),
        (config.disable_dhcp, ", no-dhcp"),
        (config.disable_dns, ", no-dns"),
    ] {
        if is_on {
            text.push_str(name)?;
        }
    }
    Ok(())
}

// The version, where it isn't the usual one.
fn push_version(alloc: Global, text: &mut String, version: u32) -> Result<(), AllocError> {
    if version == 1 {
        return Ok(());
    }
    let version = format!(in alloc; ", version {version}")?;
    text.push_str(version.as_str())
}

// What a guest is told, and the folder whose files it may fetch.
fn push_names(text: &mut String, config: &SlirpConfig) -> Result<(), AllocError> {
    for (name, told) in [
        (", hostname ", config.vhostname.as_slice()),
        (", domainname ", config.vdomainname.as_slice()),
        (", tftp-server-name ", config.tftp_server_name.as_slice()),
        (", bootfile ", config.bootfile.as_slice()),
    ] {
        push_told(text, name, told)?;
    }
    match &config.tftp_path {
        Some(folder) => push_told(text, ", tftp ", folder.as_str().as_bytes()),
        None => Ok(()),
    }
}

// Where names are asked for, from where datagrams go out, and where commands are taken.
fn push_ways(alloc: Global, text: &mut String, config: &SlirpConfig) -> Result<(), AllocError> {
    if let Some(resolver) = config.resolver {
        push_place(alloc, text, ", resolver ", resolver)?;
    }
    if let Some(outbound) = config.outbound {
        push_addr(alloc, text, ", outbound ", outbound)?;
    }
    if let Some(control) = config.control {
        push_place(alloc, text, ", control ", control)?;
    }
    Ok(())
}

// A network that is denied to guests.
fn push_denial(alloc: Global, text: &mut String, denial: &Denial) -> Result<(), AllocError> {
    push_addr(alloc, text, ", deny ", denial.0.net)?;
    let length = format!(in alloc; "/{}", denial.0.length)?;
    text.push_str(length.as_str())
}

// A port of the host that is given to a guest.
fn push_forward(alloc: Global, text: &mut String, forward: &Forward) -> Result<(), AllocError> {
    let host = match forward.proto {
        Proto::Tcp => ", tcp ",
        Proto::Udp => ", udp ",
    };
    push_place(alloc, text, host, forward.host)?;
    push_place(alloc, text, " to ", forward.guest)
}

// A port of the network that leads to one which the host reaches.
fn push_guest(alloc: Global, text: &mut String, forward: &GuestFwd) -> Result<(), AllocError> {
    push_place(alloc, text, ", guestfwd ", forward.guest)?;
    push_place(alloc, text, " to ", forward.host)
}

// What a guest is told, where there is something.
fn push_told(text: &mut String, name: &str, told: &[u8]) -> Result<(), AllocError> {
    if told.is_empty() {
        return Ok(());
    }
    text.push_str(name)?;
    text.push_str(str::from_utf8(told).unwrap_or("no text"))
}

fn push_place(
    alloc: Global,
    text: &mut String,
    name: &str,
    place: Endpoint,
) -> Result<(), AllocError> {
    push_addr(alloc, text, name, place.addr)?;
    let port = format!(in alloc; ":{}", place.port)?;
    text.push_str(port.as_str())
}

fn push_addr(alloc: Global, text: &mut String, name: &str, addr: Ip4) -> Result<(), AllocError> {
    let [a, b, c, d] = addr.0.to_be_bytes();
    let addr = format!(in alloc; "{name}{a}.{b}.{c}.{d}")?;
    text.push_str(addr.as_str())
}
