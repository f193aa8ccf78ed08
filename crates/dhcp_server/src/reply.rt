//! The octets of a reply, and where it goes (RFC 2131, 2 and 4.1).
ghost use Rattle.std.specs.Prelude.{ℕ, List, if◌then◌else◌, ◌≡◌, ◌+◌, ◌-◌, ◌≤◌, ◌<◌, ◌^◌, ◌++◌, [], ◌∷◌, length, drop};
ghost use Rattle.net_octets.specs.Octets.{four};
ghost use Rattle.slirp_settings.specs.Settings.{settings};
ghost use Rattle.tlv_table.specs.Putting.{CanPut, put_octets};
ghost use Rattle.rules_dhcp.specs.Messages.{form};
ghost use Rattle.rules_dhcp.specs.Replies.{rows_written, kind_of, is_ack, is_silence, is_refusal, IsPlaced, given, zeros, filled, front, addresses, back, text_option, router};
ghost use Rattle.rules_dhcp.specs.Replies.{name_server, lease_option, network_options, further_options, options, goes_to_all, datagram_of, reply_octets, reply_of, octets_of_reply};
ghost use Rattle.dhcp_server.specs.Writing.{Adds};

use crate::options::{
    BOOT_FILE, DOMAIN_NAME, HOST_NAME, LEASE_TIME, MESSAGE_KIND, NAME_SERVERS, ROUTER, SERVER,
    SUBNET_MASK, TFTP_SERVER_NAME, options_written,
};
use arrayvec::ArrayVec;
use net_octets::{Endpoint, Ip4, Mac};
use rules_dhcp::{ACK, Answer, Message, NAK, OFFER};
use rules_udp::Reply;
use slirp_settings::{CLIENT_PORT, LEASES_PORT, SlirpConfig};
use tlv_table::Table;

/// The least length of a reply (RFC 1542, 2.1).
const LEAST: usize = 300;

/// What begins the options (RFC 2131, 3).
const COOKIE: [u8; 4] = [99, 130, 83, 99];

/// How long an address is leased, in seconds.
const LEASE_SECONDS: u32 = 86_400;

/// Writes the reply, and says where it goes.
pub fn write_reply(config: &SlirpConfig, m: &Message, answer: Answer, into: &mut [u8]) -> Reply
    requires room { 1024 ≤ length into.old }
    requires start { config.now.vdhcp_start.0 + 15 < 2 ^ 32 }
    requires place { IsPlaced answer }
    ensures reply { result ≡ reply_of (settings config.now) m.now answer }
    ensures octets { let octets = octets_of_reply (settings config.now) m.now answer in into.new ≡ octets ++ drop (length octets) into.old }
    ensures few { length (octets_of_reply (settings config.now) m.now answer) ≤ 790 }
{
    if is_silence(answer) {
        return Reply::Nothing;
    }
    let length = write(config, m, answer, into);
    datagram(config, m, answer, length)
}

// Where a reply of so many octets goes.
fn datagram(config: &SlirpConfig, m: &Message, answer: Answer, length: usize) -> Reply
    ensures { result ≡ datagram_of (settings config.now) m.now answer length }
{
    let from = Endpoint {
        addr: config.vhost,
        port: LEASES_PORT,
    };
    if goes_to_all(m, answer) {
        Reply::Datagram {
            length,
            from,
            to: Endpoint {
                addr: Ip4(u32::MAX),
                port: CLIENT_PORT,
            },
            mac: Some(Mac([255; 6])),
        }
    } else {
        Reply::Datagram {
            length,
            from,
            to: Endpoint {
                addr: m.client,
                port: CLIENT_PORT,
            },
            mac: Some(m.mac),
        }
    }
}

// Whether a reply goes to all: the client has no address yet, or is refused.
fn goes_to_all(m: &Message, answer: Answer) -> bool
    ensures { result ≡ goes_to_all m.now answer }
{
    is_refusal(answer) || m.client.0 == 0
}

// Writes all octets of a reply.
fn write(config: &SlirpConfig, m: &Message, answer: Answer, into: &mut [u8]) -> usize
    requires room { 1024 ≤ length into.old }
    requires start { config.now.vdhcp_start.0 + 15 < 2 ^ 32 }
    requires place { IsPlaced answer }
    ensures written { Adds into.old 0 into.new result (reply_octets (settings config.now) m.now answer) }
    ensures end { result ≤ 790 }
{
    let at = put_front(m, into, 0);
    let at = put_addresses(config, m, answer, into, at);
    let at = put_back(config, m, answer, into, at);
    let at = add(&COOKIE, into, at);
    let at = put_options(config, answer, into, at);
    let at = add(&[255], into, at);
    add_zeros(LEAST.saturating_sub(at), into, at)
}

// A reply over Ethernet, and the client's number and flags.
fn put_front(m: &Message, into: &mut [u8], at: usize) -> usize
    requires { at + 12 ≤ length into.old }
    ensures written { Adds into.old at into.new result (front m.now) }
    ensures end { result ≡ at + 12 }
{
    let at = add(&[2, 1, 6, 0], into, at);
    let at = add(&m.ident, into, at);
    let at = add(&[0, 0], into, at);
    add(&m.flags, into, at)
}

// The client's own address, the one that is given, the next server's and no relay's.
fn put_addresses(
    config: &SlirpConfig,
    m: &Message,
    answer: Answer,
    into: &mut [u8],
    at: usize,
) -> usize
    requires room { at + 16 ≤ length into.old }
    requires start { config.now.vdhcp_start.0 + 15 < 2 ^ 32 }
    requires place { IsPlaced answer }
    ensures written { Adds into.old at into.new result (addresses (settings config.now) m.now answer) }
    ensures end { result ≡ at + 16 }
{
    let at = add_number(own_address(m, answer), into, at);
    let at = add_number(given(config, answer), into, at);
    let at = add_number(next_server(config, answer), into, at);
    add(&[0; 4], into, at)
}

// The client's own address in an ACK.
fn own_address(m: &Message, answer: Answer) -> u32
    ensures { result ≡ (if is_ack answer then m.now.client.0 else 0) }
{
    if kind_of(answer) == ACK {
        m.client.0
    } else {
        0
    }
}

// The server that comes next is the virtual host.
fn next_server(config: &SlirpConfig, answer: Answer) -> u32
    ensures { result ≡ (if is_refusal answer then 0 else config.now.vhost.0) }
{
    if is_refusal(answer) {
        0
    } else {
        config.vhost.0
    }
}

// The file that is told.
fn file(config: &SlirpConfig, answer: Answer) -> &[u8]
    ensures file { result.now ≡ (if is_refusal answer then [] else config.now.bootfile.items) }
    ensures few { length result.now ≤ 127 }
{
    if is_refusal(answer) {
        &[]
    } else {
        config.bootfile.as_slice()
    }
}

// The client's hardware address, no name of a server, and the file.
fn put_back(config: &SlirpConfig, m: &Message, answer: Answer, into: &mut [u8], at: usize) -> usize
    requires { at + 208 ≤ length into.old }
    ensures written { Adds into.old at into.new result (back (settings config.now) m.now answer) }
    ensures end { result ≡ at + 208 }
{
    let at = add_filled(&m.mac.0, 16, into, at);
    let at = add_zeros(64, into, at);
    add_filled(file(config, answer), 128, into, at)
}

// The options, without the end.
fn put_options(config: &SlirpConfig, answer: Answer, into: &mut [u8], at: usize) -> usize
    requires { at + 549 ≤ length into.old }
    ensures written { Adds into.old at into.new result (put_octets form (options (settings config.now) answer)) }
    ensures end { result ≤ at + 549 }
{
    let table = options_written();
    let at = put(&table, MESSAGE_KIND, &[kind_of(answer)], into, at);
    let at = put_number(&table, SERVER, config.vhost.0, into, at);
    put_further(&table, config, answer, into, at)
}

// The options behind the kind and the server: none in a NAK, the time of a lease where an address is given.
fn put_further(
    table: &Table<10>,
    config: &SlirpConfig,
    answer: Answer,
    into: &mut [u8],
    at: usize,
) -> usize
    requires table { table.now ≡ record { form = form; rows = rows_written } }
    requires room { at + 540 ≤ length into.old }
    ensures written { Adds into.old at into.new result (put_octets form (further_options (settings config.now) answer)) }
    ensures end { result ≤ at + 540 }
{
    match answer {
        Answer::Silence => at,
        Answer::Offers(_) => put_lease(table, config, into, at),
        Answer::Lends(_) => put_lease(table, config, into, at),
        Answer::Informs => put_network(table, config, into, at),
        Answer::Refuses => at,
    }
}

// The time of a lease, and the network.
fn put_lease(table: &Table<10>, config: &SlirpConfig, into: &mut [u8], at: usize) -> usize
    requires table { table.now ≡ record { form = form; rows = rows_written } }
    requires room { at + 540 ≤ length into.old }
    ensures written { Adds into.old at into.new result (put_octets form (lease_option ++ network_options (settings config.now))) }
    ensures end { result ≤ at + 540 }
{
    let at = put_number(table, LEASE_TIME, LEASE_SECONDS, into, at);
    put_network(table, config, into, at)
}

// What a guest is told of the network.
fn put_network(table: &Table<10>, config: &SlirpConfig, into: &mut [u8], at: usize) -> usize
    requires table { table.now ≡ record { form = form; rows = rows_written } }
    requires room { at + 534 ≤ length into.old }
    ensures written { Adds into.old at into.new result (put_octets form (network_options (settings config.now))) }
    ensures end { result ≤ at + 534 }
{
    let at = put_number(table, SUBNET_MASK, config.vnetmask.0, into, at);
    let at = put_router(table, config, into, at);
    let at = put_name_server(table, config, into, at);
    let at = put_text(table, HOST_NAME, &config.vhostname, into, at);
    let at = put_text(table, DOMAIN_NAME, &config.vdomainname, into, at);
    let at = put_text(table, TFTP_SERVER_NAME, &config.tftp_server_name, into, at);
    put_text(table, BOOT_FILE, &config.bootfile, into, at)
}

// The router, where guests aren't restricted.
fn put_router(table: &Table<10>, config: &SlirpConfig, into: &mut [u8], at: usize) -> usize
    requires table { table.now ≡ record { form = form; rows = rows_written } }
    requires room { at + 6 ≤ length into.old }
    ensures written { Adds into.old at into.new result (put_octets form (router (settings config.now))) }
    ensures end { result ≤ at + 6 }
{
    if config.restricted {
        return at;
    }
    put_number(table, ROUTER, config.vhost.0, into, at)
}

// The name server, where names are served.
fn put_name_server(table: &Table<10>, config: &SlirpConfig, into: &mut [u8], at: usize) -> usize
    requires table { table.now ≡ record { form = form; rows = rows_written } }
    requires room { at + 6 ≤ length into.old }
    ensures written { Adds into.old at into.new result (put_octets form (name_server (settings config.now))) }
    ensures end { result ≤ at + 6 }
{
    if config.resolver.is_some() && !config.restricted && !config.disable_dns {
        put_number(table, NAME_SERVERS, config.vnameserver.0, into, at)
    } else {
        at
    }
}

// A text, where there is one.
fn put_text(
    table: &Table<10>,
    code: u8,
    text: &ArrayVec<u8, 127>,
    into: &mut [u8],
    at: usize,
) -> usize
    requires table { table.now ≡ record { form = form; rows = rows_written } }
    requires can { (body : List ℕ) → 0 < length body → length body ≤ 127 → CanPut form rows_written code body }
    requires room { at + 129 ≤ length into.old }
    ensures written { Adds into.old at into.new result (put_octets form (text_option code text.now.items)) }
    ensures end { result ≤ at + 129 }
{
    let text = text.as_slice();
    if text.is_empty() {
        return at;
    }
    put(table, code, text, into, at)
}

// An option with a number of four octets.
fn put_number(table: &Table<10>, code: u8, number: u32, into: &mut [u8], at: usize) -> usize
    requires table { table.now ≡ record { form = form; rows = rows_written } }
    requires can { CanPut form rows_written code (four number) }
    requires room { at + 6 ≤ length into.old }
    ensures written { Adds into.old at into.new result (put_octets form ((code, four number) ∷ [])) }
    ensures end { result ≡ at + 6 }
{
    put(table, code, &number.to_be_bytes(), into, at)
}

// OFFER, ACK or NAK (RFC 2132, 9.6).
fn kind_of(answer: Answer) -> u8
    ensures { result ≡ kind_of answer }
{
    match answer {
        Answer::Silence => 0,
        Answer::Offers(_) => OFFER,
        Answer::Lends(_) | Answer::Informs => ACK,
        Answer::Refuses => NAK,
    }
}

fn is_silence(answer: Answer) -> bool
    ensures { result ≡ is_silence answer }
{
    match answer {
        Answer::Silence => true,
        Answer::Offers(_) | Answer::Lends(_) | Answer::Informs | Answer::Refuses => false,
    }
}

fn is_refusal(answer: Answer) -> bool
    ensures { result ≡ is_refusal answer }
{
    match answer {
        Answer::Refuses => true,
        Answer::Silence | Answer::Offers(_) | Answer::Lends(_) | Answer::Informs => false,
    }
}

// The address that is given.
fn given(config: &SlirpConfig, answer: Answer) -> u32
    requires start { config.now.vdhcp_start.0 + 15 < 2 ^ 32 }
    requires place { IsPlaced answer }
    ensures { result ≡ given (settings config.now) answer }
{
    match answer {
        Answer::Offers(place) | Answer::Lends(place) => config.vdhcp_start.0 + place as u32,
        Answer::Silence | Answer::Informs | Answer::Refuses => 0,
    }
}

// Writes an option behind what is written.
fn put(table: &Table<10>, code: u8, body: &[u8], into: &mut [u8], at: usize) -> usize
    requires can { CanPut form rows_written code body.now }
    requires table { table.now ≡ record { form = form; rows = rows_written } }
    requires room { at + 2 + length body.now ≤ length into.old }
    ensures written { Adds into.old at into.new result (put_octets form ((code, body.now) ∷ [])) }
    ensures end { result ≡ at + 2 + length body.now }
{
    at + table.write(code, body, &mut into[at..])
}

// Writes a number of four octets.
fn add_number(number: u32, into: &mut [u8], at: usize) -> usize
    requires { at + 4 ≤ length into.old }
    ensures written { Adds into.old at into.new result (four number) }
    ensures end { result ≡ at + 4 }
{
    add(&number.to_be_bytes(), into, at)
}

// Writes octets, and zeros up to a count.
fn add_filled(octets: &[u8], count: usize, into: &mut [u8], at: usize) -> usize
    requires few { length octets.now ≤ count }
    requires room { at + count ≤ length into.old }
    ensures written { Adds into.old at into.new result (filled count octets.now) }
    ensures end { result ≡ at + count }
{
    let at = add(octets, into, at);
    add_zeros(count - octets.len(), into, at)
}

// Writes octets behind what is written.
fn add(octets: &[u8], into: &mut [u8], at: usize) -> usize
    requires { at + length octets.now ≤ length into.old }
    ensures written { Adds into.old at into.new result octets.now }
    ensures end { result ≡ at + length octets.now }
{
    let end = at + octets.len();
    into[at..end].copy_from_slice(octets);
    end
}

// Writes zeros behind what is written.
fn add_zeros(count: usize, into: &mut [u8], at: usize) -> usize
    requires { at + count ≤ length into.old }
    ensures written { Adds into.old at into.new result (zeros count) }
    ensures end { result ≡ at + count }
{
    let end = at + count;
    into[at..end].fill(0);
    end
}
