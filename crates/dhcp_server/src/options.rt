//! The options of DHCP that are read and written (RFC 2132).
ghost use Rattle.std.specs.Prelude.{◌≡◌};
ghost use Rattle.rules_dhcp.specs.Messages.{form, rows_read};
ghost use Rattle.rules_dhcp.specs.Replies.{rows_written};

use tlv_table::{Form, Table, rows};

// The codes of options (RFC 2132, 3 and 9). `rows!` takes no names: the tables below have the numbers.

pub(crate) const SUBNET_MASK: u8 = 1;

pub(crate) const ROUTER: u8 = 3;

pub(crate) const NAME_SERVERS: u8 = 6;

pub(crate) const HOST_NAME: u8 = 12;

pub(crate) const DOMAIN_NAME: u8 = 15;

pub(crate) const ASKED_ADDRESS: u8 = 50;

/// In seconds.
pub(crate) const LEASE_TIME: u8 = 51;

pub(crate) const MESSAGE_KIND: u8 = 53;

/// The address of the server that answers, or that a client chose.
pub(crate) const SERVER: u8 = 54;

pub(crate) const TFTP_SERVER_NAME: u8 = 66;

pub(crate) const BOOT_FILE: u8 = 67;

/// Options are a code, the length of the body and the body, a pad is 0, and 255 ends them (RFC 2132, 2).
const FORM: Form = Form {
    end: 255,
    pad: 0,
    end_needed: true,
    counts_head: false,
};

/// The table of the options that are read: a client's name, the address it asks for, the kind of its message, the server, its identifier.
pub fn options_read() -> Table<5>
    ensures { result ≡ record { form = form; rows = rows_read } }
{
    let rows = rows![
        12: 1 to 255, repeats;
        50: 4 to 4, once;
        53: 1 to 1, once;
        54: 4 to 4, once;
        61: 2 to 255, repeats;
    ];
    Table::of(FORM, rows)
}

/// The table of the options that are written: mask, router, name server, the client's name and its domain, the time of a lease, the kind of the message, the
/// server, the TFTP server's name and the file.
pub fn options_written() -> Table<10>
    ensures { result ≡ record { form = form; rows = rows_written } }
{
    let rows = rows![
        1: 4 to 4, once;
        3: 4 to 4, once;
        6: 4 to 4, once;
        12: 1 to 127, once;
        15: 1 to 127, once;
        51: 4 to 4, once;
        53: 1 to 1, once;
        54: 4 to 4, once;
        66: 1 to 127, once;
        67: 1 to 127, once;
    ];
    Table::of(FORM, rows)
}
