//! The table of the options.
ghost use Rattle.std.specs.Prelude.{◌≡◌, find, map, option_copied};
ghost use Rattle.std.specs.Option.{option_map};
ghost use Rattle.command_words.specs.Options.{takes_value, kind_of, has_value, has_row, is_repeated, is_row};
ghost use Rattle.command_words.specs.Walking.{row_of};

/// The commands that have options.
#[derive(Clone, Copy)]
pub(crate) enum Verb {
    Replay,
    Serve,
}

/// What the value of an option can be.
#[derive(Clone, Copy)]
pub(crate) enum Kind {
    /// There is none: the option is a flag.
    Nothing,
    Text,
    /// A number of 16 bits.
    Short,
    /// A number of 64 bits.
    Number,
    Address,
    /// An address, a colon and a port.
    AddressPort,
    /// An address, a slash and how many ones its mask has.
    Network,
    /// The place of the link.
    Link,
}

// An option: its name, what its value can be, and whether `serve` alone has it.
struct Row {
    name: &'static str,
    kind: Kind,
    serve_alone: bool,
}

// Rows of the table, each written `NAME KIND of COMMANDS`.
macro_rules! rows {
    ($($name:literal $kind:ident of $commands:ident),* $(,)?) => {
        [$(Row {
            name: $name,
            kind: rows!(@ $kind),
            serve_alone: rows!(@ $commands),
        }),*]
    };
    (@ flag) => { Kind::Nothing };
    (@ text) => { Kind::Text };
    (@ short) => { Kind::Short };
    (@ number) => { Kind::Number };
    (@ address) => { Kind::Address };
    (@ port) => { Kind::AddressPort };
    (@ network) => { Kind::Network };
    (@ link) => { Kind::Link };
    (@ serve) => { true };
    (@ all) => { false };
}

/// How many options there are.
pub(crate) const COUNT: usize = 26;

const OPTIONS: [Row; COUNT] = rows![
    "--link" link of serve,
    "--record" flag of serve,
    "--capture" flag of serve,
    "--net" network of all,
    "--host" address of all,
    "--dns" address of all,
    "--dhcpstart" address of all,
    "--restrict" flag of all,
    "--no-loopback" flag of all,
    "--hostname" text of all,
    "--domainname" text of all,
    "--tftp-server-name" text of all,
    "--bootfile" text of all,
    "--mtu" short of all,
    "--mru" short of all,
    "--flows" number of all,
    "--ring" number of all,
    "--turns" number of all,
    "--congestion" flag of all,
    "--no-dhcp" flag of all,
    "--resolver" port of all,
    "--no-dns" flag of all,
    "--outbound" address of all,
    "--control" port of all,
    "--tftp" text of all,
    "--deny" network of all,
];

/// Whether the option of this name may stand several times.
pub(crate) fn is_repeated(name: &str) -> bool
    ensures { result ≡ is_repeated name.now }
{
    name == "--deny"
}

/// Whether a value goes with the command's option of this name; None where it has no such option.
pub(crate) fn takes_value(verb: Verb, name: &str) -> Option<bool>
    ensures { result ≡ takes_value verb name.now }
{
    match kind_of(verb, name) {
        Some(kind) => Some(has_value(kind)),
        None => None,
    }
}

/// What the value of the command's option of this name can be; None where it has no such option.
pub(crate) fn kind_of(verb: Verb, name: &str) -> Option<Kind>
    ensures { result ≡ kind_of verb name.now }
{
    kind_among(&OPTIONS, verb, name)
}

// What the value of the command's option of this name can be, by these rows.
fn kind_among(rows: &[Row], verb: Verb, name: &str) -> Option<Kind>
    ensures { result ≡ option_map (λ row. row.kind) (find (is_row verb name.now) (map row_of rows.now)) }
{
    match find_row(rows, verb, name) {
        Some(row) => Some(row.kind),
        None => None,
    }
}

fn has_value(kind: Kind) -> bool
    ensures { result ≡ has_value kind }
{
    match kind {
        Kind::Nothing => false,
        Kind::Text
        | Kind::Short
        | Kind::Number
        | Kind::Address
        | Kind::AddressPort
        | Kind::Network
        | Kind::Link => true,
    }
}

// The first of some rows that is the command's option of this name.
fn find_row<'a>(rows: &'a [Row], verb: Verb, name: &str) -> Option<&'a Row>
    ensures { option_copied result ≡ find (λ row. is_row verb name.now (row_of row)) rows.now }
{
    rows.iter().find(|row| is_row(verb, name, row))
}

// Whether the row is the command's option of this name.
fn is_row(verb: Verb, name: &str, row: &Row) -> bool
    ensures { result ≡ is_row verb name.now (row_of row.now) }
{
    row.name == name && has_row(verb, row)
}

fn has_row(verb: Verb, row: &Row) -> bool
    ensures { result ≡ has_row verb (row_of row.now) }
{
    match verb {
        Verb::Serve => true,
        Verb::Replay => !row.serve_alone,
    }
}
