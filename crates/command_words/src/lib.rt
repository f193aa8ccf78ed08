//! The words of the command line, and the settings that they give. Nothing is allocated.
//!
//! `replay FILE [OPTIONS] [RULE]...`, `serve --link AT [OPTIONS] [RULE]...` and `drive NUMBER OCTETS` have a reading; FILE has 1 to 1,280 octets. An option is written
//! `--name value` or `--name=value`, a flag `--name`, each but `--deny` once, and anywhere behind the command. Behind the word `--` no word is an option. No name is
//! shortened and no value is empty; numbers are decimal digits without a needless zero in front. Of the words that stand by themselves the first of `replay` is FILE,
//! and each other is a RULE.
//!
//! | Option | Value | Without it |
//! |---|---|---|
//! | `--link` | `unix:PATH`, PATH of 1 to 107 octets, or `tcp:` and an endpoint; `serve` alone | needed |
//! | `--record`, `--capture` | flags, of which at most one stands; `serve` alone | not set |
//! | `--net` | an address, `/` and a number up to 32 | 10.0.2.0/24 |
//! | `--host`, `--dns`, `--dhcpstart` | an address | 2, 3 and 15 behind the network's first address, modulo 2^32 |
//! | `--restrict`, `--no-loopback`, `--congestion`, `--no-dhcp`, `--no-dns` | flags | not set |
//! | `--hostname`, `--domainname`, `--tftp-server-name`, `--bootfile` | a text | none |
//! | `--mtu`, `--mru` | a number up to 65,535 | 1500 |
//! | `--flows`, `--ring`, `--turns` | a number up to 2^64 - 1 | 256, 65,535, 2^44 |
//! | `--resolver`, `--control` | an endpoint: an address, `:` and a number up to 65,535 | none |
//! | `--outbound` | an address | none |
//! | `--tftp` | a folder: a text | none |
//! | `--deny`, up to 8 times | a network as in `--net`: guests don't reach it | none |
//!
//! RULE is `[hostfwd=][tcp|udp]:[hostaddr]:hostport-[guestaddr]:guestport`, with addresses and numbers up to 65,535: this port of the host leads to that one of a
//! guest, of TCP where no type is said. Without an address it is every one of the host's, 0.0.0.0, and the first that is leased to guests, whether `--dhcpstart` stands
//! before the RULE or behind it. Or it is `guestfwd=[tcp]:ADDRESS:PORT-ENDPOINT`: connections to this port of the network lead to that endpoint.
//!
//! `drive` has neither options nor RULEs: NUMBER and OCTETS are numbers up to 2^64 - 1, and its settings are the usual ones. OCTETS over 10,000,000 is out of its
//! range.
//!
//! A setting out of its range is named, the first in the order of `slirp_settings`: a text of over 127 octets too, a folder of over 1,024, more than 32 RULEs of the
//! first kind or 16 of the second, and more than 8 denied networks. With `--no-dhcp`, `--no-dns`, `--outbound`, `--control`, `--deny` or a RULE of the second kind the
//! settings are of version 2.
//!
//! Proved:
//! - `read_words` answers what the words of the command line mean, options and RULEs: a command exactly where they mean one whose settings are in range (`meant`,
//!   `sound`, `only`), with a place for the link (`place`); the first field out of range exactly where there is one (`bad_config`, `only`); usage exactly where they
//!   mean nothing, with the first word at which reading stops, or the end (`usage`, by `StopsAt`; `only`, `stopped_words_mean_nothing`).
//! - What each option and each RULE makes of the settings, of connections or of datagrams, is a sentence of its own (`AreSettings`, `IsForward`, `IsGuestForward`,
//!   `IsDenial`). They mean one thing at most (`words_mean_one_thing`). `--record` and `--capture` are of `serve` alone, and one of them at most stands (`meant`, by
//!   `IsTap`). Of `drive` two numbers (`broken_in`).
//! - `read_rule` reads a RULE for a port of the host, and refuses exactly what is none (`rule`, `refused`); `Setting::name` is a setting's name as it is printed.
//!
//! Cases of words are run by `worked_words`.
//!
//! Let through (rt plant): nothing but values that fill a list before it has any (`Default`).
#![tactic(auto)]

mod denied;
mod guests;
mod line;
mod options;
mod rules;
mod settings;
mod values;

ghost use Rattle.std.specs.Prelude.{◌≡◌, ◌≢◌, ℕ, List, [], Err, IfErr, IfOk, MatchBool, OnErr, OnOk, None, Some, map, nat_lt, true, ◌∷◌, ◌<◌, ◌≤◌, length, if◌then◌else◌};
ghost use Rattle.std.specs.String.{string_bytes};
ghost use Rattle.std.specs.Result.{result_err};
ghost use Rattle.slirp_settings.specs.Addresses.{Config};
ghost use Rattle.slirp_settings.specs.Ranges.{IsSound};
ghost use Rattle.slirp_settings.specs.Settings.{usual};
ghost use Rattle.std.specs.Option.{option_map};
ghost use Rattle.slirp_settings.specs.Ranges.{first_broken};
ghost use Rattle.slirp_settings.specs.Settings.{settings};
ghost use Rattle.command_words.specs.Meaning.{setting_name};
ghost use Rattle.command_words.specs.declared.Setting.{Setting as ASetting};
ghost use Rattle.command_words.specs.declared.Setting.TheVariants.{Of, Octets};
ghost use Rattle.world_face.specs.Journal.{Place};
ghost use Rattle.command_words.specs.Meaning.{AnswersBy, Drives, HasPlace, IsHelp, Meaning, Means, MeansDrive, MeansReplay, MeansServe, Replays, Serves, broken_in, config_of, is_capture};
ghost use Rattle.command_words.specs.Meaning.{is_record, said};
ghost use Rattle.command_words.specs.Narrowing.{narrowed_meaning, narrowed_settings};
ghost use Rattle.command_words.specs.Options.{Word};
ghost use Rattle.command_words.specs.Stops.{StopsAt, StopsBehind};
ghost use Rattle.address_text.specs.Texts.{IsNumber};
ghost use Rattle.command_words.specs.declared.Stop.{Stop as AStop};
ghost use Rattle.command_words.specs.declared.Stop.TheVariants.{Word as AtWord};
ghost use Rattle.command_words.specs.declared.Tap.{Tap as ATap};
ghost use Rattle.command_words.specs.declared.WordFault.TheVariants.{BadConfig, Usage};

use crate::line::Line;
use crate::options::Verb;
use crate::values::read_link;
use address_text::{NoReading, read_number};
use arrayvec::ArrayString;
pub use rules::read_rule;
use slirp_settings::{Field, SlirpConfig};
use world_face::LinkAt;

/// What the words of the command line ask for.
#[derive(Drop)]
pub enum Command {
    /// The schedule in a file, whose name has 1 to 1,280 octets, is replayed with these settings.
    Replay(ArrayString<1280>, SlirpConfig),
    /// The network is served with these settings, on the link at this place, and this is put of it.
    Serve(SlirpConfig, LinkAt, Tap),
    /// A drill is run with the usual settings: from this number, of so many octets.
    Drive(u64, u64),
    /// How the words are written is told.
    Help,
    /// The version is told.
    Version,
}

/// What `serve` puts while it runs.
#[derive(Clone, Copy)]
pub enum Tap {
    /// Nothing.
    Off,
    /// The line of each call, by which the run can be made again.
    Record,
    /// The frames of the link.
    Capture,
}

/// A setting of a command, by which its fault is named.
#[derive(Clone, Copy, Debug, PartialEq, Eq)]
pub enum Setting {
    /// A field of the network's settings.
    Of(Field),
    /// The octets of a drill.
    Octets,
}

impl Setting {
    /// Its name, as it is printed.
    pub fn name(self) -> &'static str
        ensures { result.now ≡ setting_name self }
    {
        match self {
            Setting::Of(field) => field.name(),
            Setting::Octets => "octets",
        }
    }
}

/// The most octets of a drill.
const MOST_DRIVEN: u64 = 10_000_000;

impl Command {
    // Ok exactly where each setting is in its range, else the first that isn't.
    fn check(&self) -> Result<(), Setting>
        ensures sound { OnOk result (IsSound (config_of (said self.now))) }
        ensures first { result_err result ≡ broken_in (said self.now) }
    {
        match self {
            Command::Replay(_, config) => check_settings(config),
            Command::Serve(config, ..) => check_settings(config),
            Command::Drive(_, octets) => check_driven(*octets),
            Command::Help | Command::Version => check_usual(),
        }
    }
}

// The settings of the network, by their fields.
fn check_settings(config: &SlirpConfig) -> Result<(), Setting>
    ensures sound { OnOk result (IsSound (settings config.now)) }
    ensures first { result_err result ≡ option_map Of (first_broken (settings config.now)) }
{
    match config.check() {
        Ok(()) => Ok(()),
        Err(field) => Err(Setting::Of(field)),
    }
}

// The usual settings are in their ranges.
fn check_usual() -> Result<(), Setting>
    ensures sound { OnOk result (IsSound usual) }
    ensures first { result_err result ≡ None }
{
    Ok(())
}

// The octets of a drill.
fn check_driven(octets: u64) -> Result<(), Setting>
    ensures sound { OnOk result (IsSound usual) }
    ensures first { result_err result ≡ (if nat_lt 10000000 octets then Some Octets else None) }
{
    if octets > MOST_DRIVEN {
        Err(Setting::Octets)
    } else {
        Ok(())
    }
}

/// Where the reading of words stops.
#[derive(Clone, Copy, PartialEq)]
pub enum Stop {
    /// At the word of this place, counted from 0, the command first: no reading goes on with it, though some go on with those before it.
    Word(usize),
    /// Behind all of them: a word is missing.
    End,
}

/// Why words aren't followed.
#[derive(Clone, Copy, PartialEq)]
pub enum WordFault {
    /// They have no reading, which stops here.
    Usage(Stop),
    /// They have one, and this is its first setting that isn't in its range.
    BadConfig(Setting),
}

/// Reads the words of the command line, without the program's name. Of `replay`, `serve` and `drive` they say what is asked for and with which settings, which are
/// then checked; `--help` or `help`, and `--version`, stand alone; all other words have no reading.
pub fn read_words(words: &Vec<String>) -> Result<Command, WordFault>
    // A command is what the words mean, with each field in its range.
    ensures meant { IfOk result (λ command. Means (map string_bytes words.now.items) (said command)) }
    ensures sound { IfOk result (λ command. IsSound (config_of (said command))) }
    // The link can be opened at the place that is told.
    ensures place { IfOk result (λ command. HasPlace (said command)) }
    // A setting is named where the words mean something of which it is the first that isn't in its range.
    ensures bad_config { (setting : ASetting) → result ≡ Err (BadConfig setting) → (meaning : Meaning) × Means (map string_bytes words.now.items) meaning
        × (broken_in meaning ≡ Some setting) }
    // Words are refused where they mean nothing, with the first word by which no reading can go on.
    ensures usage { (stop : AStop) → result ≡ Err (Usage stop) → StopsAt (map string_bytes words.now.items) stop }
    // Whatever the words mean is answered: so each of the above comes exactly there.
    ensures only { (meaning : Meaning) → Means (map string_bytes words.now.items) meaning → AnswersBy result meaning }
{
    match command_of(words.as_slice()) {
        Ok(command) => checked(command),
        Err(stop) => Err(WordFault::Usage(stop)),
    }
}

/// Words mean one thing at most: no other pieces, no other settings and no other command can be seen in them.
pub fn words_mean_one_thing()
    ensures { (words : List Word) (one other : Meaning) → Means words one → Means words other → one ≡ other }
{}

// The command, where each field is in its range.
fn checked(command: Command) -> Result<Command, WordFault>
    requires { HasPlace (said command) }
    ensures same { IfOk result (λ c. said c ≡ said command) }
    ensures place { IfOk result (λ c. HasPlace (said c)) }
    ensures sound { IfOk result (λ c. IsSound (config_of (said c))) }
    ensures whole { IfOk result (λ c. broken_in (said command) ≡ None) }
    ensures broken { IfErr result (λ fault. (setting : ASetting) × (fault ≡ BadConfig setting) × (broken_in (said command) ≡ Some setting)) }
{
    match command.check() {
        Ok(()) => Ok(command),
        Err(field) => Err(WordFault::BadConfig(field)),
    }
}

/// Where reading stops nothing is meant.
pub fn stopped_words_mean_nothing()
    ensures { (words : List Word) (stop : AStop) → StopsAt words stop → (meaning : Meaning) → ¬ Means words meaning }
{}

// What the words ask for.
fn command_of(words: &[String]) -> Result<Command, Stop>
    ensures meant { IfOk result (λ command. (meaning : Meaning) × Means (map string_bytes words.now) meaning × (said command ≡ narrowed_meaning meaning)) }
    ensures place { IfOk result (λ command. HasPlace (said command)) }
    ensures refused { IfErr result (λ stop. StopsAt (map string_bytes words.now) stop) }
{
    let Some((command, behind)) = words.split_first() else {
        return Err(Stop::End);
    };
    if command.as_str() == "replay" {
        return replay_of(behind);
    }
    if command.as_str() == "serve" {
        return serve_of(behind);
    }
    if command.as_str() == "drive" {
        return drive_of(behind);
    }
    if is_help(command.as_str()) {
        return alone(behind, Command::Help);
    }
    if command.as_str() == "--version" {
        return alone(behind, Command::Version);
    }
    Err(Stop::Word(0))
}

// Whether a word asks how words are written.
fn is_help(word: &str) -> bool
    ensures { MatchBool result (IsHelp word.now) (¬ IsHelp word.now) }
{
    word == "--help" || word == "help"
}

// A command behind which no word stands.
fn alone(behind: &[String], command: Command) -> Result<Command, Stop>
    ensures alone { IfOk result (λ c. (c ≡ command) × (behind.now ≡ [])) }
    ensures refused { IfErr result (λ stop. (stop ≡ AtWord 1) × (behind.now ≢ [])) }
{
    if behind.is_empty() {
        Ok(command)
    } else {
        Err(Stop::Word(1))
    }
}

// What the words behind `replay` ask for.
// The first word by itself is FILE, whatever it encodes: `replay ::80-:80` replays the file of this name.
fn replay_of(words: &[String]) -> Result<Command, Stop>
    ensures meant { IfOk result (λ command. (file : List ℕ) × (config : Config) × MeansReplay (map string_bytes words.now) file config
        × (said command ≡ Replays file (narrowed_settings config))) }
    ensures place { IfOk result (λ command. HasPlace (said command)) }
    ensures refused { IfErr result (λ stop. StopsBehind (λ words. (file : List ℕ) × (config : Config) × MeansReplay words file config) (map string_bytes words.now) stop) }
{
    let (line, guests, denied) = Line::read(Verb::Replay, words)?;
    let Some((file, rules)) = line.alone().split_first() else {
        return Err(Stop::End);
    };
    let Ok(file) = file_of(file) else {
        return Err(Stop::End);
    };
    let Ok(config) = line.settings(rules, guests.as_slice(), denied.as_slice()) else {
        return Err(Stop::End);
    };
    Ok(Command::Replay(file, config))
}

// A file's name of 1 to 1,280 octets.
fn file_of(word: &str) -> Result<ArrayString<1280>, NoReading>
    ensures file { IfOk result (λ file. (word.now ≡ file.bytes) × (0 < length file.bytes) × (length file.bytes ≤ 1280)) }
    ensures refused { OnErr result (¬ ((0 < length word.now) × (length word.now ≤ 1280))) }
{
    if word.is_empty() {
        return Err(NoReading);
    }
    match ArrayString::from(word) {
        Ok(file) => Ok(file),
        Err(_) => Err(NoReading),
    }
}

// What the words behind `serve` ask for.
fn serve_of(words: &[String]) -> Result<Command, Stop>
    ensures meant { IfOk result (λ command. (config : Config) × (at : Place) × (tap : ATap) × MeansServe (map string_bytes words.now) config at tap
        × (said command ≡ Serves (narrowed_settings config) at tap)) }
    ensures place { IfOk result (λ command. HasPlace (said command)) }
    ensures refused { IfErr result (λ stop. StopsBehind (λ words. (config : Config) × (at : Place) × (tap : ATap) × MeansServe words config at tap) (map string_bytes words.now) stop) }
{
    let (line, guests, denied) = Line::read(Verb::Serve, words)?;
    let Some(link) = line.value("--link") else {
        return Err(Stop::End);
    };
    let Ok(at) = read_link(link) else {
        return Err(Stop::End);
    };
    let Ok(tap) = tap_of(line.has("--record"), line.has("--capture")) else {
        return Err(Stop::End);
    };
    let Ok(config) = line.settings(line.alone(), guests.as_slice(), denied.as_slice()) else {
        return Err(Stop::End);
    };
    Ok(Command::Serve(config, at, tap))
}

// What is put of a run, by which of both flags is given.
fn tap_of(recorded: bool, captured: bool) -> Result<Tap, NoReading>
    ensures recorded { IfOk result (λ tap. recorded ≡ is_record tap) }
    ensures captured { IfOk result (λ tap. captured ≡ is_capture tap) }
    ensures refused { OnErr result ((recorded ≡ true) × (captured ≡ true)) }
{
    match (recorded, captured) {
        (false, false) => Ok(Tap::Off),
        (true, false) => Ok(Tap::Record),
        (false, true) => Ok(Tap::Capture),
        (true, true) => Err(NoReading),
    }
}

// What the words behind `drive` ask for.
fn drive_of(words: &[String]) -> Result<Command, Stop>
    ensures meant { IfOk result (λ command. (number : ℕ) × (octets : ℕ) × MeansDrive (map string_bytes words.now) number octets
        × (said command ≡ Drives number octets)) }
    ensures place { IfOk result (λ command. HasPlace (said command)) }
    ensures refused { IfErr result (λ stop. StopsBehind (λ words. (number : ℕ) × (octets : ℕ) × MeansDrive words number octets) (map string_bytes words.now) stop) }
{
    let Some((number, behind)) = words.split_first() else {
        return Err(Stop::End);
    };
    let Ok(number) = number_of(number) else {
        return Err(Stop::Word(1));
    };
    let Some((octets, behind)) = behind.split_first() else {
        return Err(Stop::End);
    };
    let Ok(octets) = number_of(octets) else {
        return Err(Stop::Word(2));
    };
    if !behind.is_empty() {
        return Err(Stop::Word(3));
    }
    Ok(Command::Drive(number, octets))
}

// A number of 64 bits.
fn number_of(word: &String) -> Result<u64, NoReading>
    ensures number { IfOk result (λ n. IsNumber 64 (string_bytes word.now) n) }
    ensures refused { OnErr result ((n : ℕ) → ¬ IsNumber 64 (string_bytes word.now) n) }
{
    read_number(word.as_str().as_bytes())
}
