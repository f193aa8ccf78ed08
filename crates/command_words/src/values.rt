//! The values of options beside numbers and addresses: networks, texts and the place of the link.
ghost use Rattle.std.specs.Prelude.{[], ◌≡◌, ◌∷◌, ◌<◌, ◌≤◌, ℕ, IfOk, MatchBool, OnErr, length};
ghost use Rattle.slirp_settings.specs.Ranges.{mask_of};
ghost use Rattle.world_face.specs.Journal.{AreOctets, AtPath, IsPlace, Place, place_of as link_place};
ghost use Rattle.address_text.specs.Texts.{IsNumber};
ghost use Rattle.command_words.specs.Values.{CanHave};
ghost use Rattle.command_words.specs.declared.options.Kind.TheVariants.{Network};
ghost use Rattle.command_words.specs.Texts.{IsFile, IsNetwork, IsLink, held_folder, held_text};

use crate::options::Kind;
use address_text::{NoReading, read_address, read_endpoint, read_number, read_short, split_at};
use arrayvec::{ArrayString, ArrayVec};
use net_octets::Ip4;
use world_face::LinkAt;

/// The most octets of a file's name.
const MOST_NAME: usize = 1280;

/// A network and its mask: an address, and how many ones the mask has.
pub(crate) fn read_network(text: &[u8]) -> Result<(Ip4, Ip4), NoReading>
    ensures network { IfOk result (λ read. IsNetwork text.now read.0.0 read.1.0) }
    ensures refused { OnErr result ((network mask : ℕ) → ¬ IsNetwork text.now network mask) }
{
    let (address, ones) = split_at(text, b'/')?;
    let network = read_address(address)?;
    let mask = read_mask(ones)?;
    Ok((network, mask))
}

// A mask by its number of ones, 0 to 32.
fn read_mask(text: &[u8]) -> Result<Ip4, NoReading>
    ensures mask { IfOk result (λ mask. (ones : ℕ) × IsNumber 64 text.now ones × (ones ≤ 32) × (mask.0 ≡ mask_of ones)) }
    ensures refused { OnErr result ((ones : ℕ) → IsNumber 64 text.now ones → ¬ (ones ≤ 32)) }
{
    let ones = read_number(text)?;
    if ones > 32 {
        return Err(NoReading);
    }
    Ok(mask_of(ones as u32))
}

// So many ones, then zeros.
fn mask_of(ones: u32) -> Ip4
    requires { ones ≤ 32 }
    ensures { result.0 ≡ mask_of ones }
{
    Ip4(((1u64 << 32) - (1u64 << (32 - ones))) as u32)
}

/// Holds the octets of a text. One of over 127 isn't held: in its place stands an octet that no text has, for which its field is refused.
pub(crate) fn hold_text(text: &[u8], into: &mut ArrayVec<u8, 127>)
    requires { into.old.items ≡ [] }
    ensures { into.new.items ≡ held_text text.now }
{
    if into.try_extend_from_slice(text).is_err() {
        into.push(0);
    }
}

/// The octets of a folder's name. One of over 1,024 isn't held, as a text isn't of over 127.
pub(crate) fn held_folder(text: &str) -> ArrayString<1024>
    ensures { result.bytes ≡ held_folder text.now }
{
    match ArrayString::from(text) {
        Ok(held) => held,
        Err(_) => {
            let mut refused = ArrayString::new();
            refused.push('\0');
            refused
        }
    }
}

/// Whether a word can name a file: it has 1 to 1,280 octets.
pub(crate) fn is_file_name(word: &str) -> bool
    ensures { MatchBool result (IsFile word.now) (¬ IsFile word.now) }
{
    !word.is_empty() && word.len() <= MOST_NAME
}

/// Whether an option of this kind can have the value.
pub(crate) fn can_have(kind: Kind, value: &str) -> bool
    ensures { MatchBool result (CanHave kind value.now) (¬ CanHave kind value.now) }
{
    match kind {
        Kind::Nothing | Kind::Text => true,
        Kind::Short => read_short(value.as_bytes()).is_ok(),
        Kind::Number => read_number(value.as_bytes()).is_ok(),
        Kind::Address => read_address(value.as_bytes()).is_ok(),
        Kind::AddressPort => read_endpoint(value.as_bytes()).is_ok(),
        Kind::Network => is_network(value),
        Kind::Link => read_link(value).is_ok(),
    }
}

fn is_network(value: &str) -> bool
    ensures { MatchBool result (CanHave Network value.now) (¬ CanHave Network value.now) }
{
    match read_network(value.as_bytes()) {
        Ok(_) => true,
        Err(_) => false,
    }
}

/// Where the link is: a path of 1 to 107 octets, or an endpoint.
pub(crate) fn read_link(text: &str) -> Result<LinkAt, NoReading>
    ensures link { IfOk result (λ at. IsLink text.now (link_place at)) }
    ensures place { IfOk result (λ at. IsPlace (link_place at)) }
    ensures refused { OnErr result ((at : Place) → ¬ IsLink text.now at) }
{
    if let Some(path) = text.strip_prefix("unix:") {
        return read_path(path);
    }
    let Some(endpoint) = text.strip_prefix("tcp:") else {
        return Err(NoReading);
    };
    Ok(LinkAt::Tcp(read_endpoint(endpoint.as_bytes())?))
}

fn read_path(path: &str) -> Result<LinkAt, NoReading>
    ensures path { IfOk result (λ at. (link_place at ≡ AtPath path.now) × (0 < length path.now) × (length path.now ≤ 107)) }
    ensures octets { IfOk result (λ at. AreOctets path.now) }
    ensures refused { OnErr result (¬ ((0 < length path.now) × (length path.now ≤ 107))) }
{
    if path.is_empty() {
        return Err(NoReading);
    }
    match ArrayString::from(path) {
        Ok(path) => Ok(LinkAt::Unix(path)),
        Err(_) => Err(NoReading),
    }
}
