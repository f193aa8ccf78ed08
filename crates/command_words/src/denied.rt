//! The networks that are denied to guests.
ghost use Rattle.std.specs.Prelude.{◌≡◌, ◌≤◌, ◌++◌, ◌∷◌, ℕ, List, [], IfOk, OnErr, OnOk, decimal, map};
ghost use Rattle.slirp_settings.specs.declared.Denial.{Denial as ADenial};
ghost use Rattle.command_words.specs.Narrowing.{held_denials};
ghost use Rattle.command_words.specs.Texts.{AreDenials, IsDenial};

use address_text::{NoReading, read_address, read_number, split_at};
use arrayvec::ArrayVec;
use net_octets::Prefix;
use slirp_settings::Denial;

/// How many the settings have room for: one more than there may be.
const ROOM: usize = 9;

/// Puts what the values of `--deny` give: the first 9 of them, for which, where there are more than 8, their field is refused.
pub(crate) fn put_denied(
    texts: &[&str],
    denied: &mut ArrayVec<Denial, ROOM>,
) -> Result<(), NoReading>
    requires { denied.old.items ≡ [] }
    ensures put { OnOk result ((all : List ADenial) × AreDenials (map (λ text. text.now) texts.now) all × (denied.new.items ≡ held_denials all)) }
    ensures refused { OnErr result ((all : List ADenial) → ¬ AreDenials (map (λ text. text.now) texts.now) all) }
{
    for text in texts {
        let denial = read_denial(text.as_bytes())?;
        put_one(denial, denied);
    }
    Ok(())
}

// Puts a network where there is room.
fn put_one(denial: Denial, denied: &mut ArrayVec<Denial, ROOM>)
    ensures { (all : List ADenial) → denied.old.items ≡ held_denials all → denied.new.items ≡ held_denials (all ++ denial ∷ []) }
{
    if !denied.is_full() {
        denied.push(denial);
    }
}

// A network: an address, and how many bits its prefix has.
fn read_denial(text: &[u8]) -> Result<Denial, NoReading>
    ensures denial { IfOk result (λ denial. IsDenial text.now denial) }
    ensures refused { OnErr result ((denial : ADenial) → ¬ IsDenial text.now denial) }
{
    let (address, length) = split_at(text, b'/')?;
    Ok(Denial(Prefix {
        net: read_address(address)?,
        length: read_length(length)?,
    }))
}

// The length of a prefix, 0 to 32.
fn read_length(text: &[u8]) -> Result<u8, NoReading>
    ensures length { IfOk result (λ length. (text.now ≡ decimal length) × (length ≤ 32)) }
    ensures refused { OnErr result ((length : ℕ) → length ≤ 32 → ¬ (text.now ≡ decimal length)) }
{
    let length = read_number(text)?;
    if length > 32 {
        return Err(NoReading);
    }
    Ok(length as u8)
}
