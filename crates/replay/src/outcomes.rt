// What a call was answered, read.
#![tactic(auto, unfolding(crate::specs::Text::call_text, crate::specs::Text::answer_text))]

ghost use Rattle.std.specs.Prelude.{◌≡◌, ◌≢◌, ◌++◌, ◌∷◌, ℕ, List, Err, IfOk, OnErr, codes, length, ◌<◌, true};
ghost use Rattle.address_text.specs.Texts.{endpoint_text};
ghost use Rattle.replay.specs.Text.{hexadecimal, made_text, read_text, written_text, joined_answer, accepted_text, sent_text, got_text, size_text, waited_text, joined_text};
ghost use Rattle.net_octets.specs.declared.Endpoint.{Endpoint as AnEndpoint};
ghost use Rattle.poll_list.specs.Listing.{are_wants};
ghost use Rattle.poll_list.specs.declared.Want.{Want as AWant};
ghost use Rattle.world_face.specs.declared.Io.{Io as AnIo};
ghost use Rattle.world_face.specs.declared.Made.{Made as AMade};
ghost use Rattle.world_face.specs.declared.Joined.{Joined as AJoined};
ghost use Rattle.world_face.specs.declared.Accepted.{Accepted as AnAccepted};
ghost use Rattle.world_face.specs.declared.Sent.{Sent as ASent};
ghost use Rattle.world_face.specs.declared.Got.{Got as AGot};
ghost use Rattle.world_face.specs.declared.FileSize.{FileSize as ASize};
ghost use Rattle.world_face.specs.declared.Waited.{Waited as AWaited};
ghost use Rattle.world_face.specs.Journal.{AreOctets, IsEndpoint, MayAccept, MayMeasure, Leaves, LeavesGot};
ghost use Rattle.replay.specs.declared.tokens.Unread.TheVariants.{NoReading};
ghost use Rattle.replay.specs.Range.{LeavesReady, Counts, IsAtOnce, ComesFrom};

use crate::allowing::same;
use crate::reported::Reported;
use crate::tokens::{Unread, read_endpoint, read_items, read_number, read_octets, split_at};
use std::alloc::Global;
use world_face::{Accepted, FileSize, Got, Io, Joined, Made, Sent, Waited};

pub(crate) fn read_waited(alloc: Global, text: &[u8]) -> Result<(Waited, Reported), Unread>
    ensures answer { IfOk result (λ pair. text.now ≡ waited_text pair.0 pair.1) }
    ensures range { IfOk result (λ pair. LeavesReady pair.0 pair.1) }
    ensures refused { result ≡ Err NoReading → (answer : AWaited) (ready : List AWant) → LeavesReady answer ready → text.now ≢ waited_text answer ready }
{
    if same(text, b"ready") {
        return Ok((Waited::Ready, Reported::none(alloc)));
    }
    if same(text, b"stop") {
        return Ok((Waited::Stop, Reported::none(alloc)));
    }
    if same(text, b"fail") {
        return Ok((Waited::Failed, Reported::none(alloc)));
    }
    match text {
        [b'r', b'e', b'a', b'd', b'y', b' ', items @ ..] => {
            Ok((Waited::Ready, read_reported(alloc, items)?))
        }
        _ => Err(Unread::NoReading),
    }
}

fn read_reported(alloc: Global, text: &[u8]) -> Result<Reported, Unread>
    ensures items { IfOk result (λ items. text.now ≡ joined_text items) }
    ensures some { IfOk result (λ items. 0 < length items) }
    ensures range { IfOk result (λ items. are_wants items ≡ true) }
    ensures refused { result ≡ Err NoReading → (want : AWant) (more : List AWant) → are_wants (want ∷ more) ≡ true → text.now ≢ joined_text (want ∷ more) }
{
    let items = read_items(alloc, text)?;
    match Reported::of(alloc, items) {
        Ok(reported) => Ok(reported),
        Err(_) => Err(Unread::NoMemory),
    }
}

pub(crate) fn read_made(text: &[u8]) -> Result<Made, Unread>
    ensures answer { IfOk result (λ answer. text.now ≡ made_text answer) }
    ensures refused { OnErr result ((answer : AMade) → text.now ≢ made_text answer) }
{
    if same(text, b"done") {
        return Ok(Made::Done);
    }
    if same(text, b"fail") {
        return Ok(Made::Failed);
    }
    Err(Unread::NoReading)
}

pub(crate) fn read_read(alloc: Global, text: &[u8]) -> Result<(Io, Vec<u8>), Unread>
    ensures answer { IfOk result (λ pair. text.now ≡ read_text pair.0 pair.1.items) }
    ensures range { IfOk result (λ pair. Leaves pair.0 pair.1.items) }
    ensures refused { result ≡ Err NoReading → (answer : AnIo) (octets : List ℕ) → Leaves answer octets → text.now ≢ read_text answer octets }
{
    if same(text, b"end") {
        return Ok((Io::End, Vec::new(alloc)));
    }
    if same(text, b"notyet") {
        return Ok((Io::NotYet, Vec::new(alloc)));
    }
    read_file_done(alloc, text)
}

pub(crate) fn read_file_answer(alloc: Global, text: &[u8]) -> Result<(Io, Vec<u8>), Unread>
    ensures answer { IfOk result (λ pair. text.now ≡ read_text pair.0 pair.1.items) }
    ensures range { IfOk result (λ pair. Leaves pair.0 pair.1.items) }
    ensures at_once { IfOk result (λ pair. IsAtOnce pair.0) }
    ensures refused { result ≡ Err NoReading → (answer : AnIo) (octets : List ℕ) → IsAtOnce answer → Leaves answer octets → text.now ≢ read_text answer octets }
{
    if same(text, b"end") {
        return Ok((Io::End, Vec::new(alloc)));
    }
    read_file_done(alloc, text)
}

fn read_file_done(alloc: Global, text: &[u8]) -> Result<(Io, Vec<u8>), Unread>
    ensures answer { IfOk result (λ pair. text.now ≡ read_text pair.0 pair.1.items) }
    ensures range { IfOk result (λ pair. Leaves pair.0 pair.1.items) }
    ensures at_once { IfOk result (λ pair. IsAtOnce pair.0) }
    ensures done { result ≡ Err NoReading → (octets : List ℕ) → AreOctets octets → text.now ≢ codes "done " ++ hexadecimal octets }
    ensures fail { result ≡ Err NoReading → text.now ≢ codes "fail" }
{
    if same(text, b"fail") {
        return Ok((Io::Failed, Vec::new(alloc)));
    }
    match text {
        [b'd', b'o', b'n', b'e', b' ', octets @ ..] => {
            let octets = read_octets(alloc, octets)?;
            Ok((Io::Done(octets.len()), octets))
        }
        _ => Err(Unread::NoReading),
    }
}

pub(crate) fn read_written(text: &[u8]) -> Result<Io, Unread>
    ensures answer { IfOk result (λ answer. text.now ≡ written_text answer) }
    ensures range { IfOk result (λ answer. Counts answer) }
    ensures refused { OnErr result ((answer : AnIo) → Counts answer → text.now ≢ written_text answer) }
{
    if same(text, b"notyet") {
        return Ok(Io::NotYet);
    }
    if same(text, b"fail") {
        return Ok(Io::Failed);
    }
    match text {
        [b'd', b'o', b'n', b'e', b' ', count @ ..] => Ok(Io::Done(read_number(count)? as usize)),
        _ => Err(Unread::NoReading),
    }
}

pub(crate) fn read_joined(text: &[u8]) -> Result<Joined, Unread>
    ensures answer { IfOk result (λ answer. text.now ≡ joined_answer answer) }
    ensures refused { OnErr result ((answer : AJoined) → text.now ≢ joined_answer answer) }
{
    if same(text, b"yes") {
        return Ok(Joined::Yes);
    }
    if same(text, b"notyet") {
        return Ok(Joined::NotYet);
    }
    if same(text, b"fail") {
        return Ok(Joined::Failed);
    }
    Err(Unread::NoReading)
}

pub(crate) fn read_accepted(text: &[u8]) -> Result<Accepted, Unread>
    ensures answer { IfOk result (λ answer. text.now ≡ accepted_text answer) }
    ensures range { IfOk result (λ answer. MayAccept answer) }
    ensures refused { OnErr result ((answer : AnAccepted) → MayAccept answer → text.now ≢ accepted_text answer) }
{
    if same(text, b"notyet") {
        return Ok(Accepted::NotYet);
    }
    if same(text, b"fail") {
        return Ok(Accepted::Failed);
    }
    match text {
        [b'f', b'r', b'o', b'm', b' ', peer @ ..] => Ok(Accepted::From(read_endpoint(peer)?)),
        _ => Err(Unread::NoReading),
    }
}

pub(crate) fn read_sent(text: &[u8]) -> Result<Sent, Unread>
    ensures answer { IfOk result (λ answer. text.now ≡ sent_text answer) }
    ensures refused { OnErr result ((answer : ASent) → text.now ≢ sent_text answer) }
{
    if same(text, b"done") {
        return Ok(Sent::Done);
    }
    if same(text, b"notyet") {
        return Ok(Sent::NotYet);
    }
    if same(text, b"fail") {
        return Ok(Sent::Failed);
    }
    Err(Unread::NoReading)
}

pub(crate) fn read_got(alloc: Global, text: &[u8]) -> Result<(Got, Vec<u8>), Unread>
    ensures answer { IfOk result (λ pair. text.now ≡ got_text pair.0 pair.1.items) }
    ensures range { IfOk result (λ pair. ComesFrom pair.0 × LeavesGot pair.0 pair.1.items) }
    ensures refused { result ≡ Err NoReading → (answer : AGot) (octets : List ℕ) → ComesFrom answer → LeavesGot answer octets
        → text.now ≢ got_text answer octets }
{
    if same(text, b"notyet") {
        return Ok((Got::NotYet, Vec::new(alloc)));
    }
    if same(text, b"fail") {
        return Ok((Got::Failed, Vec::new(alloc)));
    }
    match text {
        [b'f', b'r', b'o', b'm', b' ', rest @ ..] => read_datagram(alloc, rest),
        _ => Err(Unread::NoReading),
    }
}

fn read_datagram(alloc: Global, text: &[u8]) -> Result<(Got, Vec<u8>), Unread>
    ensures answer { IfOk result (λ pair. codes "from " ++ text.now ≡ got_text pair.0 pair.1.items) }
    ensures range { IfOk result (λ pair. ComesFrom pair.0 × LeavesGot pair.0 pair.1.items) }
    ensures refused { result ≡ Err NoReading → (peer : AnEndpoint) (octets : List ℕ) → IsEndpoint peer → AreOctets octets
        → text.now ≢ endpoint_text peer ++ 32 ∷ hexadecimal octets }
{
    let (first, second) = split_at(text, b' ')?;
    let peer = read_endpoint(first)?;
    let octets = read_octets(alloc, second)?;
    Ok((Got::From(peer, octets.len()), octets))
}

pub(crate) fn read_size(text: &[u8]) -> Result<FileSize, Unread>
    ensures answer { IfOk result (λ answer. text.now ≡ size_text answer) }
    ensures range { IfOk result (λ answer. MayMeasure answer) }
    ensures refused { OnErr result ((answer : ASize) → MayMeasure answer → text.now ≢ size_text answer) }
{
    if same(text, b"missing") {
        return Ok(FileSize::Missing);
    }
    if same(text, b"fail") {
        return Ok(FileSize::Failed);
    }
    match text {
        [b'l', b'e', b'n', b' ', count @ ..] => Ok(FileSize::Length(read_number(count)?)),
        _ => Err(Unread::NoReading),
    }
}
