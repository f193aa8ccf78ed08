// How a mistake in the words, and a port that the host refused, are named.
#![tactic(auto, using(world_face::proofs::Putting::puts_then, world_face::proofs::Putting::puts_failed, replay::proofs::Putting::added_none))]

ghost use Rattle.std.specs.Prelude.{◌≡◌, ◌++◌, ◌∷◌, [], map};
ghost use Rattle.std.specs.String.{string_bytes};
ghost use Rattle.world_face.specs.Puts.{Puts};
ghost use Rattle.app_edges.specs.Texts.{forward_text, mistake_text, shown, shown_octet, word_text};

use crate::named_word;
use crate::status::tell_number;
use address_text::endpoint_string;
use arrayvec::ArrayVec;
use command_words::Stop;
use slirp_settings::{Forward, Proto};
use world_face::{Failed, Sink};

/// The most octets of a word that are shown.
const SHOWN: usize = 200;

/// Puts a line that names the word by which no reading goes on, or says that one is missing.
pub(crate) fn tell_mistake<E: Sink>(err: &mut E, words: &[String], stop: Stop) -> Result<(), Failed>
    ensures { Puts (E.holds err.old) (E.holds err.new) (E.faults err.old) (E.faults err.new) (mistake_text (map string_bytes words.now) stop ++ 10 ∷ []) result }
{
    match named_word(words, stop) {
        Some((number, word)) => tell_word(err, number, word.as_bytes()),
        None => err.put(MISSING),
    }
}

const MISSING: &[u8] = b"slirpd: a word is missing\n";

// Puts the line of a word with its number.
fn tell_word<E: Sink>(err: &mut E, number: u64, word: &[u8]) -> Result<(), Failed>
    ensures { Puts (E.holds err.old) (E.holds err.new) (E.faults err.old) (E.faults err.new) (word_text number word.now ++ 10 ∷ []) result }
{
    let shown = shown(word);
    tell_number(err, b"slirpd: word ", number, b": ")?;
    err.put(shown.as_slice())?;
    err.put(b"\n")
}

// A word as it is shown: what is no letter, digit or sign of ASCII is a question mark, and of a longer one the first 200 octets are put.
fn shown(word: &[u8]) -> ArrayVec<u8, SHOWN>
    ensures { result.items ≡ shown word.now }
{
    let front = &word[..word.len().min(SHOWN)];
    let mut shown = ArrayVec::new();
    for octet in front {
        shown.push(shown_octet(*octet));
    }
    shown
}

fn shown_octet(octet: u8) -> u8
    ensures { result ≡ shown_octet octet }
{
    match octet {
        0x20..=0x7e => octet,
        _ => b'?',
    }
}

/// Puts a port of the host as RULEs name it.
pub(crate) fn put_forward<E: Sink>(err: &mut E, forward: &Forward) -> Result<(), Failed>
    ensures { Puts (E.holds err.old) (E.holds err.new) (E.faults err.old) (E.faults err.new) (forward_text forward.now) result }
{
    let at = endpoint_string(forward.host);
    err.put(match forward.proto {
        Proto::Tcp => b"tcp ",
        Proto::Udp => b"udp ",
    })?;
    err.put(at.as_str().as_bytes())
}
