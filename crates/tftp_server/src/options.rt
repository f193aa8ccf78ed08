//! The options of a request that are known (RFC 2347; RFC 2348; RFC 2349).
ghost use Rattle.std.specs.Prelude.{◌≡◌, ◌≤◌, ℕ, List, codes, length, map, Some, None, true, false, if◌then◌else◌};
ghost use Rattle.std.specs.Option.{option_map};
ghost use Rattle.rules_tftp.specs.Packets.{answers, has_answered, number_in, terms_of, usual_terms, with_option, with_size, with_timeout};
ghost use Rattle.tftp_server.specs.Reading.{are_pairs, options_of};
ghost use Rattle.tftp_server.specs.Options.{answered_pair, is_among, known_by, name_of, with_known};
ghost use Rattle.tftp_server.specs.declared.options.Known.TheVariants.{BlockSize, Timeout, FileSize};

use crate::packets::{first_pair, number_in, says};
use arrayvec::ArrayVec;
use std::marker::Model;

/// As many octets of a block as fit a frame of 1,500 with their headers.
const MOST_IN_BLOCK: u64 = 1468;

/// An option that is known.
#[derive(Clone, Copy, Debug, PartialEq, Eq)]
pub enum Known {
    /// The octets of a block (RFC 2348).
    BlockSize,
    /// How long a packet waits for its acknowledgement, in seconds (RFC 2349).
    Timeout,
    /// The length of the file (RFC 2349).
    FileSize,
}

impl Known {
    /// Its name in small letters.
    pub fn name(self) -> &'static [u8]
        ensures name { result.now ≡ name_of self }
        ensures few { length result.now ≤ 7 }
    {
        match self {
            Known::BlockSize => b"blksize",
            Known::Timeout => b"timeout",
            Known::FileSize => b"tsize",
        }
    }
}

// The option of a name. None where it isn't known.
fn known_by(name: &[u8]) -> Option<Known>
    ensures { result ≡ known_by name.now }
{
    if says(name, b"blksize") {
        Some(Known::BlockSize)
    } else if says(name, b"timeout") {
        Some(Known::Timeout)
    } else if says(name, b"tsize") {
        Some(Known::FileSize)
    } else {
        None
    }
}

/// An option that is answered, and the number that is answered.
#[derive(Clone, Copy, Debug, PartialEq, Eq)]
pub struct Answer {
    pub option: Known,
    pub number: u64,
}

impl Default for Answer {
    fn default() -> Answer {
        Answer {
            option: Known::FileSize,
            number: 0,
        }
    }
}

/// What the options of a request come to: the octets of a block, 8 to 1,468, the timeout in milliseconds, 1,000 to 255,000, and the options that are answered, in their order.
#[derive(Drop)]
pub struct Agreed {
    size: u16,
    timeout: u64,
    answered: ArrayVec<Answer, 3>,
}

impl Model for Agreed {
    ghost use Rattle.std.specs.Prelude.{◌≤◌, map};
    ghost use Rattle.rules_tftp.specs.Packets.{Terms};
    ghost use Rattle.tftp_server.specs.Options.{answered_pair, AreOnce};

    ghost Value = { Terms };

    ghost view = { λ s. record { size = s.size; timeout = s.timeout; answered = map answered_pair s.answered.items } };

    ghost invariant = { λ s. (8 ≤ s.size) × (s.size ≤ 1468) × (s.timeout ≤ 255000) × AreOnce s.answered.items × (1000 ≤ s.timeout) };
}

impl Agreed {
    /// Blocks of 512 octets, a timeout of 5 seconds, and no option that is answered.
    fn usual() -> Agreed
        ensures { result ≡ usual_terms }
    {
        Agreed {
            size: 512,
            timeout: 5000,
            answered: ArrayVec::new(),
        }
    }

    /// What the options come to, for a file of this length. None where a known one stands twice, or has a value that is none of its.
    pub fn read(length: u64, options: &[u8]) -> Option<Agreed>
        requires { are_pairs options.now ≡ true }
        ensures { result ≡ terms_of length (options_of options.now) }
    {
        let mut agreed = Agreed::usual();
        let mut rest = options;
        while let Some(pair) = first_pair(rest) {
            if !agreed.take(length, pair.name, pair.value) {
                return None;
            }
            rest = pair.rest;
        }
        Some(agreed)
    }

    // Takes an option of a request. False where it can't be taken.
    fn take(&mut self, length: u64, name: &[u8], value: &[u8]) -> bool
        ensures { (if result then Some self.new else None) ≡ with_option length (name.now, value.now) self.old }
    {
        match known_by(name) {
            None => self.passes_over(),
            Some(option) => !self.has(option) && self.take_known(length, option, value),
        }
    }

    // An option that isn't known is passed over: only known ones are answered.
    fn passes_over(&self) -> bool
        ensures passes { result ≡ true }
        ensures known { (length : ℕ) (name value : List ℕ) → known_by name ≡ None → with_option length (name, value) self.now ≡ Some self.now }
    {
        // for the prover: with the options lent once more, what they hold is known here.
        let _answered = &self.answered;
        true
    }

    fn has(&self, option: Known) -> bool
        ensures { result ≡ has_answered (name_of option) self.now }
    {
        has(self.answered.as_slice(), option)
    }

    fn take_known(&mut self, length: u64, option: Known, value: &[u8]) -> bool
        requires { has_answered (name_of option) self.old ≡ false }
        ensures { (if result then Some self.new else None) ≡ with_known length option value.now self.old }
    {
        match option {
            Known::BlockSize => self.take_size(value),
            Known::Timeout => self.take_timeout(value),
            Known::FileSize => self.take_length(length, value),
        }
    }

    fn take_size(&mut self, value: &[u8]) -> bool
        requires { has_answered (name_of BlockSize) self.old ≡ false }
        ensures { (if result then Some self.new else None) ≡ option_map (with_size self.old) (number_in 8 65464 value.now) }
    {
        let Some(n) = number_in(8, 65464, value) else {
            return false;
        };
        let size = n.min(MOST_IN_BLOCK);
        self.size = size as u16;
        self.answered.push(Answer {
            option: Known::BlockSize,
            number: size,
        });
        true
    }

    fn take_timeout(&mut self, value: &[u8]) -> bool
        requires { has_answered (name_of Timeout) self.old ≡ false }
        ensures { (if result then Some self.new else None) ≡ option_map (with_timeout self.old) (number_in 1 255 value.now) }
    {
        let Some(seconds) = number_in(1, 255, value) else {
            return false;
        };
        self.timeout = 1000 * seconds;
        self.answered.push(Answer {
            option: Known::Timeout,
            number: seconds,
        });
        true
    }

    fn take_length(&mut self, length: u64, value: &[u8]) -> bool
        requires { has_answered (name_of FileSize) self.old ≡ false }
        ensures { (if result then Some self.new else None) ≡ option_map (λ n. answers (codes "tsize") length self.old) (number_in 0 0 value.now) }
    {
        if number_in(0, 0, value).is_none() {
            return false;
        }
        self.answered.push(Answer {
            option: Known::FileSize,
            number: length,
        });
        true
    }

    /// The octets of a block.
    pub fn size(&self) -> u16
        ensures size { result ≡ self.now.size }
        ensures least { 8 ≤ result }
        ensures most { result ≤ 1468 }
    {
        self.size
    }

    /// How long a packet waits for its acknowledgement, in milliseconds.
    pub fn timeout(&self) -> u64
        ensures timeout { result ≡ self.now.timeout }
        ensures least { 1000 ≤ result }
        ensures most { result ≤ 255000 }
    {
        self.timeout
    }

    /// The options that are answered, at most three.
    pub fn answered(&self) -> &[Answer]
        ensures answered { map answered_pair result.now ≡ self.now.answered }
        ensures few { length result.now ≤ 3 }
    {
        self.answered.as_slice()
    }
}

// Whether the option is among these.
fn has(answered: &[Answer], option: Known) -> bool
    ensures { result ≡ is_among option answered.now }
{
    answered.iter().any(|answer| answer.option == option)
}
