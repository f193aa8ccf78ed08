//! The walk over the words behind a command.
ghost use Rattle.std.specs.Prelude.{◌≡◌, ◌⊎◌, List, ◌++◌, ◌∷◌, [], bytes_eq, ◌≤◌, ◌&&◌, ◌<◌, nat_lt, not, false, length, map, MatchBool, None, Some, OnOk, OnErr, IfErr, IfOk, is_some};
ghost use Rattle.std.specs.Prelude.{option_copied, option_map, find};
ghost use Rattle.std.specs.String.{string_bytes};
ghost use Rattle.address_text.specs.Rules.{is_guest_word};
ghost use Rattle.command_words.specs.Options.{Word, is_dashed, repeated, value_in};
ghost use Rattle.command_words.specs.Walking.{Fits, FitsAlone, FitsOption, HasWalked, IsGiven, IsWanted, WalkStops, begin, can_end, completed, ends, flag_of, given_of, guest_rule};
ghost use Rattle.command_words.specs.Walking.{has_link, hold, is_both};
ghost use Rattle.command_words.specs.Walking.{keep_own, kept, kept_denied, kept_guests, listed, may_stand, named, put_alone, put_apart, put_dashed, put_joined, put_name, put_option};
ghost use Rattle.command_words.specs.Walking.{stands_alone, step_with, walk_of, wants_file};

use crate::Stop;
use crate::guests::is_guest_word;
use crate::options::{COUNT, Verb, is_repeated, kind_of, takes_value};
use crate::rules::is_rule;
use crate::values::{can_have, is_file_name};
use address_text::NoReading;
use arrayvec::ArrayVec;

/// How many of the other words that stand by themselves are kept: a file, and one RULE more than the settings have room for.
const ALONE: usize = 34;

/// How many of the networks that are denied are kept: one more than there may be.
const DENIED: usize = 9;

/// How many of the RULEs of guests are kept: one more than the settings have room for.
const GUESTS: usize = 17;

/// RULEs of guests.
pub(crate) type Guests<'a> = ArrayVec<&'a str, GUESTS>;

/// The values of the option that may stand several times.
pub(crate) type Denied<'a> = ArrayVec<&'a str, DENIED>;

/// An option that was given, with its value; that of a flag is empty.
#[derive(Clone, Copy, Default)]
pub(crate) struct Given<'a> {
    name: &'a str,
    value: &'a str,
}

/// What was read of the words behind a command.
#[derive(Drop)]
pub(crate) struct Line<'a> {
    verb: Verb,
    options: ArrayVec<Given<'a>, COUNT>,
    /// The first of the words that stand by themselves.
    alone: ArrayVec<&'a str, ALONE>,
    /// The name of the option that waits for its value.
    waits: Option<&'a str>,
    /// Whether `--` came.
    ended: bool,
}

impl<'a> Line<'a> {
    /// Reads the words behind a command, from the front: and beside the line the first 17 RULEs of guests and the first 9 networks that are denied.
    pub(crate) fn read(
        verb: Verb,
        words: &'a [String],
    ) -> Result<(Line<'a>, Guests<'a>, Denied<'a>), Stop>
        ensures read { IfOk result (λ read. HasWalked verb (map string_bytes words.now) read.0 (map (λ word. word.now) read.1.items)
            (map (λ word. word.now) read.2.items)) }
        ensures refused { IfErr result (λ stop. WalkStops verb (map string_bytes words.now) stop) }
    {
        let mut line = Line {
            verb,
            options: ArrayVec::new(),
            alone: ArrayVec::new(),
            waits: None,
            ended: false,
        };
        let mut guests = ArrayVec::new();
        let mut denied = ArrayVec::new();
        for (place, word) in words.iter().enumerate() {
            let word = word.as_str();
            line.lead(word, &mut guests);
            line.deny(word, &mut denied);
            if line.take(word).is_err() {
                return Err(Stop::Word(place + 1));
            }
        }
        match line.waits {
            Some(_) => Err(Stop::End),
            None => Ok((line, guests, denied)),
        }
    }

    // Puts the network that the next word denies, where it does, and where there is room.
    fn deny(&self, word: &'a str, denied: &mut Denied<'a>)
        ensures { (all : List Word) → map (λ word. word.now) denied.old.items ≡ kept_denied all
            → map (λ word. word.now) denied.new.items ≡ kept_denied (all ++ repeated (listed (completed (walk_of self.now) word.now))) }
    {
        if let Some(given) = self.completed(word) {
            deny_given(&given, denied);
        }
    }

    // Takes the next word.
    fn take(&mut self, word: &'a str) -> Result<(), NoReading>
        ensures taken { OnOk result (step_with keep_own hold (walk_of self.old) word.now ≡ Some (walk_of self.new)) }
        ensures fits { OnOk result (Fits (walk_of self.old) word.now) }
        ensures refused { OnErr result ((step_with keep_own hold (walk_of self.old) word.now ≡ None) ⊎ ¬ Fits (walk_of self.old) word.now) }
    {
        if !self.fits(word) {
            return Err(NoReading);
        }
        self.step(word)
    }

    // Whether the next word is one with which a reading can go on, where it can be put.
    fn fits(&self, word: &'a str) -> bool
        ensures { MatchBool result (Fits (walk_of self.now) word.now) (¬ Fits (walk_of self.now) word.now) }
    {
        if !self.fits_alone(word) {
            return false;
        }
        if !self.fits_option(word) {
            return false;
        }
        self.can_end(word)
    }

    fn fits_alone(&self, word: &str) -> bool
        ensures { MatchBool result (FitsAlone (walk_of self.now) word.now) (¬ FitsAlone (walk_of self.now) word.now) }
    {
        if self.stands_alone(word) {
            is_wanted(self.wants_file(), word)
        } else {
            true
        }
    }

    fn stands_alone(&self, word: &str) -> bool
        ensures { result ≡ stands_alone (walk_of self.now) word.now }
    {
        self.ended || (self.waits.is_none() && !is_dashed(word))
    }

    fn fits_option(&self, word: &'a str) -> bool
        ensures { MatchBool result (FitsOption (walk_of self.now) word.now) (¬ FitsOption (walk_of self.now) word.now) }
    {
        match self.completed(word) {
            Some(given) => is_given(self.verb, &given) && !self.is_both_with(&given),
            None => true,
        }
    }

    // The option that the next word completes.
    fn completed(&self, word: &'a str) -> Option<Given<'a>>
        ensures { option_map given_of result ≡ completed (walk_of self.now) word.now }
    {
        if self.ended {
            return None;
        }
        match self.waits {
            Some(name) => Some(Given { name, value: word }),
            None if is_dashed(word) => named(self.verb, word),
            None => None,
        }
    }

    // Whether with this option a run would be both recorded and captured.
    fn is_both_with(&self, given: &Given<'_>) -> bool
        ensures { result ≡ is_both ((walk_of self.now).options ++ given_of given.now ∷ []) }
    {
        self.has_with(given, "--record") && self.has_with(given, "--capture")
    }

    // Whether this option or one before it has the name.
    fn has_with(&self, given: &Given<'_>, name: &str) -> bool
        ensures { result ≡ is_some (value_in ((walk_of self.now).options ++ given_of given.now ∷ []) name.now) }
    {
        self.has(name) || given.name == name
    }

    // Whether no option is wanted any more, where the word ends them.
    fn can_end(&self, word: &str) -> bool
        ensures { result ≡ can_end (walk_of self.now) word.now }
    {
        if self.ends(word) {
            self.has_link()
        } else {
            true
        }
    }

    // Whether no word behind this one is an option.
    fn ends(&self, word: &str) -> bool
        ensures { result ≡ ends (walk_of self.now) word.now }
    {
        !self.ended && self.waits.is_none() && word == "--"
    }

    // Whether the place of the link is told, or isn't wanted.
    fn has_link(&self) -> bool
        ensures { result ≡ has_link (walk_of self.now).verb (walk_of self.now).options }
    {
        match self.verb {
            Verb::Replay => true,
            Verb::Serve => self.has("--link"),
        }
    }

    // Puts the next word.
    fn step(&mut self, word: &'a str) -> Result<(), NoReading>
        ensures taken { OnOk result (step_with keep_own hold (walk_of self.old) word.now ≡ Some (walk_of self.new)) }
        ensures refused { OnErr result (step_with keep_own hold (walk_of self.old) word.now ≡ None) }
    {
        if self.ended {
            self.put_alone(word);
            return Ok(());
        }
        match self.waits {
            Some(name) => self.put_apart(name, word),
            None => self.begin(word),
        }
    }

    // Whether the next word that stands by itself names a file, and isn't a RULE.
    fn wants_file(&self) -> bool
        ensures { result ≡ wants_file (walk_of self.now) }
    {
        match self.verb {
            Verb::Replay => self.alone.is_empty(),
            Verb::Serve => false,
        }
    }

    // Puts a word that stands by itself. One for which there is no room isn't kept, nor one that asks for a forward of guests.
    fn put_alone(&mut self, word: &'a str)
        ensures { put_alone keep_own (walk_of self.old) word.now ≡ Some (walk_of self.new) }
    {
        if self.is_guest_word(word) {
            return;
        }
        self.keep_alone(word);
    }

    fn keep_alone(&mut self, word: &'a str)
        ensures { walk_of self.new ≡ record (walk_of self.old) { alone = kept ((walk_of self.old).alone ++ word.now ∷ []) } }
    {
        if !self.alone.is_full() {
            self.alone.push(word);
        }
    }

    // Whether the next word that stands by itself asks for a forward of guests: it isn't the name of a file.
    fn is_guest_word(&self, word: &str) -> bool
        ensures { result ≡ (not (wants_file (walk_of self.now)) && is_guest_word word.now) }
    {
        !self.wants_file() && is_guest_word(word)
    }

    // Puts the RULE of guests that the next word is, where it is one, and where there is room.
    fn lead(&self, word: &'a str, guests: &mut Guests<'a>)
        ensures { (all : List Word) → map (λ word. word.now) guests.old.items ≡ kept_guests all
            → map (λ word. word.now) guests.new.items ≡ kept_guests (all ++ guest_rule (walk_of self.now) word.now) }
    {
        if self.is_guest_rule(word) {
            keep_guest(word, guests);
        }
    }

    fn is_guest_rule(&self, word: &str) -> bool
        ensures { result ≡ (stands_alone (walk_of self.now) word.now && not (wants_file (walk_of self.now)) && is_guest_word word.now) }
    {
        self.stands_alone(word) && !self.wants_file() && is_guest_word(word)
    }

    fn put_apart(&mut self, name: &'a str, value: &'a str) -> Result<(), NoReading>
        ensures taken { OnOk result (put_apart hold (walk_of self.old) name.now value.now ≡ Some (walk_of self.new)) }
        ensures refused { OnErr result (put_apart hold (walk_of self.old) name.now value.now ≡ None) }
    {
        if value.is_empty() || is_dashed(value) {
            return Err(NoReading);
        }
        self.waits = None;
        self.put_option(name, value)
    }

    // Puts an option that may stand. One that may stand several times isn't kept here.
    fn put_option(&mut self, name: &'a str, value: &'a str) -> Result<(), NoReading>
        ensures taken { OnOk result (put_option hold (walk_of self.old) name.now value.now ≡ Some (walk_of self.new)) }
        ensures refused { OnErr result (put_option hold (walk_of self.old) name.now value.now ≡ None) }
    {
        if !self.may_stand(name) {
            return Err(NoReading);
        }
        if is_repeated(name) {
            return Ok(());
        }
        match self.options.try_push(Given { name, value }) {
            Ok(()) => Ok(()),
            Err(_) => Err(NoReading),
        }
    }

    // Whether an option of this name may stand.
    fn may_stand(&self, name: &str) -> bool
        ensures { result ≡ may_stand (walk_of self.now).options name.now }
    {
        is_repeated(name) || !self.has(name)
    }

    // Takes what stands neither behind `--` nor behind an option that waits.
    fn begin(&mut self, word: &'a str) -> Result<(), NoReading>
        ensures taken { OnOk result (begin keep_own hold (walk_of self.old) word.now ≡ Some (walk_of self.new)) }
        ensures refused { OnErr result (begin keep_own hold (walk_of self.old) word.now ≡ None) }
    {
        if word == "--" {
            self.ended = true;
            return Ok(());
        }
        if is_dashed(word) {
            return self.put_dashed(word);
        }
        self.put_alone(word);
        Ok(())
    }

    fn put_dashed(&mut self, word: &'a str) -> Result<(), NoReading>
        ensures taken { OnOk result (put_dashed hold (walk_of self.old) word.now ≡ Some (walk_of self.new)) }
        ensures refused { OnErr result (put_dashed hold (walk_of self.old) word.now ≡ None) }
    {
        match word.split_once('=') {
            Some((name, value)) => self.put_joined(name, value),
            None => self.put_name(word),
        }
    }

    fn put_joined(&mut self, name: &'a str, value: &'a str) -> Result<(), NoReading>
        ensures taken { OnOk result (put_joined hold (walk_of self.old) name.now value.now ≡ Some (walk_of self.new)) }
        ensures refused { OnErr result (put_joined hold (walk_of self.old) name.now value.now ≡ None) }
    {
        match takes_value(self.verb, name) {
            Some(true) if !value.is_empty() => self.put_option(name, value),
            _ => Err(NoReading),
        }
    }

    fn put_name(&mut self, name: &'a str) -> Result<(), NoReading>
        ensures taken { OnOk result (put_name hold (walk_of self.old) name.now ≡ Some (walk_of self.new)) }
        ensures refused { OnErr result (put_name hold (walk_of self.old) name.now ≡ None) }
    {
        match takes_value(self.verb, name) {
            Some(true) if !self.may_stand(name) => Err(NoReading),
            Some(true) => {
                self.waits = Some(name);
                Ok(())
            }
            Some(false) => self.put_option(name, ""),
            None => Err(NoReading),
        }
    }

    /// The value with which the option of this name was given; None where it wasn't.
    pub(crate) fn value(&self, name: &str) -> Option<&'a str>
        ensures { option_copied result ≡ value_in (walk_of self.now).options name.now }
    {
        match find_given(self.options.as_slice(), name) {
            Some(given) => Some(given.value),
            None => None,
        }
    }

    /// The first 34 of the words that stand by themselves, in their order.
    pub(crate) fn alone(&self) -> &[&'a str]
        ensures { map (λ word. word.now) result.now ≡ (walk_of self.now).alone }
    {
        self.alone.as_slice()
    }

    /// Whether the option of this name was given.
    pub(crate) fn has(&self, name: &str) -> bool
        ensures { result ≡ is_some (value_in (walk_of self.now).options name.now) }
    {
        self.value(name).is_some()
    }
}

// Puts the value of an option that may stand several times, where there is room.
fn deny_given<'a>(given: &Given<'a>, denied: &mut Denied<'a>)
    ensures { (all : List Word) → map (λ word. word.now) denied.old.items ≡ kept_denied all
        → map (λ word. word.now) denied.new.items ≡ kept_denied (all ++ repeated (given_of given.now ∷ [])) }
{
    if is_repeated(given.name) {
        keep_denied(given.value, denied);
    }
}

// Puts a word where there is room.
fn keep_denied<'a>(word: &'a str, denied: &mut Denied<'a>)
    ensures { (all : List Word) → map (λ word. word.now) denied.old.items ≡ kept_denied all → map (λ word. word.now) denied.new.items ≡ kept_denied (all ++ word.now ∷ []) }
{
    if !denied.is_full() {
        denied.push(word);
    }
}

// Puts a RULE of guests where there is room.
fn keep_guest<'a>(word: &'a str, guests: &mut Guests<'a>)
    ensures { (all : List Word) → map (λ word. word.now) guests.old.items ≡ kept_guests all → map (λ word. word.now) guests.new.items ≡ kept_guests (all ++ word.now ∷ []) }
{
    if !guests.is_full() {
        guests.push(word);
    }
}

// The first option of this name.
fn find_given<'a, 'b>(options: &'b [Given<'a>], name: &str) -> Option<&'b Given<'a>>
    ensures { option_copied result ≡ find (λ given. bytes_eq given.name.now name.now) options.now }
{
    options.iter().find(|given| given.name == name)
}

// The option that a word names with its value, or as a flag.
fn named<'a>(verb: Verb, word: &'a str) -> Option<Given<'a>>
    ensures { option_map given_of result ≡ named verb word.now }
{
    match word.split_once('=') {
        Some((name, value)) => Some(Given { name, value }),
        None => flag_of(verb, word),
    }
}

fn flag_of<'a>(verb: Verb, word: &'a str) -> Option<Given<'a>>
    ensures { option_map given_of result ≡ flag_of verb word.now }
{
    match takes_value(verb, word) {
        Some(false) => Some(Given {
            name: word,
            value: "",
        }),
        _ => None,
    }
}

// Whether the value is one that the command's option of this name can have.
fn is_given(verb: Verb, given: &Given<'_>) -> bool
    ensures { MatchBool result (IsGiven verb (given_of given.now)) (¬ IsGiven verb (given_of given.now)) }
{
    match kind_of(verb, given.name) {
        Some(kind) => can_have(kind, given.value),
        None => true,
    }
}

// Whether a word that stands by itself is what is wanted: the name of a file, or a RULE.
fn is_wanted(is_file: bool, word: &str) -> bool
    ensures { MatchBool result (IsWanted is_file word.now) (¬ IsWanted is_file word.now) }
{
    if is_file {
        is_file_name(word)
    } else {
        is_rule(word)
    }
}

// Whether a word begins with a dash.
fn is_dashed(word: &str) -> bool
    ensures { result ≡ is_dashed word.now }
{
    match word.as_bytes() {
        [first, ..] => *first == b'-',
        [] => false,
    }
}
