// Which word a mistake in the words names.
ghost use Rattle.std.specs.Prelude.{◌≡◌, map, option_map};
ghost use Rattle.std.specs.String.{string_bytes};
ghost use Rattle.app_edges.specs.Mistakes.{named_word};

use command_words::Stop;

/// The word by which no reading goes on, behind its number, counted from 1. There is none where a word is missing.
pub fn named_word(words: &[String], stop: Stop) -> Option<(u64, &str)>
    ensures { option_map (λ named. (named.0, named.1.now)) result ≡ named_word (map string_bytes words.now) stop }
{
    match stop {
        Stop::Word(place) => match words.get(place) {
            Some(word) => Some((place as u64 + 1, word.as_str())),
            None => None,
        },
        Stop::End => None,
    }
}
