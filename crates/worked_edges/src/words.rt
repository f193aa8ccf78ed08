// Words that no line of a file can hold. All others are cases of `worked_runs` and `worked_words`.
use app_edges::out_of_memory;
use command_words::{WordFault, read_words};
use std::alloc::Global;
use std::test::Fail;
use world_face::VecSink;

// Whether the words have no reading.
fn unread(alloc: Global, words: &[&str]) -> Result<bool, Fail> {
    let mut list = Vec::new(alloc);
    for word in words {
        list.push(String::from_str(alloc, word)?)?;
    }
    Ok(matches!(read_words(&list).err(), Some(WordFault::Usage(_))))
}

#[test]
fn empty_words_and_blanks_have_no_reading(rt: HostRuntime) -> Result<(), Fail> {
    for words in [
        &[""][..],
        &["replay", ""][..],
        &["replay", "F", ""][..],
        &["replay", "--", ""][..],
        &["replay", "F", "--mtu", ""][..],
        &["replay", "F", "--mtu", " 576"][..],
        &["replay", "F", "--mtu", "576 "][..],
        &["replay", "F", "--host", "10.0.2.9 "][..],
        &["serve", "--link", "unix:s", ""][..],
        &["drive", "7", ""][..],
        &["drive", "", "7"][..],
        &["drive", "7", " 7"][..],
        &["drive", "7 ", "7"][..],
        &["drive", "7 7"][..],
    ] {
        assert!(rt; unread(rt.alloc(), words)?);
    }
    Ok(())
}

#[test]
fn a_word_of_a_megabyte_has_no_reading(rt: HostRuntime) -> Result<(), Fail> {
    let mut letters = String::new(rt.alloc());
    for _ in 0..1_048_576 {
        letters.push('a')?;
    }
    let word = letters.as_str();
    let joined = format!(in rt.alloc(); "--{word}={word}")?;
    let link = format!(in rt.alloc(); "--link=unix:{word}")?;
    for words in [
        &[word][..],
        &["replay", word][..],
        &["replay", "F", "--host", word][..],
        &["replay", "F", "--mtu", word][..],
        &["replay", "F", joined.as_str()][..],
        &["serve", link.as_str()][..],
        &["drive", "7", word][..],
    ] {
        assert!(rt; unread(rt.alloc(), words)?);
    }
    Ok(())
}

#[test]
fn no_memory_for_the_words(rt: HostRuntime) -> Result<(), Fail> {
    let mut err = VecSink::open(rt.alloc(), 4096, None)?;
    assert_eq!(rt; out_of_memory(&mut err), 13);
    assert_eq!(rt; err.octets(), b"slirpd: out of memory\n".as_slice());
    Ok(())
}
