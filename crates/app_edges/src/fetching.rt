// The schedule's octets, through the outer World.
ghost use Rattle.std.specs.Prelude.{◌≡◌, ℕ, ◌+◌, ◌<◌, ◌≤◌, ◌++◌, List, IfOk, IfErr, IfSome, MatchOption, ◌↔◌, false, true, length, take};
ghost use Rattle.std.specs.Bool.{MatchBool};
ghost use Rattle.world_face.specs.Journal.{Follows, FileRead, count_of};
ghost use Rattle.world_face.specs.Tells.{Makes, Brings, Answers};
ghost use Rattle.app_edges.specs.Fetching.{MayFetch, Fetched, IsWhole, IsUnreadable, is_unmeasured, is_unreadable, octets_read};

use std::alloc::Global;
use world_face::{FileSize, Io, World};

/// The most octets of a schedule.
const MOST_OCTETS: u64 = 67_108_864;

/// The most octets of one read.
const MOST_READ: usize = 16_384;

/// What kept a schedule from being read.
#[derive(Clone, Copy)]
pub enum Unread {
    /// It isn't there, is too long, ended before its length, or a read failed.
    Unreadable,
    NoMemory,
}

/// The octets of a file, of at most 64 MiB: its length is asked, then it is read by rising places, at each the smaller of what is left and 16,384 octets.
pub fn read_file<W: World>(alloc: Global, world: &mut W, name: &str) -> Result<Vec<u8>, Unread>
    requires some { 0 < length name.now }
    requires fits { length name.now ≤ 1280 }
    ensures makes { Makes (W.tells world.old) (W.tells world.new) (λ made. Follows (MayFetch name.now) made
        × IfOk result (λ octets. (octets.items ≡ octets_read made) × IsWhole made × (is_unreadable made ≡ false))
        × IfErr result (λ fault. (fault ≡ Unread.Unreadable) ↔ IsUnreadable made)) }
    ensures few { IfOk result (λ octets. length octets.items ≤ 67108864) }
{
    let Some(length) = measured(world.file_len(name)) else {
        return Err(Unread::Unreadable);
    };
    let Ok(mut octets) = vec![in alloc; 0; length] else {
        return Err(Unread::NoMemory);
    };
    if fetch(world, name, &mut octets) {
        Ok(octets)
    } else {
        Err(Unread::Unreadable)
    }
}

// The length of a file that can be read.
fn measured(size: FileSize) -> Option<usize>
    ensures length { MatchOption result (is_unmeasured size ≡ true) (λ length. size ≡ FileSize.Length length) }
    ensures few { IfSome result (λ length. length ≤ 67108864) }
{
    match size {
        FileSize::Length(length) if length <= MOST_OCTETS => Some(length as usize),
        _ => None,
    }
}

// Reads all octets of a file whose length was asked.
fn fetch<W: World>(world: &mut W, name: &str, octets: &mut [u8]) -> bool
    requires some { 0 < length name.now }
    requires fits { length name.now ≤ 1280 }
    requires few { length octets.old ≤ 67108864 }
    ensures brings { Brings (W.tells world.old) (W.tells world.new) (Fetched name.now (length octets.old) 0 octets.old)
        (λ past. Follows (MayFetch name.now) past × MatchBool result ((octets.new ≡ octets_read past) × IsWhole past × (is_unreadable past ≡ false)) (IsUnreadable past)) }
{
    let mut have = 0;
    while have < octets.len() {
        let asked = (octets.len() - have).min(MOST_READ);
        match read_part(world, name, octets, have, asked) {
            Io::Done(count) => have += count,
            Io::End | Io::NotYet | Io::Failed => return false,
        }
    }
    true
}

// Reads into a part of the octets.
fn read_part<W: World>(
    world: &mut W,
    name: &str,
    octets: &mut [u8],
    from: usize,
    asked: usize,
) -> Io
    requires some { 0 < length name.now }
    requires fits { length name.now ≤ 1280 }
    requires room { 0 < asked }
    requires within { from + asked ≤ length octets.old }
    ensures read { (came : List ℕ) × Answers (W.tells world.old) (W.tells world.new) (FileRead name.now from asked result came)
        × (take (from + count_of result) octets.new ≡ take from octets.old ++ came) }
    ensures count { count_of result ≤ asked }
{
    world.file_read(name, from as u64, &mut octets[from..from + asked])
}
