ghost use Rattle.std.specs.Prelude.{◌≡◌, ℕ, ◌+◌, ◌<◌, ◌≤◌, ◌++◌, ◌∷◌, [], false, List, length, Some, None, IfSome, if◌then◌else◌};
ghost use Rattle.std.specs.Option.{option_map};
ghost use Rattle.ipv4_head.specs.Sets.{Joined, Joins, Part, Waits, key_of, outcome_among, part_of};
ghost use Rattle.ipv4_head.specs.Cuts.{AreCuts, cut_of, cut_start, is_cut};
ghost use Rattle.net_octets.specs.Sizes.{most_carried};

use ipv4_head::IpView;

/// The octets of a header without options.
const HEAD: usize = 20;

/// The `k`-th of the fragments, counted from 0, into which a datagram is cut for frames that carry
/// at most `mtu` octets, headers of 20 octets counted (RFC 791, 2.3): what is left is the last one
/// where it fits, and each before it has as many units of 8 octets as fit. None exactly where
/// there is no `k`-th. The mtu is 28 or more, and the datagram is whole and has at most 65,515
/// octets.
pub fn cut<'a>(datagram: &IpView<'a>, mtu: usize, k: usize) -> Option<IpView<'a>>
    requires mtu { 28 ≤ mtu }
    requires offset { datagram.now.offset ≡ 0 }
    requires more { datagram.now.more ≡ false }
    requires size { length datagram.now.body.now ≤ most_carried }
    ensures part { option_map part_of result ≡ cut_of mtu (part_of datagram.now) k }
    ensures key { IfSome result (λ v. key_of v ≡ key_of datagram.now) }
    // With its header of 20 octets it fits a frame, and its place the field.
    ensures fits { IfSome result (λ v. 20 + length v.body.now ≤ mtu) }
    ensures place { IfSome result (λ v. v.offset < 8192) }
{
    let room = mtu - HEAD;
    let start = start_of(datagram.body.len(), mtu, k)?;
    let rest = &datagram.body[start..];
    let more = room < rest.len();
    Some(IpView {
        more,
        offset: (start / 8) as u16,
        body: if more { &rest[..room / 8 * 8] } else { rest },
        ..*datagram
    })
}

/// Where the `k`-th of the fragments of `size` octets begins.
fn start_of(size: usize, mtu: usize, k: usize) -> Option<usize>
    requires mtu { 28 ≤ mtu }
    requires size { size ≤ most_carried }
    ensures start { result ≡ (if is_cut mtu size k then Some (cut_start mtu k) else None) }
    ensures within { IfSome result (λ start. start ≤ size) }
{
    if k == 0 {
        return Some(0);
    }
    let room = mtu - HEAD;
    let whole = room / 8 * 8;
    let before = (k - 1).checked_mul(whole)?;
    if room < size.saturating_sub(before) {
        Some(before + whole)
    } else {
        None
    }
}

/// The fragments into which a datagram is cut join to it again, in whatever order they come. Each
/// that comes before another waits for it, and the last one makes the datagram whole.
pub fn cuts_join()
    ensures join { (mtu : ℕ) (whole : Part) (parts : List Part) → 28 ≤ mtu
        → AreCuts mtu whole parts → Joins parts whole.body }
    ensures waits { (mtu : ℕ) (whole : Part) (before : List Part) (p q : Part) (after : List Part) → 28 ≤ mtu
        → 0 < length whole.body → length whole.body ≤ most_carried
        → AreCuts mtu whole ((before ++ p ∷ []) ++ q ∷ after) → outcome_among p before ≡ Waits }
    ensures whole { (mtu : ℕ) (whole : Part) (before : List Part) (p : Part) → 28 ≤ mtu
        → 0 < length whole.body → length whole.body ≤ most_carried
        → AreCuts mtu whole (before ++ p ∷ []) → outcome_among p before ≡ Joined }
{}
