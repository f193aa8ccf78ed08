//! What one flow of TCP may do, and must (RFC 9293), said of its story: what happened to it, the newest event first.
//!
//! There is no code to run. The definitions stand in `specs/`; each function here is a law that follows from them, said in the words of the two streams, and its
//! contract is proved though its body is empty. A *flow* carries a guest's stream to a host's socket and the host's stream to the guest. Its story is *lawful* where
//! each thing that was done for it was allowed by what had happened before. Every beginning of a lawful story is one, so each law holds at every moment.
//!
//! A guest *conforms* where it gives one octet to each number of its stream and has one end with nothing past it, and where no segment reaches more than 2^31 past what
//! was acknowledged. A law with this premise holds up to the first segment that breaks it; one without holds whatever the guest does.
//!
//! Proved:
//! - What the host took is a prefix of what a conforming guest sent (`written_octets_begin_what_the_guest_sent`), and each octet of it came at its number, whatever
//!   the guest does (`written_octets_came_at_their_numbers`). What the guest sent is the longest list that its segments gave to their places
//!   (`front_is_the_longest_that_came`).
//! - What was sent to the guest is a prefix of what was read from the host (`sent_octets_begin_what_was_read`).
//! - Each end passes after every octet (`host_is_ended_after_every_octet`, `guest_is_ended_after_every_octet`).
//! - Acknowledged octets came (`acknowledged_octets_came`) and found room (`acknowledged_octets_found_room`).
//! - Nothing is sent before the host connected, and our SYN first (`nothing_is_sent_before_the_host_connected`).
//! - A reset has a cause, and goes once (`resets_have_a_cause`).
//! - Windows are scaled where both SYNs say so, and tell the room (`windows_are_scaled_where_both_syns_say_so`, `windows_tell_the_room`).
//! - What must be waited for may be (`what_must_be_waited_for_may_be`).
//! - The tests beside the sentences are sound, and of a conforming guest exact (`tests_are_sound`, `tests_are_exact_for_a_conforming_guest`).
#![tactic(auto)]

ghost use Rattle.std.specs.Prelude.{◌≡◌, ℕ, ◌+◌, ◌/◌, ◌^◌, ◌<◌, ◌≤◌, ◌||◌, ◌⊎◌};
ghost use Rattle.std.specs.Prelude.{List, length, true, false, Bool, IsTrue, Some, slice_get};
ghost use Rattle.seq_space.specs.Places.{number_of};
ghost use Rattle.spec_flow.specs.Settings.{Settings};
ghost use Rattle.spec_flow.specs.Event.{Story, IsStory};
ghost use Rattle.spec_flow.specs.Guest.{Up, Conforming, Carries, EndsAt, HasCome};
ghost use Rattle.spec_flow.specs.Guest.{front, written, has_ended, ackd, IsAcknowledged};
ghost use Rattle.spec_flow.specs.Host.{Gave, got, got_end, sent, owned, end_is_out};
ghost use Rattle.spec_flow.specs.Flow.{guest, host, their_number, syn_is_out, has_connected};
ghost use Rattle.spec_flow.specs.Flow.{is_accepted};
ghost use Rattle.spec_flow.specs.Close.{owes_reset};
ghost use Rattle.spec_flow.specs.Windows.{is_scaled, least_shift, told};
ghost use Rattle.spec_flow.specs.Lawful.{IsLawful, IsPrefixOf, AtPlaces, Act, May};
ghost use Rattle.spec_flow.specs.Dutiful.{Must, IsDutiful, IsSettled, MayWait, MayWaitToWrite};
ghost use Rattle.spec_flow.specs.Dutiful.{must_wait_to_write};
ghost use Rattle.spec_flow.specs.Said.{CameAt, something_is_out, reset_is_out, we_scale};
ghost use Rattle.spec_flow.specs.Said.{closed_as_failed};
ghost use Rattle.spec_flow.specs.Computed.{is_conforming, are_sized};
ghost use Rattle.spec_flow.specs.Check.{may, is_lawful};
ghost use Rattle.spec_flow.specs.CheckDuty.{must, is_dutiful, is_settled, may_wait};
ghost use Rattle.spec_flow.specs.CheckDuty.{may_wait_to_write};

/// The octets that the host took are a prefix of those that the guest sent (its front).
pub fn written_octets_begin_what_the_guest_sent()
    ensures { (s : Settings) (story : Story) → IsLawful s story → Conforming (guest story)
        → IsPrefixOf (written (guest story)) (front (guest story)) }
{}

/// Whatever the guest does, each octet that the host took came from the guest, at the number that stands for its place after
/// the guest's SYN, modulo 2^32 (RFC 9293, 3.4).
pub fn written_octets_came_at_their_numbers()
    ensures { (s : Settings) (story : Story) → IsStory story → IsLawful s story
        → (i x : ℕ) → slice_get (written (guest story)) i ≡ Some x
        → (f : ℕ) × (their_number story ≡ Some f) × CameAt story (number_of f i) x }
{}

/// The front is what the guest sent up to the first octet that is missing: its segments gave each of these octets to its place,
/// and, of a conforming guest, each list of octets of which that holds begins it.
pub fn front_is_the_longest_that_came()
    ensures came { (past : List Up) → AtPlaces (Carries past) (front past) }
    ensures longest { (past : List Up) → Conforming past → (xs : List ℕ) → AtPlaces (Carries past) xs → IsPrefixOf xs (front past) }
{}

/// The host is told the guest's end after every octet: it has all that the guest sent, and the guest's FIN stands after that.
pub fn host_is_ended_after_every_octet()
    ensures end { (s : Settings) (story : Story) → IsLawful s story → Conforming (guest story) → has_ended (guest story) ≡ true
        → EndsAt (guest story) (length (written (guest story))) }
    ensures all { (s : Settings) (story : Story) → IsLawful s story → Conforming (guest story)
        → has_ended (guest story) ≡ true → written (guest story) ≡ front (guest story) }
{}

/// What the guest was told that came did: no more is acknowledged than its octets up to the first that is missing, and its FIN
/// only where it stands after them. So the guest gave an octet to each place that was acknowledged, or ended there.
pub fn acknowledged_octets_came()
    ensures all { (s : Settings) (story : Story) → IsLawful s story → Conforming (guest story)
        → HasCome (guest story) (ackd (guest story)) }
    ensures each { (s : Settings) (story : Story) → IsLawful s story → Conforming (guest story)
        → (i : ℕ) → i < ackd (guest story) → ((x : ℕ) × Carries (guest story) i x) ⊎ EndsAt (guest story) i }
{}

/// And it found room: where windows tell the room, the octets that were acknowledged are no more than the host took and the
/// ring holds.
pub fn acknowledged_octets_found_room()
    ensures { (s : Settings) (story : Story) → IsDutiful s story → Conforming (guest story)
        → (a : ℕ) → IsAcknowledged (guest story) a → a ≤ length (written (guest story)) + s.ring }
{}

/// The octets that were sent to the guest are a prefix of those that were read from the host, whatever the guest does: what
/// went out at a place was read there, no place before the end of what was sent was left out, and no more was sent than was
/// read, the end counted as one.
pub fn sent_octets_begin_what_was_read()
    ensures read { (s : Settings) (story : Story) → IsLawful s story
        → (i x : ℕ) → Gave (host story) i x → slice_get (got (host story)) i ≡ Some x }
    ensures no_gap { (s : Settings) (story : Story) → IsLawful s story
        → (i : ℕ) → i < sent (host story) → i < length (got (host story))
        → (x : ℕ) × Gave (host story) i x }
    ensures no_more { (s : Settings) (story : Story) → IsLawful s story → sent (host story) ≤ owned (host story) }
{}

/// The guest is told the host's end after every octet: where our FIN went out the host's end was read, and all that was read
/// from the host went out.
pub fn guest_is_ended_after_every_octet()
    ensures end { (s : Settings) (story : Story) → IsLawful s story → end_is_out (host story) ≡ true
        → got_end (host story) ≡ true }
    ensures all { (s : Settings) (story : Story) → IsLawful s story
        → end_is_out (host story) ≡ true → (i : ℕ) → i < length (got (host story)) → (x : ℕ) × Gave (host story) i x }
{}

/// A guest's SYN is answered only after the host connected: nothing but a reset goes out before the host connected, or
/// a peer's connection was accepted, and our SYN goes first (RFC 9293, 3.5).
pub fn nothing_is_sent_before_the_host_connected()
    ensures connected { (s : Settings) (story : Story) → IsLawful s story → IsTrue (something_is_out story)
        → IsTrue (has_connected story || is_accepted story) }
    ensures syn_first { (s : Settings) (story : Story) → IsLawful s story → IsTrue (something_is_out story)
        → IsTrue (syn_is_out story) }
{}

/// A flow resets its guest only after it was closed because a call on the host's socket failed, because the host didn't
/// connect within 75,000 ms, because its peer ended before the guest answered for 1,000 ms, because it was quiet for so long
/// that it gave way, or because nothing of the guest acknowledged what had gone out nine times in 243,000 ms; and once.
pub fn resets_have_a_cause()
    ensures cause { (s : Settings) (story : Story) → IsLawful s story → IsTrue (reset_is_out story)
        → IsTrue (closed_as_failed story) }
    ensures once { (s : Settings) (story : Story) → IsLawful s story → IsTrue (reset_is_out story)
        → owes_reset story ≡ false }
{}

/// Wherever a program has to wait for the host to take octets, it is allowed to.
pub fn what_must_be_waited_for_may_be()
    ensures { (s : Settings) (story : Story) → IsLawful s story → must_wait_to_write story ≡ true → MayWaitToWrite story }
{}

/// Where windows are scaled and our SYN is out, it has the window scale, as the guest's has (RFC 7323, 2.2).
pub fn windows_are_scaled_where_both_syns_say_so()
    ensures { (s : Settings) (story : Story) → IsStory story → IsLawful s story → IsTrue (is_scaled s story)
        → IsTrue (syn_is_out story) → IsTrue (we_scale story) }
{}

/// The shift of our windows is the least by which the ring fits a field of 16 bits, for each ring of up to 2^20 octets; a field
/// tells no more than the room, and all of it but for less than one step of the shift (RFC 7323, 2.3).
pub fn windows_tell_the_room()
    ensures fits { (ring : ℕ) → ring ≤ 2 ^ 20 → ring / 2 ^ least_shift ring ≤ 65535 }
    ensures least { (ring k : ℕ) → ring ≤ 2 ^ 20 → k < least_shift ring → 65535 < ring / 2 ^ k }
    ensures no_more { (shift room : ℕ) → told shift room ≤ room }
    ensures enough { (ring room : ℕ) → ring ≤ 2 ^ 20 → room ≤ ring → room < told (least_shift ring) room + 2 ^ least_shift ring }
{}

/// Where the test beside the sentences holds, which computes, so do they: of an act, of a story, of a guest's stream, and of a
/// wait. It asks of every guest what they ask of a conforming one, so an act that fails it may still be allowed.
pub fn tests_are_sound()
    ensures act { (s : Settings) (past : Story) (now : ℕ) (act : Act) → IsTrue (may s past now act) → May s past now act }
    ensures duty { (s : Settings) (past : Story) (now : ℕ) (act : Act) → IsTrue (must s past now act) → Must s past now act }
    ensures lawful { (s : Settings) (story : Story) → IsTrue (is_lawful s story) → IsLawful s story }
    ensures dutiful { (s : Settings) (story : Story) → IsTrue (is_dutiful s story) → IsDutiful s story }
    ensures conforming { (past : List Up) → IsTrue (is_conforming past) → Conforming past }
    ensures settled { (s : Settings) (past : Story) (known time_waits : Bool) (now : ℕ) → IsTrue (is_settled s past known time_waits now)
        → IsSettled s past known time_waits now }
    ensures wait { (past : Story) (now : ℕ) → IsTrue (may_wait past now) → MayWait past now }
    ensures writing { (past : Story) → IsTrue (may_wait_to_write past) → MayWaitToWrite past }
{}

/// And of a conforming guest they miss nothing: what the law allows passes, where each segment that came has a number of 32 bits
/// and no more octets than there are numbers. So an act that fails the test there is refuted.
pub fn tests_are_exact_for_a_conforming_guest()
    ensures act { (s : Settings) (past : Story) (now : ℕ) (act : Act) → Conforming (guest past)
        → IsTrue (are_sized (guest past)) → May s past now act → IsTrue (may s past now act) }
    ensures duty { (s : Settings) (past : Story) (now : ℕ) (act : Act) → Conforming (guest past)
        → Must s past now act → IsTrue (must s past now act) }
    ensures lawful { (s : Settings) (story : Story) → Conforming (guest story) → IsTrue (are_sized (guest story))
        → IsLawful s story → IsTrue (is_lawful s story) }
{}
