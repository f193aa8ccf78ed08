//! What follows where a flow follows its story. There is no code to run: each function is a law, and its contract is proved though its body is empty.
ghost use Rattle.std.specs.Prelude.{◌≡◌, ℕ, ◌+◌, ◌<◌, ◌≤◌, ◌++◌, length, Bool, true, false, None, Some};
ghost use Rattle.spec_flow.specs.Settings.{Settings};
ghost use Rattle.spec_flow.specs.Event.{Story};
ghost use Rattle.spec_flow.specs.Guest.{Conforming, IsAcknowledged, front, written};
ghost use Rattle.spec_flow.specs.Flow.{guest};
ghost use Rattle.spec_flow.specs.Close.{is_in_use as is_in_use_by_law, in_time_wait_since};
ghost use Rattle.spec_flow.specs.Lawful.{IsLawful, IsPrefixOf};
ghost use Rattle.spec_flow.specs.Dutiful.{IsDutiful, MayWait};
ghost use Rattle.sim_halves.specs.Settled.{IsSettledIf};
ghost use Rattle.flow_splice.specs.Ahead.{IsTimely};
ghost use Rattle.flow_splice.specs.Follows.{Follows};
ghost use Rattle.flow_splice.specs.Sends.{IsClear};
ghost use Rattle.flow_splice.specs.Splice.{Splice, is_in_time_wait, is_in_use, is_open};
ghost use Rattle.flow_splice.specs.Wants.{HasTime};
ghost use Rattle.flow_splice.specs.declared.Place.TheVariants.{InTimeWait};

/// All that was done for a flow that follows its story was allowed, and done as it must be.
pub fn what_a_flow_did_was_lawful()
    ensures lawful { (s : Settings) (f : Splice) (past : Story) (now : ℕ) → Follows s f past now → IsLawful s past }
    ensures dutiful { (s : Settings) (f : Splice) (past : Story) (now : ℕ) → Follows s f past now → IsDutiful s past }
{}

/// Where a pump cleared the flow, all holds of it that is to hold whenever the program waits, unless the link is blocked: all octets, ends and resets that may
/// go out are out, what came is acknowledged, and the room is told. Where no timer of it is due either (as after a tick at this moment with no
/// acknowledgement owed, by `Spliced::tick` and `pump`: `ahead`), what is under way goes again within a minute, and so does a request for the guest's hardware
/// address. The guest's hardware address isn't known where the flow doesn't have it.
pub fn a_flow_that_is_clear_is_settled()
    ensures { (s : Settings) (f : Splice) (past : Story) (now : ℕ) (known : Bool) → Follows s f past now → IsClear f → (f.mac ≡ None → known ≡ false)
        → IsSettledIf (IsTimely f now) s past known (is_in_time_wait f.place) now }
{}

/// It may be waited at all, where time doesn't close it: a flow of which both ends passed is closed.
pub fn a_flow_may_be_waited_for()
    ensures { (s : Settings) (f : Splice) (past : Story) (now : ℕ) → Follows s f past now
        → HasTime f now → MayWait past now }
{}

/// The octets that are held go on with what the host took: together they begin what a conforming guest sent, and all that was acknowledged is among them.
pub fn held_octets_go_on_with_what_was_written()
    ensures begins { (s : Settings) (f : Splice) (past : Story) (now : ℕ) → Follows s f past now → is_open f ≡ true → Conforming (guest past)
        → IsPrefixOf (written (guest past) ++ f.up.held) (front (guest past)) }
    ensures acknowledged { (s : Settings) (f : Splice) (past : Story) (now a : ℕ) → Follows s f past now → is_open f ≡ true → Conforming (guest past)
        → IsAcknowledged (guest past) a → a ≤ length (written (guest past)) + length f.up.held }
{}

/// A place is in use exactly as long as the flow has its tuple. It is in TIME-WAIT exactly where the flow is by its own story, since the same moment.
pub fn a_place_is_in_use_as_long_as_its_flow_has_its_tuple()
    ensures in_use { (s : Settings) (f : Splice) (past : Story) (now : ℕ) → Follows s f past now → is_in_use f.place ≡ is_in_use_by_law past }
    ensures time_waits { (s : Settings) (f : Splice) (past : Story) (now since : ℕ) → Follows s f past now → f.place ≡ InTimeWait since
        → in_time_wait_since past ≡ Some since }
    ensures rests_none { (s : Settings) (f : Splice) (past : Story) (now : ℕ) → Follows s f past now → is_in_time_wait f.place ≡ false → in_time_wait_since past ≡ None }
{}
