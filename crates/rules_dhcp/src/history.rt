//! What the rules say of a history of messages, as laws of it (RFC 2131). There is no code to run: each function is a law, and its contract is proved
//! though its body is empty. The definitions stand in `specs/History`; a history is a list of messages with their moments, newest first.
ghost use Rattle.std.specs.Prelude.{◌≡◌, ◌≢◌, ℕ, ◌*◌, List, ◌∷◌, ◌++◌};
ghost use Rattle.slirp_settings.specs.Addresses.{Config};
ghost use Rattle.rules_dhcp.specs.declared.Message.{Message};
ghost use Rattle.rules_dhcp.specs.declared.Answer.TheVariants.{Informs, Lends, Offers, Refuses};
ghost use Rattle.rules_dhcp.specs.History.{Received, Says, answer_over, entry_over};
ghost use Rattle.rules_dhcp.specs.History.{Gives, HasReason, IsAt, IsForUs, IsInDay, IsLease, IsLeased, IsLeasedTo, IsOffer, IsRefusal};
ghost use Rattle.rules_dhcp.specs.Leases.{lease_time};
ghost use Rattle.rules_dhcp.specs.Serving.{discover, inform, request, wanted};

/// Each answer answers the message that asks for it. An OFFER is sent only for a DISCOVER, and by it an address that the client can have, its own where it has
/// one (RFC 2131, 4.3.1); an ACK with an address only for a REQUEST for it, and without one only for an INFORM (4.3.2, 4.3.5).
pub fn each_answer_has_its_reason()
    ensures offers { (config : Config) (before : List Received) (r : Received) (m : Message) (place : ℕ) → Says r m
        → answer_over config before r ≡ Offers place → IsOffer config before r.at m place }
    ensures lends { (config : Config) (before : List Received) (r : Received) (m : Message) (place : ℕ) → Says r m
        → answer_over config before r ≡ Lends place → IsLease config before r.at m place }
    ensures informs { (config : Config) (before : List Received) (r : Received) (m : Message) → Says r m
        → answer_over config before r ≡ Informs → m.kind ≡ inform }
    ensures all { (config : Config) (before : List Received) (r : Received) (m : Message) → Says r m
        → HasReason config before r.at m (answer_over config before r) }
{}

/// A NAK is sent where the rules have one, and nowhere else (RFC 2131, 3.1, step 4, and 4.3.2): for a REQUEST that names this server or none, as one of a client
/// that reboots or renews, whose address isn't one of the 16, or is one that another client has at that moment, or that was declined.
pub fn a_refusal_is_sent_where_the_rules_have_one()
    ensures only { (config : Config) (before : List Received) (r : Received) (m : Message) → Says r m
        → answer_over config before r ≡ Refuses → IsRefusal config before r.at m }
    ensures always { (config : Config) (before : List Received) (r : Received) (m : Message) → Says r m
        → IsRefusal config before r.at m → answer_over config before r ≡ Refuses }
{}

/// An address that was leased stays its client's for 86,400 seconds, unless the client gives it up: by RELEASE, by DECLINE, or for another one. In that time no
/// other client is offered or leased it, and one that asks for it is refused; the client itself is offered it again, and leased it again (RFC 2131, 3.1 and 4.3).
pub fn an_address_that_was_leased_stays_its_clients()
    ensures stays { (config : Config) (before later : List Received) (r : Received) (m : Message) (place at : ℕ) → IsLeased config before r later m place
        → IsInDay r.at at → IsLeasedTo m.mac (entry_over config (later ++ (r ∷ before)) at place) }
    ensures nobody_else { (config : Config) (before later : List Received) (r x : Received) (m n : Message) (place : ℕ) → IsLeased config before r later m place
        → IsInDay r.at x.at → Says x n → Gives place (answer_over config (later ++ (r ∷ before)) x) → n.mac ≡ m.mac }
    ensures refused { (config : Config) (before later : List Received) (r x : Received) (m n : Message) (place : ℕ) → IsLeased config before r later m place
        → IsInDay r.at x.at → Says x n → n.mac ≢ m.mac → n.kind ≡ request → IsForUs config n → IsAt config (wanted n) place
        → answer_over config (later ++ (r ∷ before)) x ≡ Refuses }
    ensures offered_again { (config : Config) (before later : List Received) (r x : Received) (m n : Message) (place : ℕ) → IsLeased config before r later m place
        → IsInDay r.at x.at → Says x n → n.mac ≡ m.mac → n.kind ≡ discover → answer_over config (later ++ (r ∷ before)) x ≡ Offers place }
    ensures leased_again { (config : Config) (before later : List Received) (r x : Received) (m n : Message) (place : ℕ) → IsLeased config before r later m place
        → IsInDay r.at x.at → Says x n → n.mac ≡ m.mac → n.kind ≡ request → IsForUs config n → IsAt config (wanted n) place
        → answer_over config (later ++ (r ∷ before)) x ≡ Lends place }
    ensures day { lease_time ≡ 86400 * 1000 }
{}
