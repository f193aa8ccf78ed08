//! What holds of every server that follows its definitions. There is no code to run: each function is a law, and its contract is proved though its body is empty.
ghost use Rattle.std.specs.Prelude.{◌≡◌, ℕ, ◌≤◌, ◌⊎◌, Bool, true, All, Contains, List, [], length, Option, Some};
ghost use Rattle.world_face.specs.Journal.{Entry};
ghost use Rattle.net_octets.specs.declared.Endpoint.{Endpoint};
ghost use Rattle.rules_tftp.specs.Packets.{is_name, parts_from};
ghost use Rattle.rules_tftp.specs.Transfers.{came, seeks_block, sending, settled, ticked, begun, said_again, sent_again, goes_again, Said, SeeksLength, Sought, Transfer};
ghost use Rattle.rules_tftp.specs.Asking.{IsServed};
ghost use Rattle.rules_tftp.specs.Laws.{AreApartBy, IsBegun, IsBelow, IsInFolder, IsNext, IsRead, WentAgain};

/// No name leads out of the folder: a name that is taken has no part between its slashes that is empty, `.` or `..`, and the length that is asked for is that of a file of the folder by such a name.
pub fn names_stay_in_the_folder()
    ensures parts { (name : List ℕ) → is_name name ≡ true → All IsBelow (parts_from [] name) }
    ensures files { (folder : Option (List ℕ)) (now : ℕ) (mac : List ℕ) (guest : Endpoint) (octets : List ℕ) (old : List Transfer) (s : Sought)
        → (came folder now mac guest octets (settled old)).files.quest ≡ SeeksLength s → IsInFolder folder s.file }
{}

/// A block goes out only after the acknowledgement of the one before: a transfer after a packet was there before it, or it is the next block of the one whose
/// last block the packet acknowledged, or it begins because the packet asked for a file (RFC 1350, 2).
pub fn a_block_is_told_after_the_acknowledgement_of_the_one_before()
    ensures { (folder : Option (List ℕ)) (now : ℕ) (mac : List ℕ) (guest : Endpoint) (octets : List ℕ) (old new : List Transfer) (told : Option Said)
        (made : List Entry)
        → IsServed now (came folder now mac guest octets (settled old)) new told made
        → All (λ t. Contains old t ⊎ (IsNext old guest octets t ⊎ IsBegun octets t)) new }
{}

/// A block has the octets of its file that were read at its place, one call after another, each from the first octet that was missing on.
pub fn the_octets_of_a_block_are_those_read_at_its_place()
    ensures { (now : ℕ) (t : Transfer) (others new : List Transfer) (told : Option Said) (made : List Entry)
        → IsServed now (seeks_block now t others) new told made → IsRead t made told }
{}

/// A packet goes again at most five times, the k-th time no earlier than k timeouts after it was made.
pub fn a_packet_goes_again_five_times()
    ensures five { (now : ℕ) (last : Bool) (packet : List ℕ) (t : Transfer) (moments : List ℕ) → WentAgain (sending now last packet t) moments
        → length moments ≤ 5 }
    ensures apart { (now : ℕ) (last : Bool) (packet : List ℕ) (t : Transfer) (moments : List ℕ) → WentAgain (sending now last packet t) moments
        → AreApartBy t.timeout now moments }
    ensures only { (now : ℕ) (old : List Transfer) (said : Said) → begun now true old ≡ Some said
        → (t : Transfer) × Contains old t × (goes_again now t ≡ true) × (said ≡ said_again t) }
{}
