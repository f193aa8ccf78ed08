// What the calls of a link keep together, one behind the other.
ghost use Rattle.std.specs.Prelude.{◌≡◌, ℕ, List, [], ◌++◌, Some, true};
ghost use Rattle.std.specs.declared.option.Option.{Option};
ghost use Rattle.world_face.specs.Journal.{Entry};
ghost use Rattle.net_world.specs.Orders.{joined, SendAll, HandAll};
ghost use Rattle.guest_link.specs.Passing.{Passing};
ghost use Rattle.net_world.specs.Recording.{AllCarry, AllPass, handed, read_from, written, written_to};
ghost use Rattle.host_io.specs.Carrying.{Carrying};

/// What a stream got, and behind it what waits to go out, is what the calls put, in their order: of each the octets that it told as taken, as
/// the clause `sends` of the link's calls says.
pub fn what_is_put_goes_out_in_order()
    ensures { (puts : List (List ℕ)) (taken : Option (List ℕ)) (waits : List ℕ) → SendAll (Some []) [] puts taken waits
        → (got : List ℕ) × (taken ≡ Some got) × (got ++ waits ≡ joined puts) }
{}

/// What reads handed out, and behind it what is ahead and what the stream has still to give, is what it had to give, in its order, as the clause
/// `hands` of the link's reads says.
pub fn what_comes_is_handed_out_in_order()
    ensures { (gives : List ℕ) (parts : List (List ℕ)) (left : Option (List ℕ)) (ahead : List ℕ) → HandAll (Some gives) [] parts left ahead
        → (rest : List ℕ) × (left ≡ Some rest) × (joined parts ++ (ahead ++ rest) ≡ gives) }
{}

/// A whole trace of calls on a link that holds nothing at first: its stream got, and behind it what waits is, what the trace's writes told as taken, in the order
/// of the calls: all of them while what is written goes out, else those of a first part of the trace.
pub fn what_a_record_wrote_went_out_in_order()
    ensures { (entries : List Entry) (first last : Passing) → first.taken ≡ Some [] → first.waits ≡ [] → AllPass first entries last
        → (got : List ℕ) × (before after : List Entry) × (last.taken ≡ Some got) × (entries ≡ before ++ after) × (got ++ last.waits ≡ written before) × (last.goes_out ≡ true → after ≡ []) }
{}

/// What its reads handed out, and behind it what is ahead and what the stream has still to give, is what the stream had to give, in its order.
pub fn what_came_a_record_read_in_order()
    ensures { (entries : List Entry) (first last : Passing) (gives : List ℕ) → first.left ≡ Some gives → first.ahead ≡ [] → AllPass first entries last
        → (rest : List ℕ) × (last.left ≡ Some rest) × (handed entries ++ (last.ahead ++ rest) ≡ gives) }
{}

/// A whole trace of calls on a connection whose stream took nothing yet: it got what the trace's writes to it told as taken, in the order of the calls, as the clause
/// `carries` of a connection's calls says.
pub fn what_a_record_wrote_to_a_connection_it_got()
    ensures { (connection : ℕ) (entries : List Entry) (first last : Carrying) → first.taken ≡ Some [] → AllCarry connection first entries last
        → last.taken ≡ Some (written_to connection entries) }
{}

/// What the trace's reads of it brought, and behind it what the stream has still to give, is what the stream had to give, in its order.
pub fn what_a_connection_gave_its_reads_brought()
    ensures { (connection : ℕ) (entries : List Entry) (first last : Carrying) (gives : List ℕ) → first.left ≡ Some gives → AllCarry connection first entries last
        → (rest : List ℕ) × (last.left ≡ Some rest) × (read_from connection entries ++ rest ≡ gives) }
{}
