// The order of use: each number is linked to the one before it and the one behind it.
ghost use Rattle.std.specs.Prelude.{◌≡◌, ◌<◌, Some, length, slice_set};
ghost use Rattle.std.specs.Prelude.{ℕ};
ghost use Rattle.idle_sockets.specs.Numbers.{Rise, times};
ghost use Rattle.idle_sockets.specs.Links.{neighbours_of, on_side, with_before, with_behind, with_neighbours, with_side, unless_none};

use crate::sockets::place_of;
use arrayvec::ArrayVec;
use std::marker::Model;

/// Who stands before a number, and who behind it.
#[derive(Clone, Copy, Default)]
pub struct Neighbours {
    pub before: Option<u64>,
    pub behind: Option<u64>,
}

// Which of two neighbours.
#[derive(Clone, Copy)]
enum Side {
    Before,
    Behind,
}

/// Numbers in the order in which they were used last, the longest unused first.
///
/// They stand by rising number, and their links beside them: a use changes three links, whatever the number of numbers.
#[derive(Drop)]
pub struct Order {
    numbers: ArrayVec<u64, 512>,
    links: ArrayVec<Neighbours, 512>,
    first: Option<u64>,
    last: Option<u64>,
}

impl Model for Order {
    ghost use Rattle.std.specs.Prelude.{ℕ, List, length};
    ghost use Rattle.idle_sockets.specs.Links.{AreLinks, neighbours_of, walk};

    ghost Value = { List ℕ };

    ghost view = { λ o. walk (length o.numbers.items) (neighbours_of o.numbers.items o.links.items) o.first };

    ghost invariant = { λ o. AreLinks o.numbers.items o.links.items o.first o.last };
}

impl Order {
    ghost use Rattle.std.specs.Prelude.{[], ◌∷◌, ◌++◌, ◌≤◌, All, slice_get};
    ghost use Rattle.idle_sockets.specs.Numbers.{gone};

    /// No number.
    pub fn new() -> Order
        ensures { result ≡ [] }
    {
        Order {
            numbers: ArrayVec::new(),
            links: ArrayVec::new(),
            first: None,
            last: None,
        }
    }

    /// How many there are.
    pub fn len(&self) -> usize
        ensures count { result ≡ length self.now }
        ensures most { result ≤ 512 }
    {
        self.numbers.len()
    }

    /// The longest unused one.
    pub fn first(&self) -> Option<u64>
        ensures { result ≡ slice_get self.now 0 }
    {
        self.first
    }

    /// A number that is greater than all others comes in as the last.
    pub fn push(&mut self, number: u64)
        requires room { length self.old < 512 }
        requires above { All (λ n. n < number) self.old }
        ensures { self.new ≡ self.old ++ (number ∷ []) }
    {
        self.numbers.push(number);
        self.links.push(Neighbours::default());
        put_last(&self.numbers, &mut self.links, self.last, number);
        self.first = unless_none(self.first, Some(number), self.first);
        self.last = Some(number);
    }

    /// A number goes out.
    pub fn forget(&mut self, number: u64)
        ensures { self.new ≡ gone number self.old }
    {
        if let Some(place) = place_of(self.numbers.as_slice(), number) {
            let neighbours = take_out(&self.numbers, &mut self.links, number);
            self.first = unless_none(neighbours.before, neighbours.behind, self.first);
            self.last = unless_none(neighbours.behind, neighbours.before, self.last);
            self.numbers.remove(place);
            self.links.remove(place);
        }
    }

    /// A number was used, so it is the last of all.
    pub fn make_last(&mut self, number: u64)
        requires { times number self.old ≡ 1 }
        ensures { self.new ≡ gone number self.old ++ (number ∷ []) }
    {
        let neighbours = take_out(&self.numbers, &mut self.links, number);
        let first = unless_none(neighbours.before, neighbours.behind, self.first);
        let last = unless_none(neighbours.behind, neighbours.before, self.last);
        put_last(&self.numbers, &mut self.links, last, number);
        self.first = unless_none(first, Some(number), first);
        self.last = Some(number);
    }
}

// Links the neighbours of a number to each other, and answers who they were.
fn take_out(
    numbers: &ArrayVec<u64, 512>,
    links: &mut ArrayVec<Neighbours, 512>,
    number: u64,
) -> Neighbours
    requires rise { Rise numbers.now.items }
    requires beside { length links.old.items ≡ length numbers.now.items }
    ensures neighbours { result ≡ neighbours_of numbers.now.items links.old.items number }
    ensures links { (k : ℕ) → 0 < times k numbers.now.items → neighbours_of numbers.now.items links.new.items k
        ≡ with_before result.behind result.before k (with_behind result.before result.behind k (neighbours_of numbers.now.items links.old.items k)) }
    ensures beside { length links.new.items ≡ length links.old.items }
{
    let neighbours = neighbours_of(numbers, links, number);
    set_side(
        numbers,
        links,
        neighbours.before,
        Side::Behind,
        neighbours.behind,
    );
    set_side(
        numbers,
        links,
        neighbours.behind,
        Side::Before,
        neighbours.before,
    );
    neighbours
}

// Links a number to the last one, behind which it stands from now on.
fn put_last(
    numbers: &ArrayVec<u64, 512>,
    links: &mut ArrayVec<Neighbours, 512>,
    last: Option<u64>,
    number: u64,
)
    requires rise { Rise numbers.now.items }
    requires beside { length links.old.items ≡ length numbers.now.items }
    ensures links { (k : ℕ) → 0 < times k numbers.now.items → neighbours_of numbers.now.items links.new.items k
        ≡ with_neighbours number last k (with_behind last (Some number) k (neighbours_of numbers.now.items links.old.items k)) }
    ensures beside { length links.new.items ≡ length links.old.items }
{
    set_side(numbers, links, last, Side::Behind, Some(number));
    if let Some(place) = place_of(numbers.as_slice(), number) {
        put(
            links,
            place,
            Neighbours {
                before: last,
                behind: None,
            },
        );
    }
}

// From now on this number, or none, stands on a side of another, where one is given.
fn set_side(
    numbers: &ArrayVec<u64, 512>,
    links: &mut ArrayVec<Neighbours, 512>,
    of: Option<u64>,
    side: Side,
    neighbour: Option<u64>,
)
    requires rise { Rise numbers.now.items }
    requires beside { length links.old.items ≡ length numbers.now.items }
    ensures links { (k : ℕ) → 0 < times k numbers.now.items → neighbours_of numbers.now.items links.new.items k
        ≡ with_side side of neighbour k (neighbours_of numbers.now.items links.old.items k) }
    ensures beside { length links.new.items ≡ length links.old.items }
{
    if let Some(number) = of {
        if let Some(place) = place_of(numbers.as_slice(), number) {
            let neighbours = on_side(side, neighbour, links.as_slice()[place]);
            put(links, place, neighbours);
        }
    }
}

// The neighbours of one that has this one on a side from now on.
fn on_side(side: Side, neighbour: Option<u64>, neighbours: Neighbours) -> Neighbours
    ensures { result ≡ on_side side neighbour neighbours }
{
    match side {
        Side::Before => Neighbours {
            before: neighbour,
            behind: neighbours.behind,
        },
        Side::Behind => Neighbours {
            before: neighbours.before,
            behind: neighbour,
        },
    }
}

// The neighbours of a number: none where it isn't there.
fn neighbours_of(
    numbers: &ArrayVec<u64, 512>,
    links: &ArrayVec<Neighbours, 512>,
    number: u64,
) -> Neighbours
    requires rise { Rise numbers.now.items }
    requires beside { length links.now.items ≡ length numbers.now.items }
    ensures { result ≡ neighbours_of numbers.now.items links.now.items number }
{
    match place_of(numbers.as_slice(), number) {
        Some(place) => links.as_slice()[place],
        None => Neighbours {
            before: None,
            behind: None,
        },
    }
}

// Puts a pair of neighbours in its place.
fn put(links: &mut ArrayVec<Neighbours, 512>, place: usize, neighbours: Neighbours)
    requires { place < length links.old.items }
    ensures { links.new.items ≡ slice_set links.old.items place neighbours }
{
    links.as_mut_slice()[place] = neighbours;
}

// The one where there is no such number, else the other.
fn unless_none(number: Option<u64>, otherwise: Option<u64>, some: Option<u64>) -> Option<u64>
    ensures { result ≡ unless_none number otherwise some }
{
    match number {
        None => otherwise,
        Some(_) => some,
    }
}
