// Waits for what is wanted.
ghost use Rattle.std.specs.Prelude.{[], ◌∷◌, ◌≤◌, length};
ghost use Rattle.poll_list.specs.Listing.{AreWants};
ghost use Rattle.world_face.specs.Limits.{most_ready};

use poll_list::{ReadyList, Want, Wants, Who};
use std::alloc::Global;
use world_face::{Endpoint, Ip4, NoMemory, Waited, World};

/// The link, wanted for reading.
pub const LINK: Want = Want {
    of: Who::Link,
    read: true,
    write: false,
};

const DATAGRAMS: Want = Want {
    of: Who::Udp(3),
    read: true,
    write: false,
};

const WRITING: Want = Want {
    of: Who::Tcp(7),
    read: false,
    write: true,
};

const FIRST: Want = Want {
    of: Who::Udp(2),
    read: true,
    write: false,
};

const SENDING: Want = Want {
    of: Who::Udp(6),
    read: false,
    write: true,
};

const LAST: Want = Want {
    of: Who::Udp(9),
    read: true,
    write: false,
};

/// A port of the host itself.
pub fn here(port: u16) -> Endpoint {
    Endpoint {
        addr: Ip4(0x7f00_0001),
        port,
    }
}

/// The lists of a wait for 41 things at most.
#[derive(Drop)]
pub struct Asker {
    wants: Wants,
    ready: ReadyList,
    ghost room: { (41 ≤ wants.capacity) × (most_ready ≤ ready.capacity) },
}

impl Asker {
    /// Lists with room for 41 wants and for all that a wait may tell. Err where there is no memory for them.
    pub fn open(alloc: Global) -> Result<Asker, NoMemory> {
        let Ok(wants) = Wants::open(alloc, 41) else {
            return Err(NoMemory);
        };
        let Ok(ready) = ReadyList::open(alloc, 5155) else {
            return Err(NoMemory);
        };
        Ok(Asker { wants, ready })
    }

    /// Whether one wait for this, of so many milliseconds, tells that part of it.
    pub fn tells<W: World>(&mut self, world: &mut W, want: Want, limit: u64, told: Want) -> bool
        requires { AreWants (want ∷ []) }
    {
        self.wants.clear();
        self.wants.add(want);
        world.wait(&self.wants, Some(limit), &mut self.ready) == Waited::Ready
            && self.ready.items() == [told].as_slice()
    }

    /// Whether one wait for this, of so many milliseconds, tells it.
    pub fn is_ready<W: World>(&mut self, world: &mut W, want: Want, limit: u64) -> bool
        requires { AreWants (want ∷ []) }
    {
        self.tells(world, want, limit, want)
    }

    /// Whether a wait for the link and the socket for datagrams 3 tells both, or the socket alone; None where it tells neither.
    pub fn tells_both<W: World>(&mut self, world: &mut W) -> Option<bool> {
        self.wants.clear();
        self.wants.add(LINK);
        self.wants.add(DATAGRAMS);
        if world.wait(&self.wants, Some(1000), &mut self.ready) != Waited::Ready {
            return None;
        }
        match self.ready.items() {
            [first, second] => (*first == LINK && *second == DATAGRAMS).then_some(true),
            [first] => (*first == DATAGRAMS).then_some(false),
            _ => None,
        }
    }

    /// Beside what is ready for reading it is told too what is ready for writing; of that exactly what is wanted is told, in the order of the wants.
    pub fn tells_in_order<W: World>(&mut self, world: &mut W) -> bool {
        self.wants.clear();
        self.wants.add(FIRST);
        self.wants.add(SENDING);
        self.wants.add(LAST);
        self.wants.add(WRITING);
        world.wait(&self.wants, Some(1000), &mut self.ready) == Waited::Ready
            && self.ready.items() == [FIRST, LAST, WRITING].as_slice()
    }

    /// Where so many were told in turn by the waits before: how many are with those that one more wait for the link and forty sockets tells. None
    /// where one is told whose turn it isn't.
    fn told_by_a_wait<W: World>(&mut self, world: &mut W, before: u64) -> Option<u64> {
        want_all(&mut self.wants);
        if world.wait(&self.wants, Some(0), &mut self.ready) != Waited::Ready {
            return None;
        }
        told_in_turn(self.ready.items(), before)
    }

    /// The same after some waits.
    pub fn told_by<W: World>(&mut self, world: &mut W, waits: u32, before: u64) -> Option<u64> {
        let mut told = before;
        for _ in 0..waits {
            told = self.told_by_a_wait(world, told)?;
        }
        Some(told)
    }
}

/// The link and forty sockets for datagrams are wanted for reading.
fn want_all(wants: &mut Wants)
    requires { 41 ≤ wants.old.capacity }
    ensures some { AreWants wants.new.items }
    ensures few { length wants.new.items ≤ 41 }
    ensures room { 41 ≤ wants.new.capacity }
{
    wants.clear();
    wants.add(LINK);
    for number in 100..140u64 {
        wants.add(Want {
            of: Who::Udp(number),
            read: true,
            write: false,
        });
    }
}

/// How many of the forty were told in turn, with these.
fn told_in_turn(items: &[Want], before: u64) -> Option<u64> {
    let mut told = before;
    for item in items {
        let next = Want {
            of: Who::Udp(100 + told % 40),
            read: true,
            write: false,
        };
        if *item != next {
            return None;
        }
        told = told.saturating_add(1);
    }
    Some(told)
}
