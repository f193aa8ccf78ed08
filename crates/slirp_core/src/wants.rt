// What the network waits for, and how long.
ghost use Rattle.std.specs.Prelude.{[], ◌∷◌, ◌≡◌, ◌+◌, ◌≤◌, ◌<◌, ◌^◌, ◌++◌, true, false, Bool, List, ℕ, None, Some, filter, slice_get, map, length, IfOk};
ghost use Rattle.flow_splice.specs.Splice.{Splice};
ghost use Rattle.poll_list.specs.declared.Want.{Want as AWant};
ghost use Rattle.tcp_flows.specs.Reading.{AreWantsOf};
ghost use Rattle.tcp_flows.specs.Waits.{AreWaitedFor};
ghost use Rattle.slirp_settings.specs.Addresses.{Config};
ghost use Rattle.world_face.specs.Journal.{Entry};
ghost use Rattle.sim_flows.specs.Core.{CoreHolds, number_of};
ghost use Rattle.poll_list.specs.Listing.{AreWants};
ghost use Rattle.slirp_core.specs.Pumps.{TcpOnce, into, merged};
ghost use Rattle.sim_flows.specs.Wants.{link_want, listener_want, socket_wants, udp_want};
ghost use Rattle.slirp_core.specs.Carrying.{HasRoom, sockets_of};
ghost use Rattle.slirp_core.specs.Kinds.{is_of_datagrams, is_of_flow, is_of_link_or_listener};

use crate::network::Slirp;
use arrayvec::ArrayVec;
use net_octets::NoMemory;
use poll_list::{Want, Wants, Who};
use slirp_settings::Proto;
use std::alloc::Global;
use std::marker::Model;
use stream_netdev::Link;
use tcp_flows::TcpFlows;
use world_face::sooner;

/// What a turn waits for: a list with room for a fixed number of wants, all of it taken at opening.
///
/// Most turns wait for what the turn before waited for, up to the sockets of flows: the link, in the same directions, and the same listeners and sockets of
/// datagrams, for reading. So the numbers of these are kept, and where they are the same that part of the list stands, and only what flows wait for is put behind
/// it anew.
#[derive(Drop)]
pub struct TurnWants {
    list: Wants,
    listeners: ArrayVec<u64, 32>,
    forwards: ArrayVec<u64, 32>,
    associations: ArrayVec<u64, 512>,
    questions: ArrayVec<u64, 512>,
    // whether the list begins with the link, these listeners and these sockets, all for reading
    reads: bool,
    // whether the link is waited for to write, too
    writes: bool,
    // how many stand before the sockets of datagrams
    front: usize,
    // how many stand before those of flows
    before: usize,
    rows: Rows,
}

// Room in which the rows of sockets of datagrams become one: those of ports of the host and of associations, and these with those of questions.
#[derive(Drop)]
struct Rows {
    two: ArrayVec<u64, 544>,
    three: ArrayVec<u64, 1056>,
}

/// The sockets of datagrams, each row by rising number: those of ports of the host, those of associations, and those of questions.
#[derive(Clone, Copy)]
pub(crate) struct Carriers<'a> {
    pub forwards: &'a [u64],
    pub associations: &'a [u64],
    pub questions: &'a [u64],
}

impl Model for TurnWants {
    ghost use Rattle.std.specs.Prelude.{◌≡◌, ◌≤◌, true, false, ◌++◌, length, map, take};
    ghost use Rattle.poll_list.specs.Listing.{AreWants, Listing};
    ghost use Rattle.slirp_core.specs.Kinds.{InThreeParts};
    ghost use Rattle.slirp_core.specs.Pumps.{merged};
    ghost use Rattle.sim_flows.specs.Wants.{link_want, listener_want, udp_want};

    ghost Value = { Listing };

    ghost view = { λ w. w.list };

    ghost invariant = { λ w. AreWants w.list.items × (w.front ≤ w.before) × (w.before ≤ length w.list.items)
        × (w.reads ≡ true → take w.before w.list.items ≡ (link_want true w.writes ++ map listener_want w.listeners.items) ++ map udp_want
        (merged (merged w.forwards.items w.associations.items) w.questions.items))
        × InThreeParts w.front w.before w.list.items };
}

impl TurnWants {
    /// An empty list with room for `capacity` wants.
    pub fn open(alloc: Global, capacity: usize) -> Result<TurnWants, NoMemory>
        ensures empty { IfOk result (λ wants. wants.items ≡ []) }
        ensures capacity { IfOk result (λ wants. wants.capacity ≡ capacity) }
    {
        let Ok(list) = Wants::open(alloc, capacity) else {
            return Err(NoMemory);
        };
        Ok(TurnWants {
            list,
            listeners: ArrayVec::new(),
            forwards: ArrayVec::new(),
            associations: ArrayVec::new(),
            questions: ArrayVec::new(),
            reads: false,
            writes: false,
            front: 0,
            before: 0,
            rows: Rows {
                two: ArrayVec::new(),
                three: ArrayVec::new(),
            },
        })
    }

    /// What the turn waits for: the link, listeners, sockets for datagrams, connections, each kind by rising number.
    pub fn list(&self) -> &Wants
        ensures { result.now ≡ self.now }
    {
        &self.list
    }

    /// What is waited for.
    pub fn items(&self) -> &[Want]
        ensures { result.now ≡ self.now.items }
    {
        self.list.items()
    }

    /// Of these the link and the listeners, the listeners by rising number: they stand first.
    pub fn of_listeners(&self) -> &[Want]
        ensures part { (behind : List AWant) × (self.now.items ≡ result.now ++ behind) }
        ensures all { result.now ≡ filter is_of_link_or_listener self.now.items }
    {
        &self.list.items()[..self.front]
    }

    /// Of these the sockets of datagrams, by rising number: they stand in the middle.
    pub fn of_datagrams(&self) -> &[Want]
        ensures part { (front flows : List AWant) × (self.now.items ≡ (front ++ result.now) ++ flows) }
        ensures all { result.now ≡ filter is_of_datagrams self.now.items }
    {
        &self.list.items()[self.front..self.before]
    }

    /// Of these what flows wait for, by rising number of the socket: it stands last.
    pub fn of_flows(&self) -> &[Want]
        ensures part { (before : List AWant) × (self.now.items ≡ before ++ result.now) }
        ensures all { result.now ≡ filter is_of_flow self.now.items }
    {
        &self.list.items()[self.before..]
    }

    // From now on the link is waited for in these directions, these listeners, these sockets where it is read, and what flows wait for, whose numbers are under
    // `below`.
    fn fill(
        &mut self,
        read: bool,
        write: bool,
        listeners: &[u64],
        carriers: Carriers<'_>,
        flows: &TcpFlows,
        below: u64,
    )
        requires room { 5153 ≤ self.old.capacity }
        requires flows { length flows.now.flows.slots ≤ 4096 }
        requires numbers { (k : ℕ) (p : Splice) → slice_get flows.now.flows.slots k ≡ Some (Some p) → number_of p < below }
        requires few { length listeners.now + length carriers.forwards.now ≤ 32 }
        requires most { HasRoom carriers }
        ensures items { (added : List AWant) × (self.new.items
            ≡ ((link_want read write ++ map listener_want listeners.now) ++ socket_wants read (sockets_of carriers.entry)) ++ added)
            × AreWantsOf flows.now.flows.slots added }
        // By the trace, what flows wait for is what a run waits for of its flows.
        ensures waited_for { (config : Config) (before : ℕ) (aged : Bool) (past : List Entry) (added : List AWant)
            → CoreHolds config before aged None flows.now.flows past → AreWantsOf flows.now.flows.slots added → AreWaitedFor config past added }
        ensures once { TcpOnce self.new.items }
        ensures wants { AreWants self.new.items }
        ensures few { length self.new.items ≤ 5153 }
        ensures capacity { self.new.capacity ≡ self.old.capacity }
    {
        self.fill_before(read, write, listeners, carriers);
        self.add_flows(flows, below);
    }

    // Puts what flows wait for at the end. Their numbers are under `below`.
    fn add_flows(&mut self, flows: &TcpFlows, below: u64)
        requires room { length self.old.items + 4096 ≤ self.old.capacity }
        requires flows { length flows.now.flows.slots ≤ 4096 }
        requires numbers { (k : ℕ) (p : Splice) → slice_get flows.now.flows.slots k ≡ Some (Some p) → number_of p < below }
        ensures items { (added : List AWant) × (self.new.items ≡ self.old.items ++ added) × AreWantsOf flows.now.flows.slots added × (length added ≤ 4096) }
        // By the trace, what flows wait for is what a run waits for of its flows.
        ensures waited_for { (config : Config) (before : ℕ) (aged : Bool) (past : List Entry) (added : List AWant)
            → CoreHolds config before aged None flows.now.flows past → AreWantsOf flows.now.flows.slots added → AreWaitedFor config past added }
        ensures wants { AreWants self.new.items }
        ensures capacity { self.new.capacity ≡ self.old.capacity }
    {
        flows.put_wants(&mut self.list);
    }

    // From now on the link is waited for in these directions, these listeners, and these sockets where it is read.
    fn fill_before(&mut self, read: bool, write: bool, listeners: &[u64], carriers: Carriers<'_>)
        requires room { 1057 ≤ self.old.capacity }
        requires few { length listeners.now + length carriers.forwards.now ≤ 32 }
        requires most { HasRoom carriers }
        ensures items { self.new.items ≡ (link_want read write ++ map listener_want listeners.now) ++ socket_wants read (sockets_of carriers.entry) }
        ensures wants { AreWants self.new.items }
        ensures few { length self.new.items ≤ 1057 }
        ensures capacity { self.new.capacity ≡ self.old.capacity }
    {
        if read {
            self.read_all(write, listeners, carriers);
        } else {
            self.read_none(write, listeners);
        }
    }

    // From now on nothing is waited for to read but listeners, and the link for writing, or not.
    fn read_none(&mut self, write: bool, listeners: &[u64])
        requires room { 33 ≤ self.old.capacity }
        requires few { length listeners.now ≤ 32 }
        ensures items { self.new.items ≡ link_want false write ++ map listener_want listeners.now }
        ensures wants { AreWants self.new.items }
        ensures few { length self.new.items ≤ 33 }
        ensures capacity { self.new.capacity ≡ self.old.capacity }
    {
        self.reads = false;
        self.front = begin(false, write, listeners, &mut self.list);
        self.before = self.front;
    }

    // From now on the link, these listeners and these sockets are waited for, for reading, and the link for writing, too, or not.
    fn read_all(&mut self, write: bool, listeners: &[u64], carriers: Carriers<'_>)
        requires room { 1057 ≤ self.old.capacity }
        requires few { length listeners.now + length carriers.forwards.now ≤ 32 }
        requires most { HasRoom carriers }
        ensures items { self.new.items ≡ (link_want true write ++ map listener_want listeners.now) ++ map udp_want (sockets_of carriers.entry) }
        ensures wants { AreWants self.new.items }
        ensures few { length self.new.items ≤ 1057 }
        ensures capacity { self.new.capacity ≡ self.old.capacity }
    {
        if holds_for(self.reads, self.writes, write)
            && are_same(self.listeners.as_slice(), listeners)
            && are_same(self.forwards.as_slice(), carriers.forwards)
            && are_same(self.associations.as_slice(), carriers.associations)
            && are_same(self.questions.as_slice(), carriers.questions)
        {
            self.list.truncate(self.before);
            return;
        }
        self.front = begin(true, write, listeners, &mut self.list);
        add_carriers(carriers, &mut self.rows, &mut self.list);
        self.before = self.list.items().len();
        keep(&mut self.listeners, listeners);
        keep(&mut self.forwards, carriers.forwards);
        keep(&mut self.associations, carriers.associations);
        keep(&mut self.questions, carriers.questions);
        self.reads = true;
        self.writes = write;
    }
}

impl Slirp {
    ghost use Rattle.ipv4_head.specs.Sets.{PartSet};
    ghost use Rattle.slirp_settings.specs.declared.Proto.TheVariants.{Tcp, Udp};
    ghost use Rattle.rules_forward.specs.Opened.{sockets_over};
    ghost use Rattle.slirp_core.specs.Fragments.{IsHeld};
    ghost use Rattle.slirp_core.specs.Pumps.{WantsOf, listeners_of};
    ghost use Rattle.slirp_core.specs.Timeouts.{IsTimeout};

    /// What the network waits for, and how long at most: the link for reading, and each open socket of datagrams, where nothing is left to be sent: those of
    /// ports of the host, then those of associations and questions, by rising number; the link for writing where it is blocked; each port of the host to which
    /// peers connect exactly where there is room for the flow of a peer more; what flows wait for, by rising number; until the idle life of the longest unused socket is
    /// over, the longest unused question has waited for long enough, the first fragments are dropped, a flow is to be told the time, or a packet of a file is
    /// due to go again.
    pub fn pollfds_fill(&self, link: &Link, wants: &mut TurnWants) -> Option<u64>
        requires { 5153 ≤ wants.old.capacity }
        ensures timeout { (held : List PartSet) → IsHeld self.now.fragments held → IsTimeout self.now link.now.blocked held result }
        ensures items { WantsOf self.now link.now wants.new.items }
        // By the trace, what flows wait for is what a run waits for of its flows.
        ensures waited_for { (config : Config) (before : ℕ) (aged : Bool) (past : List Entry) (added : List AWant)
            → CoreHolds config before aged None self.now.flows.flows past → AreWantsOf self.now.flows.flows.slots added → AreWaitedFor config past added }
        ensures once { TcpOnce wants.new.items }
        ensures wants { AreWants wants.new.items }
        ensures few { length wants.new.items ≤ 5153 }
        ensures capacity { wants.new.capacity ≡ wants.old.capacity }
    {
        let carriers = Carriers {
            forwards: self.ports_over(Proto::Udp),
            associations: self.associations.rising(),
            questions: self.questions.rising(),
        };
        wants.fill(
            self.is_settled(link),
            link.blocked(),
            self.listeners(),
            carriers,
            &self.flows,
            self.number,
        );
        let datagrams = sooner(self.time_of_sockets(), self.time_of_questions());
        let datagrams = sooner(datagrams, self.time_of_fragments());
        let unless_files = sooner(datagrams, self.time_of_flows(link.blocked()));
        sooner(unless_files, self.time_of_files())
    }

    // The ports of the host for which peers are waited for: all to which they connect where there is room for the flow of a peer more, else none.
    fn listeners(&self) -> &[u64]
        ensures items { result.now ≡ listeners_of self.now }
        ensures few { length result.now ≤ length (sockets_over Tcp self.now.forwards) }
    {
        if self.flows.has_room_for_peer() {
            self.ports_over(Proto::Tcp)
        } else {
            &[]
        }
    }

    // The sockets of the ports of the host that are open with this protocol, by rising number.
    fn ports_over(&self, proto: Proto) -> &[u64]
        ensures items { result.now ≡ sockets_over proto self.now.forwards }
        ensures few { length self.now.forwards ≤ 32 }
    {
        self.forwards.over(proto)
    }
}

// Whether a list that begins for reading, and for writing to the link too or not, begins as it is to.
fn holds_for(reads: bool, writes: bool, write: bool) -> bool
    ensures { result ≡ true → (reads ≡ true) × (writes ≡ write) }
{
    reads && writes == write
}

// Whether two lists of numbers are the same.
fn are_same(some: &[u64], others: &[u64]) -> bool
    ensures { result ≡ true → some.now ≡ others.now }
{
    if some.len() != others.len() {
        return false;
    }
    let mut same = true;
    for place in 0..others.len() {
        same &= some[place] == others[place];
    }
    same
}

// The row has these numbers from now on.
fn keep<const N: usize>(row: &mut ArrayVec<u64, N>, numbers: &[u64])
    requires { length numbers.now ≤ N }
    ensures { row.new.items ≡ numbers.now }
{
    row.clear();
    let _ = row.try_extend_from_slice(numbers);
}

// The list begins anew, with the link in these directions and these listeners. Answers how many they are.
fn begin(read: bool, write: bool, listeners: &[u64], wants: &mut Wants) -> usize
    requires room { 33 ≤ wants.old.capacity }
    requires few { length listeners.now ≤ 32 }
    ensures items { wants.new.items ≡ link_want read write ++ map listener_want listeners.now }
    ensures count { result ≡ length wants.new.items }
    ensures wants { AreWants wants.new.items }
    ensures few { length wants.new.items ≤ 1 + length listeners.now }
    ensures capacity { wants.new.capacity ≡ wants.old.capacity }
{
    wants.clear();
    add_link(read, write, wants);
    add_listeners(listeners, wants);
    wants.items().len()
}

// Puts the link at the end, in the directions in which it is wanted.
fn add_link(read: bool, write: bool, wants: &mut Wants)
    requires none { wants.old.items ≡ [] }
    requires room { 1 ≤ wants.old.capacity }
    ensures items { wants.new.items ≡ link_want read write }
    ensures wants { AreWants wants.new.items }
    ensures few { length wants.new.items ≤ 1 }
    ensures capacity { wants.new.capacity ≡ wants.old.capacity }
{
    if read || write {
        wants.add(Want {
            of: Who::Link,
            read,
            write,
        });
    }
}

// Puts these sockets at the end, for reading, by rising number.
fn add_carriers(carriers: Carriers<'_>, rows: &mut Rows, wants: &mut Wants)
    requires wants { AreWants wants.old.items }
    requires room { length wants.old.items + length carriers.forwards.now + 1024 ≤ wants.old.capacity }
    requires most { HasRoom carriers }
    ensures items { wants.new.items ≡ wants.old.items ++ map udp_want (sockets_of carriers.entry) }
    ensures wants { AreWants wants.new.items }
    ensures room { length wants.new.items ≤ length wants.old.items + length carriers.entry.forwards.now + 1024 }
    ensures capacity { wants.new.capacity ≡ wants.old.capacity }
{
    rows.two.clear();
    merge(carriers.forwards, carriers.associations, &mut rows.two);
    rows.three.clear();
    merge(rows.two.as_slice(), carriers.questions, &mut rows.three);
    add_sockets(rows.three.as_slice(), wants);
}

// Puts the numbers of two rows, each of which rises, at the end of a third, by rising number.
fn merge<const N: usize>(some: &[u64], others: &[u64], row: &mut ArrayVec<u64, N>)
    requires { length row.old.items + length some.now + length others.now ≤ N }
    ensures items { row.new.items ≡ row.old.items ++ merged some.now others.now }
{
    let mut left = others;
    for &number in some {
        left = put_up_to(number, left, row);
        row.push(number);
    }
    let _ = row.try_extend_from_slice(left);
}

// Puts the numbers of a row that aren't greater than this one at the end of another, and answers those behind them.
fn put_up_to<'a, const N: usize>(
    number: u64,
    others: &'a [u64],
    row: &mut ArrayVec<u64, N>,
) -> &'a [u64]
    requires { length row.old.items + length others.now ≤ N }
    ensures items { (rest : List ℕ → List ℕ) → row.new.items ++ number ∷ rest result.now ≡ row.old.items ++ into number rest others.now }
    ensures room { length row.new.items + length result.now ≡ length row.old.items + length others.now }
{
    for place in 0..others.len() {
        if number < others[place] {
            return &others[place..];
        }
        row.push(others[place]);
    }
    &others[others.len()..]
}

// Puts the listeners of these numbers at the end, for reading.
fn add_listeners(numbers: &[u64], wants: &mut Wants)
    requires wants { AreWants wants.old.items }
    requires room { length wants.old.items + length numbers.now ≤ wants.old.capacity }
    ensures items { wants.new.items ≡ wants.old.items ++ map listener_want numbers.now }
    ensures wants { AreWants wants.new.items }
    ensures room { length wants.new.items ≡ length wants.old.items + length numbers.now }
    ensures capacity { wants.new.capacity ≡ wants.old.capacity }
{
    for &number in numbers {
        wants.add(Want {
            of: Who::Listener(number),
            read: true,
            write: false,
        });
    }
}

// Puts the sockets of these numbers at the end, for reading.
fn add_sockets(numbers: &[u64], wants: &mut Wants)
    requires wants { AreWants wants.old.items }
    requires room { length wants.old.items + length numbers.now ≤ wants.old.capacity }
    ensures items { wants.new.items ≡ wants.old.items ++ map udp_want numbers.now }
    ensures wants { AreWants wants.new.items }
    ensures room { length wants.new.items ≡ length wants.old.items + length numbers.now }
    ensures capacity { wants.new.capacity ≡ wants.old.capacity }
{
    for &number in numbers {
        wants.add(Want {
            of: Who::Udp(number),
            read: true,
            write: false,
        });
    }
}
