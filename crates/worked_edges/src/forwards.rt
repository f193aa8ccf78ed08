//! Ports of the host are given to a guest until there is no room for more, and taken back.
ghost use Rattle.std.specs.Prelude.{◌≢◌, ◌≤◌};

use host_policy::Policy;
use port_forward::{Forward, Forwards};
use replay::ScriptWorld;
use rules_forward::FwdFault;
use slirp_settings::{Proto, SlirpConfig};
use std::alloc::Global;
use std::test::Fail;
use world_face::{Endpoint, Ip4};

// A World on which 32 ports are opened, those are closed, and one is opened.
fn world(alloc: Global) -> Result<ScriptWorld, Fail> {
    let mut text = String::new(alloc);
    for _ in 0..32 {
        text.push_str("listen * = done\n")?;
    }
    for _ in 0..32 {
        text.push_str("close * = done\n")?;
    }
    text.push_str("listen * = done\n")?;
    if text.len() > 67_108_864 {
        return Err(Fail::from("too long"));
    }
    ScriptWorld::read(alloc, text.as_bytes()).map_err(|_| Fail::from("no schedule"))
}

// The port of the host at this place of those that are given to a guest.
fn port(place: u16) -> Endpoint
    requires { place ≤ 32 }
    ensures { result.port ≢ 0 }
{
    Endpoint {
        addr: Ip4(0x7f000001),
        port: 2000 + place,
    }
}

// The port of a guest to which they lead.
fn guest() -> Endpoint
    ensures { result.port ≢ 0 }
{
    Endpoint {
        addr: Ip4(0x0a00020f),
        port: 22,
    }
}

// Gives the one at this place to the guest.
fn add(
    forwards: &mut Forwards,
    world: &mut ScriptWorld,
    policy: &Policy,
    place: u16,
) -> Result<(), FwdFault>
    requires { place ≤ 32 }
{
    let forward = Forward {
        proto: Proto::Tcp,
        host: port(place),
        guest: guest(),
    };
    forwards.add_hostfwd(world, policy, forward, u64::from(place))
}

// The first 32 are added and no more, all are removed in another order, and the first is added again.
#[test]
fn a_full_list_has_room_again(rt: HostRuntime) -> Result<(), Fail> {
    let mut world = world(rt.alloc())?;
    let policy = Policy::new(&SlirpConfig::usual());
    let mut forwards = Forwards::open(rt.alloc()).map_err(|_| "memory")?;
    for place in 0..32 {
        assert!(rt; add(&mut forwards, &mut world, &policy, place).is_ok());
    }
    assert!(rt; add(&mut forwards, &mut world, &policy, 32) == Err(FwdFault::Full));
    for step in 0..32 {
        let place = step * 7 % 32;
        assert!(rt;
            forwards
                .remove_hostfwd(&mut world, Proto::Tcp, port(place))
                .is_ok()
        );
    }
    assert!(rt; forwards.len() == 0);
    assert!(rt; add(&mut forwards, &mut world, &policy, 0).is_ok());
    assert!(rt; forwards.len() == 1);
    Ok(())
}
