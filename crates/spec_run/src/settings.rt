//! What the laws ask of the settings is so where these were read and checked.
//!
//! That ports have 16 bits is known of settings in a program alone, since their type says it and their check doesn't.
ghost use Rattle.std.specs.Prelude.{◌≡◌, ℕ, ◌<◌, ◌≤◌, ◌^◌, []};
ghost use Rattle.slirp_settings.specs.Addresses.{Config};
ghost use Rattle.slirp_settings.specs.Ranges.{IsSound};
ghost use Rattle.slirp_settings.specs.Settings.{settings};
ghost use Rattle.spec_run.specs.Questions.{HasNameServer};
ghost use Rattle.spec_run.specs.Said.{HasPorts};
ghost use Rattle.spec_run.specs.Settings.{HasNumbersForPorts};

use slirp_settings::{Forward, SlirpConfig};

/// Settings of which `SlirpConfig::check` answers Ok are in each range that a law asks for: a frame has room for a header and a unit of 8 octets, and
/// for a SYN with its options; the virtual host and the name server have addresses of 32 bits, the latter one of the network that isn't the host's; and each port
/// of the host leads to an endpoint of a guest, where the settings alone give them and ports have 16 bits, as their type says.
pub fn sound_settings_meet_the_premises_of_the_laws()
    ensures header { (config : Config) → IsSound config → 28 ≤ config.mtu }
    ensures syn { (config : Config) → IsSound config → 48 ≤ config.mtu }
    ensures host { (config : Config) → IsSound config → config.vhost < 2 ^ 32 }
    ensures name_server { (config : Config) → IsSound config → config.vnameserver < 2 ^ 32 }
    ensures has_name_server { (config : Config) → IsSound config → HasNameServer config }
    ensures ports { (config : Config) → IsSound config → config.added ≡ [] → HasNumbersForPorts config → HasPorts config }
{}

/// The ports of settings in a program have 16 bits, as their type says. Each is read, so that it is known; nothing else comes of it.
pub fn ports_of_settings_have_16_bits(config: &SlirpConfig)
    ensures { HasNumbersForPorts (settings config.now) }
{
    for forward in config.forwards.as_slice() {
        let _port = guest_port(forward);
    }
}

fn guest_port(forward: &Forward) -> u16
    ensures { result ≡ forward.now.guest.port }
{
    forward.guest.port
}
