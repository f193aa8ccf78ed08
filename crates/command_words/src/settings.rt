//! The settings that options give.
ghost use Rattle.std.specs.Prelude.{◌≡◌, ℕ, ◌+◌, ◌%◌, ◌^◌, ◌||◌, List, [], IfOk, MatchOption, None, OnErr, OnOk, Option, Some, codes, is_some, map, min, option_copied};
ghost use Rattle.std.specs.Option.{option_map, option_map_or};
ghost use Rattle.slirp_settings.specs.Addresses.{Config};
ghost use Rattle.slirp_settings.specs.Settings.{settings, usual as usual_settings};
ghost use Rattle.net_octets.specs.declared.Endpoint.{Endpoint as AnEndpoint};
ghost use Rattle.command_words.specs.Meaning.{AreSettings, version_of};
ghost use Rattle.slirp_settings.specs.declared.Denial.{Denial as ADenial};
ghost use Rattle.slirp_settings.specs.declared.GuestFwd.{GuestFwd as AGuestFwd};
ghost use Rattle.command_words.specs.Options.{value_in};
ghost use Rattle.address_text.specs.Rules.{AreForwards, AreGuestForwards};
ghost use Rattle.address_text.specs.Texts.{IsAddress, IsEndpointText, IsNumber};
ghost use Rattle.command_words.specs.Texts.{AreDenials, IsNetwork, held_folder, held_text};
ghost use Rattle.command_words.specs.Narrowing.{held_denials, held_guests, narrowed, narrowed_settings};
ghost use Rattle.command_words.specs.Walking.{walk_of};

use crate::denied::put_denied;
use crate::guests::put_guests;
use crate::line::Line;
use crate::rules::put_forwards;
use crate::values::{held_folder, hold_text, read_network};
use address_text::{NoReading, read_address, read_endpoint, read_number, read_short};
use arrayvec::{ArrayString, ArrayVec};
use net_octets::{Endpoint, Ip4};
use slirp_settings::{Denial, GuestFwd, SlirpConfig};

impl<'a> Line<'a> {
    /// The settings that the options, these RULEs of both kinds and these denied networks give; what none gives is usual.
    pub(crate) fn settings(
        &self,
        rules: &[&str],
        guests: &[&str],
        denied: &[&str],
    ) -> Result<SlirpConfig, NoReading>
        ensures set { IfOk result (λ c. (config : Config) × AreSettings (value_in (walk_of self.now).options) config
            × AreForwards (map (λ rule. rule.now) rules.now) config.dhcp_start config.forwards × AreGuestForwards (map (λ rule. rule.now) guests.now) config.guest_forwards
            × AreDenials (map (λ text. text.now) denied.now) config.denied
            × (settings c ≡ narrowed_settings config)) }
        ensures refused { OnErr result ((config : Config) → AreSettings (value_in (walk_of self.now).options) config
            → AreForwards (map (λ rule. rule.now) rules.now) config.dhcp_start config.forwards → AreGuestForwards (map (λ rule. rule.now) guests.now) config.guest_forwards
            → ¬ AreDenials (map (λ text. text.now) denied.now) config.denied) }
    {
        let mut config = SlirpConfig::usual();
        put_guests(guests, &mut config.guestfwds)?;
        put_denied(denied, &mut config.denied)?;
        self.put_settings(&mut config)?;
        put_forwards(rules, config.vdhcp_start, &mut config.forwards)?;
        Ok(config)
    }

    // Puts the settings that the options give in the place of the usual ones, where forwards of guests and denied networks may stand already. No other forward is among them.
    fn put_settings(&self, config: &mut SlirpConfig) -> Result<(), NoReading>
        requires { settings config.old ≡ record usual_settings { guest_forwards = config.old.guestfwds.items; denied = config.old.denied.items } }
        ensures set { OnOk result ((guests : List AGuestFwd) (all : List ADenial) → config.old.guestfwds.items ≡ held_guests guests → config.old.denied.items ≡ held_denials all → (given : Config)
            × AreSettings (value_in (walk_of self.now).options) given × (given.guest_forwards ≡ guests) × (given.denied ≡ all) × (settings config.new ≡ narrowed_settings given)) }
        ensures none { OnOk result (config.new.forwards.items ≡ []) }
        ensures refused { OnErr result ((given : Config) → ¬ AreSettings (value_in (walk_of self.now).options) given) }
    {
        let (network, mask) = self.network(config.vnetwork, config.vnetmask)?;
        config.vnetwork = network;
        config.vnetmask = mask;
        config.vhost = self.address("--host", network, 2)?;
        config.vnameserver = self.address("--dns", network, 3)?;
        config.vdhcp_start = self.address("--dhcpstart", network, 15)?;
        config.restricted = self.has("--restrict");
        config.disable_host_loopback = self.has("--no-loopback");
        self.put_text("--hostname", &mut config.vhostname);
        self.put_text("--domainname", &mut config.vdomainname);
        self.put_text("--tftp-server-name", &mut config.tftp_server_name);
        self.put_text("--bootfile", &mut config.bootfile);
        config.tftp_path = self.folder();
        config.if_mtu = self.short("--mtu", config.if_mtu)?;
        config.if_mru = self.short("--mru", config.if_mru)?;
        config.flows = narrow(self.number("--flows", config.flows as u64)?);
        config.ring = narrow(self.number("--ring", config.ring as u64)?);
        config.resolver = self.endpoint("--resolver")?;
        config.turns = self.number("--turns", config.turns)?;
        config.outbound = self.outbound()?;
        config.control = self.endpoint("--control")?;
        config.disable_dns = self.has("--no-dns");
        config.disable_dhcp = self.has("--no-dhcp");
        config.congestion = self.has("--congestion");
        config.version = self.version(config.guestfwds.as_slice(), config.denied.as_slice());
        Ok(())
    }

    // The network and its mask.
    fn network(&self, network: Ip4, mask: Ip4) -> Result<(Ip4, Ip4), NoReading>
        ensures read { IfOk result (λ read. MatchOption (value_in (walk_of self.now).options (codes "--net")) ((read.0.0 ≡ network.0) × (read.1.0 ≡ mask.0))
            (λ text. IsNetwork text read.0.0 read.1.0)) }
        ensures refused { OnErr result ((a m b n : ℕ) → ¬ MatchOption (value_in (walk_of self.now).options (codes "--net")) ((a ≡ b) × (m ≡ n))
            (λ text. IsNetwork text a m)) }
    {
        match self.value("--net") {
            Some(text) => read_network(text.as_bytes()),
            None => Ok((network, mask)),
        }
    }

    // The address that the option of this name gives, else one so far behind the network's first.
    fn address(&self, name: &str, network: Ip4, offset: u32) -> Result<Ip4, NoReading>
        ensures read { IfOk result (λ read. MatchOption (value_in (walk_of self.now).options name.now) (read.0 ≡ (network.0 + offset) % 2 ^ 32)
            (λ text. IsAddress text read.0)) }
        ensures refused { OnErr result ((usual a : ℕ) → ¬ MatchOption (value_in (walk_of self.now).options name.now) (a ≡ usual) (λ text. IsAddress text a)) }
    {
        match self.value(name) {
            Some(text) => read_address(text.as_bytes()),
            None => Ok(Ip4(network.0.wrapping_add(offset))),
        }
    }

    // Puts the octets of the text that the option of this name gives in the place of what stands; none without it.
    fn put_text(&self, name: &str, into: &mut ArrayVec<u8, 127>)
        ensures { into.new.items ≡ option_map_or held_text (value_in (walk_of self.now).options name.now) [] }
    {
        into.clear();
        if let Some(text) = self.value(name) {
            hold_text(text.as_bytes(), into);
        }
    }

    // The folder of the files that guests may read, where it is given.
    fn folder(&self) -> Option<ArrayString<1024>>
        ensures { option_map (λ path. path.bytes) result ≡ option_map held_folder (value_in (walk_of self.now).options (codes "--tftp")) }
    {
        match self.value("--tftp") {
            Some(text) => Some(held_folder(text)),
            None => None,
        }
    }

    // The number of 16 bits that the option of this name gives, else the usual one.
    fn short(&self, name: &str, usual: u16) -> Result<u16, NoReading>
        ensures read { IfOk result (λ n. MatchOption (value_in (walk_of self.now).options name.now) (n ≡ usual) (λ text. IsNumber 16 text n)) }
        ensures refused { OnErr result ((n m : ℕ) → ¬ MatchOption (value_in (walk_of self.now).options name.now) (n ≡ m) (λ text. IsNumber 16 text n)) }
    {
        match self.value(name) {
            Some(text) => read_short(text.as_bytes()),
            None => Ok(usual),
        }
    }

    // The number of 64 bits that the option of this name gives, else the usual one.
    fn number(&self, name: &str, usual: u64) -> Result<u64, NoReading>
        ensures read { IfOk result (λ n. MatchOption (value_in (walk_of self.now).options name.now) (n ≡ usual) (λ text. IsNumber 64 text n)) }
        ensures refused { OnErr result ((n m : ℕ) → ¬ MatchOption (value_in (walk_of self.now).options name.now) (n ≡ m) (λ text. IsNumber 64 text n)) }
    {
        match self.value(name) {
            Some(text) => read_number(text.as_bytes()),
            None => Ok(usual),
        }
    }

    // The endpoint that the option of this name gives, where it is given.
    fn endpoint(&self, name: &str) -> Result<Option<Endpoint>, NoReading>
        ensures read { IfOk result (λ read. MatchOption (value_in (walk_of self.now).options name.now) (read ≡ None)
            (λ text. (at : AnEndpoint) × (read ≡ Some at) × IsEndpointText text at)) }
        ensures refused { OnErr result ((read : Option AnEndpoint) → ¬ MatchOption (value_in (walk_of self.now).options name.now) (read ≡ None)
            (λ text. (at : AnEndpoint) × (read ≡ Some at) × IsEndpointText text at)) }
    {
        let Some(text) = self.value(name) else {
            return Ok(None);
        };
        let at = read_endpoint(text.as_bytes())?;
        Ok(Some(at))
    }

    // The address from which datagrams go out, where it is given.
    fn outbound(&self) -> Result<Option<Ip4>, NoReading>
        ensures read { IfOk result (λ read. MatchOption (value_in (walk_of self.now).options (codes "--outbound")) (option_map (λ a. a.0) read ≡ None)
            (λ text. (a : ℕ) × (option_map (λ b. b.0) read ≡ Some a) × IsAddress text a)) }
        ensures refused { OnErr result ((read : Option ℕ) → ¬ MatchOption (value_in (walk_of self.now).options (codes "--outbound")) (read ≡ None)
            (λ text. (a : ℕ) × (read ≡ Some a) × IsAddress text a)) }
    {
        let Some(text) = self.value("--outbound") else {
            return Ok(None);
        };
        let address = read_address(text.as_bytes())?;
        Ok(Some(address))
    }

    // 2 where an option is given that only version 2 has, a forward of guests, or a denied network.
    fn version(&self, guests: &[GuestFwd], denied: &[Denial]) -> u32
        ensures { result ≡ version_of (value_in (walk_of self.now).options) guests.now denied.now }
    {
        if self.has("--outbound")
            || self.has("--control")
            || self.has("--no-dns")
            || self.has("--no-dhcp")
            || !guests.is_empty()
            || !denied.is_empty()
        {
            2
        } else {
            1
        }
    }
}

// The number, or the greatest of 32 bits, which is out of every range too.
fn narrow(n: u64) -> u32
    ensures { result ≡ narrowed n }
{
    n.min(u32::MAX as u64) as u32
}
