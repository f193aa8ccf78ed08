//! The fields of the settings, and their names.
ghost use Rattle.std.specs.Prelude.{◌≡◌};
ghost use Rattle.slirp_settings.specs.Names.{field_name};

/// A field of the settings, by which its fault is named.
#[derive(Clone, Copy, Debug, PartialEq, Eq)]
pub enum Field {
    Version,
    InEnabled,
    Vnetmask,
    Vnetwork,
    Vhost,
    Vnameserver,
    VdhcpStart,
    Vhostname,
    Vdomainname,
    TftpServerName,
    Bootfile,
    TftpPath,
    IfMtu,
    IfMru,
    Flows,
    Ring,
    Resolver,
    Turns,
    Forwards,
    Outbound,
    DisableDns,
    DisableDhcp,
    Guestfwds,
    Control,
    Denied,
}

impl Field {
    /// The field's name, as it is printed.
    pub fn name(self) -> &'static str
        ensures { result.now ≡ field_name self }
    {
        match self {
            Field::Version => "version",
            Field::InEnabled => "in_enabled",
            Field::Vnetmask => "vnetmask",
            Field::Vnetwork => "vnetwork",
            Field::Vhost => "vhost",
            Field::Vnameserver => "vnameserver",
            Field::VdhcpStart => "vdhcp_start",
            Field::Vhostname => "vhostname",
            Field::Vdomainname => "vdomainname",
            Field::TftpServerName => "tftp_server_name",
            Field::Bootfile => "bootfile",
            Field::TftpPath => "tftp_path",
            Field::IfMtu => "if_mtu",
            Field::IfMru => "if_mru",
            Field::Flows => "flows",
            Field::Ring => "ring",
            Field::Resolver => "resolver",
            Field::Turns => "turns",
            Field::Forwards => "forwards",
            Field::Outbound => "outbound",
            Field::DisableDns => "disable_dns",
            Field::DisableDhcp => "disable_dhcp",
            Field::Guestfwds => "guestfwds",
            Field::Control => "control",
            Field::Denied => "denied",
        }
    }
}
