//! What a run with a control is: definitions over the trace of calls (`RunsBy`, `Refuses`), with rows, and laws. There is no code to run: each function here is a law.
//!
//! Proved: the calls of the network, on sockets that aren't the control's, leave the control server as it is where none of them is awaited
//! (`the_calls_of_the_network_leave_the_control_server_as_it_is`); a port of the host that is named, and that the settings don't have for the number of its socket, is opened
//! before the first wait alone (`named_ports_are_opened_at_first`: `listens`, `opens`); while the run goes on ports change for commands alone, each by the call that
//! comes next (`ports_change_for_commands_alone`); each whole line of an open connection is answered (`each_whole_line_is_answered`; `answered`: where no reply is left
//! and no call is awaited no whole line is kept; `waits`: where one is kept at a wait, the connection is waited for to write).
#![tactic(auto)]

ghost use Rattle.std.specs.Prelude.{◌≡◌, ◌≢◌, ℕ, ◌==◌, List, [], ◌∷◌, ◌++◌, None, Option, Some, false, true};
ghost use Rattle.net_octets.specs.declared.Endpoint.{Endpoint};
ghost use Rattle.poll_list.specs.declared.Want.{Want};
ghost use Rattle.poll_list.specs.declared.Who.TheVariants.{Tcp as Connection};
ghost use Rattle.world_face.specs.Journal.{Call, CallClose, CallListen, CallUdpOpen, CallWait, Entry, Follows};
ghost use Rattle.slirp_settings.specs.Addresses.{Config, forward_on};
ghost use Rattle.slirp_settings.specs.declared.Forward.{Forward};
ghost use Rattle.slirp_settings.specs.declared.Proto.{Proto};
ghost use Rattle.spec_trace.specs.Shape.{is_ended, is_opening, opening_of, phase};
ghost use Rattle.spec_trace.specs.Sockets.{next_number};
ghost use Rattle.spec_run.specs.Laws.{May};
ghost use Rattle.rules_control.specs.Apart.{controls, is_controls, without_control};
ghost use Rattle.rules_control.specs.Talk.{has_line, is_out};
ghost use Rattle.rules_control.specs.declared.Command.TheVariants.{Add, Remove};
ghost use Rattle.spec_control.specs.Asked.{IsAskedBy};
ghost use Rattle.spec_control.specs.ControlServer.{AreOffControl, Nothing, Opening, Reads, Shutting, by_control, control_server};
ghost use Rattle.spec_control.specs.Laws.{MayControl, is_given};

/// The network's calls, on sockets that aren't the control's, leave the control server as it is where none of them is awaited: the connection, what is left of a
/// reply, and which ports of the host are given to guests.
pub fn the_calls_of_the_network_leave_the_control_server_as_it_is()
    ensures { (read : Reads) (config : Config) (made past : List Entry) → AreOffControl made
        → (control_server read config past).awaited ≡ Nothing → control_server read config (made ++ past) ≡ control_server read config past }
{}

/// A port of the host that is named, and that the settings don't have for the number of its socket, is opened while the settings' own are, before the
/// first wait, and never later.
pub fn named_ports_are_opened_at_first()
    ensures listens { (config : Config) (past : List Entry) (socket : ℕ) (at : Endpoint) → forward_on config socket ≡ None
        → May config past (CallListen socket at) → is_opening (phase config past) ≡ true }
    ensures opens { (config : Config) (past : List Entry) (socket : ℕ) (at : Endpoint) → forward_on config socket ≡ None
        → (at.port == 0) ≡ false → May config past (CallUdpOpen socket at) → is_opening (phase config past) ≡ true }
{}

/// While the run goes on a port of the host is opened for the command `add` alone, and closed for `remove` alone, each by the call that comes next: a
/// command is the first whole line of the connection, once no reply is left.
pub fn ports_change_for_commands_alone()
    // A socket is awaited from the entry on with which the line came whole, or with which the reply before it was out.
    ensures opening { (read : Reads) (config : Config) (past : List Entry) (e : Entry) (f : Forward) → (control_server read config past).awaited ≡ Nothing
        → (control_server read config (e ∷ past)).awaited ≡ Opening f → IsAskedBy read e (control_server read config past).talk (Add f) }
    ensures removing { (read : Reads) (config : Config) (past : List Entry) (e : Entry) → (control_server read config (e ∷ past)).removed ≢ (control_server read config past).removed
        → (proto : Proto) × (host : Endpoint) × IsAskedBy read e (control_server read config past).talk (Remove proto host) }
    // No named port is opened but one that is awaited, and none that is given to a guest is closed.
    ensures listens { (read : Reads) (config : Config) (past : List Entry) (socket : ℕ) (at : Endpoint) → is_controls socket ≡ false → (at.port == 0) ≡ false
        → is_opening (phase (by_control read config past) (without_control past)) ≡ false → MayControl read config past (CallListen socket at)
        → (f : Forward) × ((control_server read config past).awaited ≡ Opening f) }
    ensures opens { (read : Reads) (config : Config) (past : List Entry) (socket : ℕ) (at : Endpoint) → (at.port == 0) ≡ false
        → is_opening (phase (by_control read config past) (without_control past)) ≡ false → MayControl read config past (CallUdpOpen socket at)
        → (f : Forward) × ((control_server read config past).awaited ≡ Opening f) }
    ensures closes { (read : Reads) (config : Config) (past : List Entry) (socket : ℕ) → is_controls socket ≡ false → is_given past socket ≡ true
        → is_ended (by_control read config past) (without_control past) ≡ false → MayControl read config past (CallClose socket)
        → (control_server read config past).awaited ≡ Shutting socket }
    // What is awaited comes next.
    ensures next { (read : Reads) (config : Config) (past : List Entry) (call : Call) (f : Forward) → (control_server read config past).awaited ≡ Opening f
        → MayControl read config past call → call ≡ opening_of f.proto (next_number (without_control past)) f }
{}

/// Each whole line is answered once no reply is left: in a run of calls that may come none is kept behind a reply that is out, but while the port is opened
/// for which it asked. So before a wait each line that came whole is answered, or stands behind a reply of which more is offered once the connection takes it.
pub fn each_whole_line_is_answered()
    ensures answered { (read : Reads) (config : Config) (past : List Entry) (socket : ℕ) → Follows (MayControl read config) past
        → (control_server read config past).awaited ≡ Nothing → (control_server read config past).talk.peer ≡ Some socket → is_out (control_server read config past).talk ≡ true
        → has_line (control_server read config past).talk.kept ≡ false }
    ensures waits { (read : Reads) (config : Config) (past : List Entry) (wants : List Want) (timeout : Option ℕ) (socket : ℕ)
        → Follows (MayControl read config) past → MayControl read config past (CallWait wants timeout) → (control_server read config past).talk.peer ≡ Some socket
        → has_line (control_server read config past).talk.kept ≡ true → controls wants ≡ record { of = Connection socket; read = false; write = true } ∷ [] }
{}
