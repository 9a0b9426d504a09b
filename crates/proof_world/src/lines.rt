//! What the laws of whole runs assume, and that it holds.

ghost use Rattle.std.specs.Prelude.{◌++◌, Some, List, []};
ghost use Rattle.s0_crypto.specs.declared.key_pair.Keys.{Keys};
ghost use Rattle.proof_host.specs.device_sim.State.{State};
ghost use Rattle.zw_text.specs.declared.line.Line.{Line};
ghost use Rattle.proof_device.specs.world_model.State.{Machine, first_machine};
ghost use Rattle.proof_device.specs.world_model.Events.{Event};
ghost use Rattle.proof_device.specs.world_model.Did.{happens_all, MayAll};
ghost use Rattle.proof_device.specs.world_model.Prefixes.{LinePart};
ghost use Rattle.proof_world.specs.Restarts.{AllKeepWell};
ghost use Rattle.proof_serial.specs.Host.{AllAskWell};
ghost use Rattle.proof_serial.specs.Line.{AreLines};
ghost use Rattle.proof_world.specs.Lines.{AllAsked};

/// What a line asks, whole or cut short: an interview is asked of a node that is joined, and a message of a user's own has at most 46 bytes.
pub fn lines_ask_well()
    ensures line { (line : Line) (m : Machine) (events : List Event) → LinePart line m events → AllAsked m events }
    ensures lines { (lines : List Line) (m : Machine) (events : List Event) → AreLines lines m events → AllAsked m events }
    ensures both { (m : Machine) (a b : List Event) → AllAsked m a → AllAsked (happens_all m a) b → AllAsked m (a ++ b) }
{}

/// So over a keeper that tells its records and has none at first, of events that are asked well: an interview that ends well is of a node that is
/// joined, the keeper tells its records wherever the host starts again, and payloads that are asked for and sealed texts have at most 46 bytes.
pub fn runs_keep_and_ask_well()
    ensures { (keys : Keys) (devices : List State) (events : List Event) →
        MayAll (first_machine keys (Some []) devices) events → AllAsked (first_machine keys (Some []) devices) events →
        AllKeepWell (first_machine keys (Some []) devices) events × AllAskWell (first_machine keys (Some []) devices) events }
{}

/// So in every run of lines, the last of which an allocation failure may have cut short, over a keeper that tells its records and has none
/// at first: what the laws of whole runs assume of interviews, payloads and restarts holds.
pub fn lines_keep_and_ask_well()
    ensures { (keys : Keys) (devices : List State) (lines : List Line) (events : List Event) →
        AreLines lines (first_machine keys (Some []) devices) events → MayAll (first_machine keys (Some []) devices) events →
        AllKeepWell (first_machine keys (Some []) devices) events × AllAskWell (first_machine keys (Some []) devices) events }
{
    lines_ask_well();
    runs_keep_and_ask_well();
}
