//! The host as a link of the serial line: what it hears, submits and ticks obeys the rules of the line, from each start to the next.

ghost use Rattle.std.specs.Prelude.{◌≡◌, ℕ, List, [], ◌++◌, Option};
ghost use Rattle.proof_device.specs.device_sim.State.{State};
ghost use Rattle.s0_crypto.specs.declared.key_pair.Keys.{Keys};
ghost use Rattle.serial_link.specs.Rules.{Step};
ghost use Rattle.chip_sim.specs.Link.{link_units};
ghost use Rattle.host_keep.specs.declared.record.Record.{Record};
ghost use Rattle.proof_serial.specs.host_model.State.{HostState, first_host};
ghost use Rattle.proof_serial.specs.host_model.Opening.{opened};
ghost use Rattle.proof_serial.specs.host_model.Events.{HostEvent};
ghost use Rattle.proof_serial.specs.host_model.May.{May as MayHost};
ghost use Rattle.proof_serial.specs.host_model.After.{after};
ghost use Rattle.proof_serial.specs.host_model.Outs.{outs};
ghost use Rattle.proof_device.specs.world_model.State.{first_machine};
ghost use Rattle.proof_device.specs.world_model.Events.{Event};
ghost use Rattle.proof_device.specs.world_model.Did.{happens_all, MayAll};
ghost use Rattle.proof_serial.specs.Host.{AllAskWell};
ghost use Rattle.proof_serial.specs.Line.{host_units};
ghost use Rattle.proof_traffic.specs.Links.{KeepsItsLink, host_link_steps, steps_since_start};

/// Whatever happens to a host, its link obeys the rules of the serial line: it answers each item as it must, writes copies of its own frame when they
/// are due and not else, and a new frame only where the last one was acknowledged or given up. So it is of a new host, of one that starts from records,
/// and in every run from each start of the host to the next. What it writes is what its link puts out.
pub fn hosts_obey_the_line()
    ensures first { (keys : Keys) → KeepsItsLink [] (first_host keys) }
    ensures opened { (keys : Keys) (records : List Record) → KeepsItsLink [] (opened keys records) }
    ensures each { (h : HostState) (event : HostEvent) (steps : List Step) → KeepsItsLink steps h → MayHost h event →
        KeepsItsLink (steps ++ host_link_steps h event) (after h event) }
    ensures units { (h : HostState) (event : HostEvent) → h.side.collisions ≡ 0 → host_units (outs h event) ≡ link_units (host_link_steps h event) }
    ensures run { (keys : Keys) (records : Option (List (List ℕ))) (devices : List State) (events : List Event) →
        MayAll (first_machine keys records devices) events → AllAskWell (first_machine keys records devices) events →
        KeepsItsLink (steps_since_start [] (first_machine keys records devices) events) (happens_all (first_machine keys records devices) events).host.state }
{}
