//! The program: makes the devices, the key, the input, the output and the keeper of records, and hands them to `run` of `proof_commands`.
#![tactic(auto)]

mod opening;

ghost use Rattle.std.specs.Prelude.{◌≡◌, ◌<◌, ◌^◌, length, map};
ghost use Rattle.proof_commands.specs.Mesh.{mesh};

use crate::opening::{is_host, make_records, records_name, say_faults};
use device_sim::Device;
use proof_commands::{ChaChaDraw, run};
use run_devices::{FIRST, KEY, LAST, Made, make_device};
use run_lines::Status;
use run_records::Records;
use run_words::USAGE;
use run_writes::{Gathered, GatheringSink, MOST_WAITING, WritingSource, write_waiting};
use std::cell::RefCell;
use std::env;
use std::io::ErrorKind;
use std::process::ExitCode;
use zw_base::{Failed, NoMemory, StdSink, StdSource, read_node};

fn main(rt: HostRuntime) -> ExitCode {
    let status = match start(&rt) {
        Ok(status) => status,
        Err(status) => status,
    };
    if status == Status::Usage {
        let _ = eprintln!(rt; "{USAGE}");
    }
    ExitCode::from(status.code())
}

// Makes what the words ask for, and runs the command.
fn start(rt: &HostRuntime) -> Result<Status, Status> {
    let words = words_of(rt)?;
    let words = words.as_slice();
    let name = records_name(rt, words)?;
    let name = match &name {
        Some(name) => Some(name.as_str()),
        None => None,
    };
    let mut records = make_records(rt, name)?;
    let status = match run_with_devices(rt, words, &mut records) {
        Ok(status) => status,
        Err(NoMemory) => Status::NoMemory,
    };
    if let Some(name) = name {
        say_faults(rt, name, records.faults());
    }
    Ok(status)
}

// The words after the program's name. The program accepts no word that is not UTF-8.
fn words_of(rt: &HostRuntime) -> Result<Vec<String>, Status> {
    let mut words = Vec::new(rt.alloc());
    let mut args = match env::args(rt) {
        Ok(args) => args,
        Err(error) if error.kind() == ErrorKind::OutOfMemory => return Err(Status::NoMemory),
        Err(_) => return Err(Status::Usage),
    };
    let _program = args.next();
    for word in args {
        if words.push(word).is_err() {
            return Err(Status::NoMemory);
        }
    }
    Ok(words)
}

// Makes a device for each node, and runs the command over them.
fn run_with_devices(
    rt: &HostRuntime,
    words: &[String],
    records: &mut Records,
) -> Result<Status, NoMemory> {
    let mut devices: Vec<Box<dyn Device>> = Vec::new(rt.alloc());
    for number in FIRST..=LAST {
        let Some(node) = read_node(number) else {
            continue;
        };
        let device: Box<dyn Device> = match make_device(rt.alloc(), node)? {
            Made::Recorder(device) => device,
            Made::Configurable(device) => device,
            Made::Relay(device) => device,
            Made::Switch(device) => device,
            Made::Dimmer(device) => device,
            Made::Lock(device) => device,
            Made::Sensor(device) => device,
            Made::Thermostat(device) => device,
            Made::Strip(device) => device,
        };
        devices.push(device)?;
    }
    Ok(run_over_standard(rt, words, &mut devices, records))
}

// Runs the command over these devices, and the real input and output.
fn run_over_standard(
    rt: &HostRuntime,
    words: &[String],
    devices: &mut Vec<Box<dyn Device>>,
    records: &mut Records,
) -> Status
    requires few { length devices.old.items < 2 ^ 64 }
    requires made { map (λ d. state d) devices.old.items ≡ mesh KEY }
{
    let most = if is_host(words) { 0 } else { MOST_WAITING };
    let gathered = RefCell::new(Gathered::new(rt.alloc(), StdSink::new(rt.stdout()), most));
    let mut source = WritingSource::new(StdSource::new(rt.stdin()), &gathered);
    let mut sink = GatheringSink::new(&gathered);
    let mut draw = ChaChaDraw::new([0; 32]);
    let status = run(
        rt.alloc(),
        words,
        &mut source,
        &mut sink,
        devices,
        KEY,
        &mut draw,
        records,
    );
    match write_waiting(&gathered) {
        Err(Failed) if status != Status::NoMemory => Status::WriteFault,
        _ => status,
    }
}
