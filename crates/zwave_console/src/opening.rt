//! The file of records of `host`: its name, how it is opened, and what standard error says of it.

use file_keeper::{DiskFault, DiskFile, FileKeeper, OpenFault};
use host_keep::PlainKeeper;
use run_lines::Status;
use run_records::Records;
use std::env;
use std::env::VarError;

/// The command that may have a file of records.
const HOST: &str = "host";

/// The environment variable that names the file of the records of `host`.
const RECORDS: &str = "ZWAVE_RECORDS";

/// Whether the words are those of `host`.
pub(crate) fn is_host(words: &[String]) -> bool {
    match words.first() {
        Some(word) => word.as_str() == HOST,
        None => false,
    }
}

/// The name of the file of records, where the words are those of `host` and the environment has one.
pub(crate) fn records_name(rt: &HostRuntime, words: &[String]) -> Result<Option<String>, Status> {
    if !is_host(words) {
        return Ok(None);
    }
    match env::var(rt, RECORDS) {
        Ok(name) => Ok(Some(name)),
        Err(VarError::NotPresent) => Ok(None),
        Err(VarError::OutOfMemory) => Err(Status::NoMemory),
        Err(VarError::NotUnicode) => {
            let _ = eprintln!(rt; "zwave_console: {RECORDS} is not UTF-8");
            Err(Status::KeeperFault)
        }
    }
}

/// Makes the keeper of the records: over the file of that name, where there is one.
pub(crate) fn make_records(rt: &HostRuntime, name: Option<&str>) -> Result<Records, Status> {
    match name {
        Some(name) => Ok(Records::File(open_records(rt, name)?)),
        None => Ok(Records::Memory(PlainKeeper::new(rt.alloc()))),
    }
}

// Opens the file of records.
fn open_records(rt: &HostRuntime, name: &str) -> Result<FileKeeper<DiskFile>, Status> {
    let file = match DiskFile::open(rt, name) {
        Ok(file) => file,
        Err(fault) => {
            say_refused(rt, name, &fault);
            return Err(Status::KeeperFault);
        }
    };
    let mut keeper = FileKeeper::new(rt.alloc(), file);
    match keeper.open() {
        Ok(()) => Ok(keeper),
        Err(fault) => Err(unopened(rt, name, fault)),
    }
}

// Says which file was not opened, and why.
fn say_refused(rt: &HostRuntime, name: &str, fault: &DiskFault) {
    match fault {
        DiskFault::Locked => say(rt, name, "another program has it open"),
        DiskFault::NoFile => say(rt, name, "it is no file"),
        DiskFault::Refused { error } => {
            let _ = eprintln!(rt; "zwave_console: {name}: {error}");
        }
    }
}

// The status where what the file holds was not taken, which is said.
fn unopened(rt: &HostRuntime, name: &str, fault: OpenFault) -> Status {
    match fault {
        OpenFault::NoMemory => return Status::NoMemory,
        OpenFault::Failed => say(rt, name, "reading or syncing failed"),
        OpenFault::Foreign => say(rt, name, "it ends without a line feed, and not in a record"),
    }
    Status::KeeperFault
}

// Says something of a file.
fn say(rt: &HostRuntime, name: &str, text: &str) {
    let _ = eprintln!(rt; "zwave_console: {name}: {text}");
}

/// Says how often something could not be kept, if it ever was so.
pub(crate) fn say_faults(rt: &HostRuntime, name: &str, faults: u64) {
    if faults > 0 {
        let _ = eprintln!(rt;
            "zwave_console: {name}: {faults} times a record could not be kept or read"
        );
    }
}
