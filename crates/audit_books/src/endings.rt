//! How commands ended.

ghost use Rattle.std.specs.Prelude.{◌≡◌, ℕ, OnOk};
ghost use Rattle.audit_books.specs.Ending.{ended_so, ending_after, ending_in, is_failure, is_success, no_ending};

use std::alloc::Global;
use std::collections::BTreeMap;
use std::marker::Model;
use zw_base::NoMemory;
use zw_text::{Ended, Entry};

/// How a command ended, once or more.
#[derive(Clone, Copy, Debug)]
pub struct Ending {
    /// A final report was among it: success, fail or no support.
    pub is_final: bool,
    /// Fail or no support was among it.
    pub has_failed: bool,
    /// Success was the last.
    pub succeeds: bool,
}

/// The endings of each command by its number. Contracts see the numbers with their endings.
#[derive(Drop)]
pub struct Endings {
    endings: BTreeMap<u32, Ending>,
}

impl Model for Endings {
    ghost use Rattle.std.specs.Prelude.{ℕ, List};
    ghost use Rattle.audit_books.specs.declared.endings.Ending.{Ending};

    ghost Value = { List (ℕ × Ending) };

    ghost view = { λ e. e.endings.entries };
}

/// Whether it is success.
fn is_success(ended: Ended) -> bool
    ensures { result ≡ is_success ended }
{
    matches!(ended, Ended::Success)
}

/// Whether it is fail or no support.
fn is_failure(ended: Ended) -> bool
    ensures { result ≡ is_failure ended }
{
    matches!(ended, Ended::Fail | Ended::NoSupport)
}

/// The ending with one more.
fn ended_so(before: Ending, ended: Ended) -> Ending
    ensures { result ≡ ended_so before ended }
{
    Ending {
        is_final: before.is_final || (is_success(ended) || is_failure(ended)),
        has_failed: before.has_failed || is_failure(ended),
        succeeds: is_success(ended),
    }
}

impl Endings {
    /// No command has ended.
    pub fn new(alloc: Global) -> Endings
        ensures { (command : ℕ) → ending_in result command ≡ no_ending }
    {
        Endings {
            endings: BTreeMap::new(alloc),
        }
    }

    /// How a command ended.
    pub fn get(&self, command: u32) -> Ending
        ensures { result ≡ ending_in self.now command }
    {
        match self.endings.get(&command) {
            Some(ending) => *ending,
            None => Ending {
                is_final: false,
                has_failed: false,
                succeeds: false,
            },
        }
    }

    /// Takes the next entry.
    pub fn take(&mut self, entry: &Entry) -> Result<(), NoMemory>
        ensures { OnOk result ((command : ℕ) → ending_in self.new command ≡ ending_after (ending_in self.old command) command entry.now) }
    {
        if let Entry::Out { command, ended } = entry {
            let ending = ended_so(self.get(*command), *ended);
            self.endings.insert(*command, ending)?;
        }
        Ok(())
    }
}
