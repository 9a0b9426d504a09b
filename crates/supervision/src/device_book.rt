//! What a supervised device keeps of its sessions.

ghost use Rattle.std.specs.Prelude.{◌≡◌, ◌+◌, ◌^◌, ◌<◌};
ghost use Rattle.supervision.specs.Session.{IsStatus};
ghost use Rattle.supervision.specs.Device.{none_taken, heard_of, after_get, finished};

use crate::session::{SUCCESS, WORKING, session_id};
use std::marker::Model;

/// What a device makes of a Supervision Get.
#[derive(Clone, Copy, Debug, PartialEq, Eq)]
pub enum Heard {
    /// It begins that session, whose commands are to be judged.
    New(u64),
    /// It is the last session again, whose status this is.
    Again(u8),
    /// It is of another session, and is ignored.
    Old,
}

/// How many sessions a device has taken, and the status of the last one. Contracts see the two.
#[derive(Debug, Drop)]
pub struct DeviceBook {
    taken: u64,
    status: u8,
}

impl Model for DeviceBook {
    ghost use Rattle.supervision.specs.Session.{IsStatus};
    ghost use Rattle.supervision.specs.Device.{Taken};

    ghost Value = { Taken };

    ghost view = { λ d. record { taken = d.taken; status = d.status } };

    ghost invariant = { λ d. IsStatus d.status };
}

impl DeviceBook {
    /// Nothing taken, and the status 0xFF.
    pub fn new() -> DeviceBook
        ensures { result ≡ none_taken }
    {
        DeviceBook {
            taken: 0,
            status: SUCCESS,
        }
    }

    /// Takes the id of a Supervision Get. From `New` on the status is 0x01 until `finish`.
    pub fn hear(&mut self, id: u8) -> Heard
        requires six_bits { id < 64 }
        requires countable { self.old.taken + 1 < 2 ^ 64 }
        ensures answer { result ≡ heard_of self.old id }
        ensures after { self.new ≡ after_get self.old id }
    {
        let next = self.taken + 1;
        if session_id(next) == id && self.status != WORKING {
            self.taken = next;
            self.status = WORKING;
            Heard::New(next)
        } else if self.taken > 0 && session_id(self.taken) == id {
            Heard::Again(self.status)
        } else {
            Heard::Old
        }
    }

    /// Sets the status of the last session taken.
    pub fn finish(&mut self, status: u8)
        requires { IsStatus status }
        ensures { self.new ≡ finished self.old status }
    {
        self.status = status;
    }

    /// How many sessions were taken, which is the number of the last one.
    pub fn taken(&self) -> u64
        ensures { result ≡ self.now.taken }
    {
        self.taken
    }

    /// The status of the last session taken, 0xFF before one.
    pub fn status(&self) -> u8
        ensures value { result ≡ self.now.status }
        ensures known { IsStatus result }
    {
        self.status
    }
}
