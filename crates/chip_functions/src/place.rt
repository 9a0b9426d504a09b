//! A place in a body, and the fields that are read there.

ghost use Rattle.std.specs.Prelude.{◌≡◌, ◌+◌, ◌<◌, ◌≤◌, length, IfOk, OnOk};

use crate::mask::MASK_BYTES;
use crate::{AddMode, AddStatus, BodyFault, NodeMask, TransmitStatus};
use std::alloc::Global;
use zw_base::{Bytes, NodeId, read_node};

/// What is still to be read of a body, and how many bytes of it stand before.
#[derive(Drop)]
pub struct Place<'a> {
    pub before: u16,
    pub rest: &'a [u8],
}

/// The most bytes that stand before a field of any body.
pub const FAR: u16 = 1000;

impl<'a> Place<'a> {
    ghost use Rattle.chip_functions.specs.Place.{Gives};
    ghost use Rattle.chip_functions.specs.Field.{byte, piece, node, byte_within, counted, mark, number, mask, coded};
    ghost use Rattle.chip_functions.specs.Response.{failed_code, failed_of};
    ghost use Rattle.chip_functions.specs.Notice.{status_code, status_of};
    ghost use Rattle.chip_functions.specs.AddNode.{mode_code, mode_of, status_code as add_code, status_of as add_status_of};
    ghost use Rattle.std.specs.Int.{w16, w32};
    ghost use Rattle.chip_functions.specs.Seen.{place_of};

    /// Any byte.
    pub fn byte(&mut self) -> Result<u8, BodyFault>
        requires { self.old.before ≤ FAR }
        ensures value { Gives (λ x. (x, place_of self.new)) result (byte.read (place_of self.old)) }
        ensures moved { OnOk result (self.new.before ≤ self.old.before + 1) }
    {
        match self.rest {
            [] => Err(BodyFault::Short {
                need: self.before + 1,
                got: self.before,
            }),
            [byte, rest @ ..] => {
                self.before += 1;
                self.rest = rest;
                Ok(*byte)
            }
        }
    }

    /// So many bytes.
    pub fn piece(&mut self, len: u8) -> Result<&'a [u8], BodyFault>
        requires { self.old.before ≤ FAR }
        ensures value { Gives (λ x. (x.now, place_of self.new)) result ((piece len).read (place_of self.old)) }
        ensures moved { OnOk result (self.new.before ≤ self.old.before + len) }
        ensures long { IfOk result (λ x. length x.now ≡ len) }
    {
        if self.rest.len() < len as usize {
            return Err(BodyFault::Short {
                need: self.before + len as u16,
                got: self.before + self.rest.len() as u16,
            });
        }
        let (bytes, rest) = self.rest.split_at(len as usize);
        self.before += len as u16;
        self.rest = rest;
        Ok(bytes)
    }

    /// A node.
    pub fn node(&mut self) -> Result<NodeId, BodyFault>
        requires { self.old.before ≤ FAR }
        ensures value { Gives (λ x. (x, place_of self.new)) result (node.read (place_of self.old)) }
        ensures moved { OnOk result (self.new.before ≤ self.old.before + 1) }
    {
        let before = self.before;
        match read_node(self.byte()?) {
            Some(node) => Ok(node),
            None => Err(BodyFault::BadField(before)),
        }
    }

    /// A callback id: a byte that is not 0.
    pub fn callback_id(&mut self) -> Result<u8, BodyFault>
        requires { self.old.before ≤ FAR }
        ensures value { Gives (λ x. (x, place_of self.new)) result ((byte_within 1 255).read (place_of self.old)) }
        ensures moved { OnOk result (self.new.before ≤ self.old.before + 1) }
    {
        let before = self.before;
        let byte = self.byte()?;
        if byte == 0 {
            return Err(BodyFault::BadField(before));
        }
        Ok(byte)
    }

    /// A length that is not 0, and so many bytes.
    pub fn counted(&mut self, alloc: Global) -> Result<Bytes, BodyFault>
        requires { self.old.before < FAR }
        ensures value { Gives (λ x. (x, place_of self.new)) result ((counted 1).read (place_of self.old)) }
        ensures moved { OnOk result (self.new.before ≤ self.old.before + 256) }
    {
        let before = self.before;
        let len = self.byte()?;
        if len == 0 {
            return Err(BodyFault::BadField(before));
        }
        let bytes = self.piece(len)?;
        Ok(Bytes::from_slice(alloc, bytes)?)
    }

    /// A number of two bytes, high byte first.
    pub fn number16(&mut self) -> Result<u16, BodyFault>
        requires { self.old.before ≤ FAR }
        ensures value { Gives (λ x. (x, place_of self.new)) result ((number w16).read (place_of self.old)) }
        ensures moved { OnOk result (self.new.before ≤ self.old.before + 2) }
    {
        let bytes = self.piece(2)?;
        Ok(u16::from_be_bytes([bytes[0], bytes[1]]))
    }

    /// A number of four bytes, high byte first.
    pub fn number32(&mut self) -> Result<u32, BodyFault>
        requires { self.old.before ≤ FAR }
        ensures value { Gives (λ x. (x, place_of self.new)) result ((number w32).read (place_of self.old)) }
        ensures moved { OnOk result (self.new.before ≤ self.old.before + 4) }
    {
        let bytes = self.piece(4)?;
        Ok(u32::from_be_bytes([bytes[0], bytes[1], bytes[2], bytes[3]]))
    }

    /// That very byte.
    pub fn mark(&mut self, code: u8) -> Result<(), BodyFault>
        requires { self.old.before ≤ FAR }
        ensures value { Gives (λ _. (tt, place_of self.new)) result ((mark code).read (place_of self.old)) }
        ensures moved { OnOk result (self.new.before ≤ self.old.before + 1) }
    {
        let before = self.before;
        if self.byte()? != code {
            return Err(BodyFault::BadField(before));
        }
        Ok(())
    }

    /// The nodes of a mask.
    pub fn mask(&mut self) -> Result<NodeMask, BodyFault>
        requires { self.old.before ≤ FAR }
        ensures value { Gives (λ x. (x, place_of self.new)) result (mask.read (place_of self.old)) }
        ensures moved { OnOk result (self.new.before ≤ self.old.before + MASK_BYTES) }
    {
        Ok(NodeMask::of_bytes(self.piece(MASK_BYTES)?))
    }

    /// Whether a node has failed.
    pub fn failed(&mut self) -> Result<bool, BodyFault>
        requires { self.old.before ≤ FAR }
        ensures value { Gives (λ x. (x, place_of self.new)) result ((coded failed_code failed_of).read (place_of self.old)) }
        ensures moved { OnOk result (self.new.before ≤ self.old.before + 1) }
    {
        let before = self.before;
        match self.byte()? {
            0 => Ok(false),
            1 => Ok(true),
            _ => Err(BodyFault::BadField(before)),
        }
    }

    /// A transmit status.
    pub fn status(&mut self) -> Result<TransmitStatus, BodyFault>
        requires { self.old.before ≤ FAR }
        ensures value { Gives (λ x. (x, place_of self.new)) result ((coded status_code status_of).read (place_of self.old)) }
        ensures moved { OnOk result (self.new.before ≤ self.old.before + 1) }
    {
        let before = self.before;
        match TransmitStatus::of(self.byte()?) {
            Some(status) => Ok(status),
            None => Err(BodyFault::BadField(before)),
        }
    }

    /// The mode of an AddNode.
    pub fn add_mode(&mut self) -> Result<AddMode, BodyFault>
        requires { self.old.before ≤ FAR }
        ensures value { Gives (λ x. (x, place_of self.new)) result ((coded mode_code mode_of).read (place_of self.old)) }
        ensures moved { OnOk result (self.new.before ≤ self.old.before + 1) }
    {
        let before = self.before;
        match AddMode::of(self.byte()?) {
            Some(mode) => Ok(mode),
            None => Err(BodyFault::BadField(before)),
        }
    }

    /// The status of an AddNode.
    pub fn add_status(&mut self) -> Result<AddStatus, BodyFault>
        requires { self.old.before ≤ FAR }
        ensures value { Gives (λ x. (x, place_of self.new)) result ((coded add_code add_status_of).read (place_of self.old)) }
        ensures moved { OnOk result (self.new.before ≤ self.old.before + 1) }
    {
        let before = self.before;
        match AddStatus::of(self.byte()?) {
            Some(status) => Ok(status),
            None => Err(BodyFault::BadField(before)),
        }
    }
}
