//! The entries of a transcript.

use zw_base::{By, Bytes, NodeId, Payload, Property, Sequence, Setting};
use zw_words::{LineFault, Side};

/// How a command ended.
#[derive(Clone, Copy, PartialEq, Eq)]
pub enum Ended {
    Success,
    Fail,
    NoSupport,
    Unanswered,
    Cancelled,
}

/// What is known of an accepted command.
#[derive(Clone, Copy, Debug, PartialEq, Eq)]
pub enum Outcome {
    Waiting,
    Begun,
    Success,
    Fail,
    NoSupport,
    Unanswered,
    Cancelled,
}

/// How a request without Supervision ended.
#[derive(Clone, Copy, PartialEq, Eq)]
pub enum Done {
    /// `ok`: the callback with status 0.
    Delivered,
    /// `noack`: the callback with status 1.
    NoAck,
    /// `fail`: the callback with status 2.
    Fail,
    /// `notidle`: the callback with status 3.
    NotIdle,
    /// `noroute`: the callback with status 4.
    NoRoute,
    /// `refused`: the response 0.
    Refused,
    /// `silent`: no response or no callback in time.
    Silent,
    /// `link`: the link failed.
    LinkFailed,
}

/// Why a line is refused, with the value that is printed after the name.
#[derive(Clone, Copy, PartialEq, Eq)]
pub enum Refusal {
    /// The node is not joined.
    NotJoined,
    /// The host has no class list of the node.
    NotInterviewed,
    /// The node's list lacks this class, which is printed in hex.
    Unsupported { class: u8 },
    /// The node's classes have no such value.
    BadValue,
    /// The node does not list Supervision.
    Unsupervised,
    /// The message has so many bytes.
    TooLong { bytes: u16 },
    /// So many commands wait for the node.
    MailboxFull { waiting: u8 },
    /// The node has so many properties.
    StoreFull { properties: u16 },
    /// The node lists Security 0.
    Secured,
    /// So many requests wait.
    QueueFull { waiting: u8 },
    /// The node is joined.
    AlreadyJoined,
    /// The keeper of records failed.
    KeeperFault,
    /// That command does not wait.
    NotWaiting { command: u32 },
    /// No such frame was sent.
    NeverSent,
    /// The frame is too long ago to be known.
    Forgotten,
    /// So much came after the frame.
    Stale { later: u64 },
    /// There is no device of that node.
    NoDevice,
    /// The record of that place is bad.
    BadRecord { place: u64 },
}

/// An entry of a transcript, which is one line of its text (this project's own). Ticks are of 100 ms.
#[derive(Drop)]
pub enum Entry {
    /// `> WORDS`: the line that is run, its words as they came with one space between two.
    Said {
        words: Bytes,
    },
    /// `accepted I node N`: the line's command has this number.
    Accepted {
        command: u32,
        node: NodeId,
    },
    /// `refused NAME` or `refused NAME X`: the line is not done.
    Refused {
        refusal: Refusal,
    },
    /// `begin N S I`: session S of the node carries command I.
    Begin {
        node: NodeId,
        session: u64,
        command: u32,
    },
    /// `h HEX` or `c HEX`: a unit that a side wrote.
    Written {
        side: Side,
        unit: Bytes,
    },
    /// `dropped S`: the unit just before was lost.
    Dropped {
        side: Side,
    },
    /// `garbled S HEX`: the unit just before was changed to this.
    Garbled {
        side: Side,
        unit: Bytes,
    },
    /// `overrun S`: the unit just before did not fit its pipe.
    Overrun {
        side: Side,
    },
    /// `air I A>B via R HEX`: the frame goes on the air, over the repeaters.
    Air {
        frame: u64,
        sender: NodeId,
        receiver: NodeId,
        repeaters: Sequence<NodeId>,
        payload: Payload,
    },
    /// `heard I`: the frame was heard by its receiver.
    Heard {
        frame: u64,
    },
    /// `lost I`: the frame was lost.
    Lost {
        frame: u64,
    },
    /// `unheard I`: the frame was not lost, and its receiver did not hear it.
    Unheard {
        frame: u64,
    },
    /// `dev N BY P X`: a setting of a change of the device.
    Dev {
        node: NodeId,
        by: By,
        setting: Setting,
    },
    /// `forget A B`: a hop left the chip's table.
    Forget {
        first: NodeId,
        second: NodeId,
    },
    /// `out I WORD`: the command ended so.
    Out {
        command: u32,
        ended: Ended,
    },
    /// `store N P X`: the value is confirmed.
    Store {
        node: NodeId,
        setting: Setting,
    },
    /// `report N P X`: the value was heard.
    Report {
        node: NodeId,
        setting: Setting,
    },
    /// `unstored N P`: there was no room for what was heard.
    Unstored {
        node: NodeId,
        property: Property,
    },
    /// `old N ID`: a Supervision Report with this id was not for the begun session.
    Old {
        node: NodeId,
        id: u8,
    },
    /// `unread N HEX`: a payload of the node was not read.
    Unread {
        node: NodeId,
        payload: Bytes,
    },
    /// `awake N`: the host takes the node to be awake.
    Awake {
        node: NodeId,
    },
    /// `asleep N`: the host takes the node to be asleep.
    Asleep {
        node: NodeId,
    },
    /// `interviewed N`: the host knows the node's classes.
    Interviewed {
        node: NodeId,
    },
    /// `interview N failed`: what the host knew of the node stays.
    InterviewFailed {
        node: NodeId,
    },
    /// `done N WORD`: the request of a `send` or `get` ended so.
    Done {
        node: NodeId,
        done: Done,
    },
    /// `neighbours N LIST`: the neighbours that the chip knows of the node.
    Neighbours {
        node: NodeId,
        list: Sequence<NodeId>,
    },
    /// `failed N yes` or `failed N no`: whether the chip takes the node to have failed.
    Failed {
        node: NodeId,
        failed: bool,
    },
    /// `chipfull`: the chip dropped a frame for the host.
    ChipFull,
    /// `queuefull N`: the host dropped a message to the node.
    QueueFull {
        node: NodeId,
    },
    /// `device N P X`: what the device keeps of a property.
    Device {
        node: NodeId,
        setting: Setting,
    },
    /// `json TEXT`: the stored values of a node.
    Json {
        text: Bytes,
    },
    /// `held N`: the host keeps the node awake.
    Held {
        node: NodeId,
    },
    /// `cleared S K`: a restart lost so many bytes in the pipe of that side.
    Cleared {
        side: Side,
        bytes: u64,
    },
    /// `unkept N`: the keeper failed, and something of the node was not done.
    Unkept {
        node: NodeId,
    },
    /// `t T`: what follows comes in this tick, counted from 1.
    Time {
        tick: u64,
    },
    /// `end T`: the run ended after so many ticks.
    TableEnd {
        ticks: u64,
    },
    /// `node N sessions LIST`: the commands of the node's sessions, in their order.
    TableNode {
        node: NodeId,
        sessions: Sequence<u32>,
    },
    /// `value N P confirmed X heard X`: what the host keeps of a property.
    TableValue {
        node: NodeId,
        property: Property,
        confirmed: Option<u32>,
        heard: Option<u32>,
    },
    /// `badline K NAME`: the line of this number, from 1 on, is invalid.
    BadLine {
        line: u32,
        fault: LineFault,
    },
}
