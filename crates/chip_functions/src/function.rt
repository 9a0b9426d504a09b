//! The numbers of the functions (Serial API: Host Application Programming Guide).

pub const GET_INIT_DATA: u8 = 0x02;

pub const APPLICATION_COMMAND_HANDLER: u8 = 0x04;

pub const GET_CAPABILITIES: u8 = 0x07;

pub const SEND_DATA: u8 = 0x13;

pub const GET_VERSION: u8 = 0x15;

pub const SEND_DATA_ABORT: u8 = 0x16;

pub const MEMORY_GET_ID: u8 = 0x20;

pub const GET_NODE_PROTOCOL_INFO: u8 = 0x41;

pub const ADD_NODE: u8 = 0x4A;

pub const APPLICATION_UPDATE: u8 = 0x49;

pub const REQUEST_NODE_INFO: u8 = 0x60;

pub const IS_FAILED_NODE: u8 = 0x62;

pub const GET_ROUTING_INFO: u8 = 0x80;
