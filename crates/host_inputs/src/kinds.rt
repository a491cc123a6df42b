//! The kinds of inputs, each the first byte of a content, which reading and writing share.

pub const BEGIN: u8 = 1;

pub const LEARN: u8 = 2;

pub const TICK: u8 = 3;

pub const PEER: u8 = 4;

pub const CLIENT: u8 = 5;

pub const JOIN: u8 = 6;

pub const ADMIT: u8 = 7;

pub const REMOVE: u8 = 8;

pub const SAVE: u8 = 9;

pub const ROLL: u8 = 10;

pub const LINK: u8 = 11;

pub const MARGIN: u8 = 12;
