// The node kinds of a table.
pub const IDLE: u8 = 0;

pub const TICK: u8 = 1;

pub const SET_ATTRIBUTE: u8 = 2;

pub const SET_STIGMERGY: u8 = 3;

pub const SET_ENVIRONMENT: u8 = 4;

pub const SEQUENCE: u8 = 5;

pub const CHOICE: u8 = 6;

pub const GUARDED: u8 = 7;

pub const PARALLEL: u8 = 8;

pub const CALL: u8 = 9;

pub const TRUE: u8 = 16;

pub const EQUAL: u8 = 17;

pub const LESS: u8 = 18;

pub const GREATER: u8 = 19;

pub const NOT: u8 = 20;

pub const AND: u8 = 21;

pub const OR: u8 = 22;

pub const CONSTANT: u8 = 32;

pub const ATTRIBUTE: u8 = 33;

pub const STIGMERGY: u8 = 34;

pub const ENVIRONMENT: u8 = 35;

pub const PLUS: u8 = 36;

pub const MINUS: u8 = 37;

pub const TIMES: u8 = 38;

pub const DIVIDE: u8 = 39;

pub const REMAINDER: u8 = 40;

pub const ROOT: u8 = 64;
