//! HTCP opcodes and response codes (RFC 2756).

/// Opcode: no operation, a ping.
pub const NOP: u8 = 0;

/// Opcode: test whether an object is in the cache.
pub const TST: u8 = 1;

/// Opcode: monitor changes of the cache.
pub const MON: u8 = 2;

/// Opcode: set the headers of an object.
pub const SET: u8 = 3;

/// Opcode: clear an object from the cache.
pub const CLR: u8 = 4;

/// Response to TST: the object is in the cache.
pub const FOUND: u8 = 0;

/// Response to TST: the object is not in the cache.
pub const NOT_FOUND: u8 = 1;

/// Response to any opcode, with MO (F1) set: authentication was not used, but is required.
pub const AUTHENTICATION_REQUIRED: u8 = 0;

/// Response to any opcode, with MO (F1) set: authentication was used, but is not satisfactory.
pub const AUTHENTICATION_FAILED: u8 = 1;

/// Response to any opcode, with MO (F1) set: the opcode is not implemented.
pub const NOT_IMPLEMENTED: u8 = 2;

/// Response to any opcode, with MO (F1) set: the major version is not supported.
pub const MAJOR_NOT_SUPPORTED: u8 = 3;

/// Response to any opcode, with MO (F1) set: the minor version is not supported.
pub const MINOR_NOT_SUPPORTED: u8 = 4;

/// Response to any opcode, with MO (F1) set: the opcode is not allowed to the requester.
pub const NOT_ALLOWED: u8 = 5;
