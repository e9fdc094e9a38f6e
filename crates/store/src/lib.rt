// A definition and a walk as bytes of a fixed layout, so that C keeps them between calls in buffers of its own.
// What comes back is read, not trusted: its layout's version stands first, and codes that stand for nothing are told.
#![tactic(auto)]

pub mod def;
pub mod state;

// The version of a definition's layout, and how many bytes it takes: bytes with another version are no definition.
pub const DEFINITION_VERSION: u64 = 2;

pub const DEFINITION: usize = 438;

// The same of a walk.
pub const STATE_VERSION: u64 = 1;

pub const STATE: usize = 600;
