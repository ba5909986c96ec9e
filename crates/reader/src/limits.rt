// How many bytes a pattern's text may have.
pub const MAX_TEXT: usize = 1024;

// How many nodes a pattern may have, and how many node records a caller must lend.
pub const MAX_NODES: usize = 255;

// How many positions a pattern may have, and how many classes a caller must lend.
pub const MAX_POSITIONS: usize = 63;

// How many groups may be open together, and how many group records a caller must lend.
pub const MAX_GROUPS: usize = 32;
