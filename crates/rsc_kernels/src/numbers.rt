//! The numbers of the kernels, as the benchmark has them in `workloads.rs`.

// rsc_primitives
pub const WORD_BYTES: u32 = 1;

pub const DECODE: u32 = 2;

pub const DECODE_LAST: u32 = 3;

pub const CHAR_BOUNDARIES: u32 = 4;

pub const HAYSTACK_TEXT: u32 = 5;

pub const BYTE_TEXT: u32 = 6;

pub const SMALL_NEW: u32 = 7;

pub const PATTERN_ITER: u32 = 8;

// rsc_alphabet
pub const BYTE_CLASSES: u32 = 10;

pub const CLASSES_OF_RANGES: u32 = 11;

pub const CLASSES_OF: u32 = 12;

pub const MAP_GET: u32 = 13;

pub const MAP_ITER: u32 = 14;

pub const MAP_REPS: u32 = 15;

pub const MAP_ELEMS: u32 = 16;

pub const MAP_ELEMS_ALL: u32 = 17;

pub const BYTESET_CONTAINS: u32 = 18;

pub const BYTESET_ITER: u32 = 19;

pub const BYTESET_RANGES: u32 = 20;

// rsc_look
pub const LOOK_AT: u32 = 30;

pub const SET_AT: u32 = 31;

pub const LOOKSET_UNION: u32 = 32;

pub const LOOKSET_ITER: u32 = 33;

pub const HOLDING: u32 = 34;

// rsc_search
pub const PSET_FILL: u32 = 40;

pub const PSET_CLEAR: u32 = 41;

pub const PSET_AGAIN: u32 = 42;

pub const PSET_CONTAINS: u32 = 43;

pub const PSET_ITER: u32 = 44;

pub const PSET_ITER_BACK: u32 = 45;

pub const PSET_FILL_FIRST: u32 = 46;

pub const PSET_TRY: u32 = 47;

// rsc_captures
pub const GI_NEW: u32 = 50;

pub const GI_TO_INDEX: u32 = 51;

pub const GI_TO_NAME: u32 = 52;

pub const GI_SLOT: u32 = 53;

pub const GI_CLONE: u32 = 54;

pub const GI_ALL_NAMES: u32 = 55;

pub const GI_PATTERN_NAMES: u32 = 56;

pub const GI_REFUSED: u32 = 57;

pub const CAPS_ALL: u32 = 60;

pub const CAPS_GET: u32 = 61;

pub const CAPS_BY_NAME: u32 = 62;

pub const CAPS_ITER: u32 = 63;

pub const CAPS_EXTRACT: u32 = 64;

pub const CAPS_EXTRACT_BYTES: u32 = 65;

pub const CAPS_CLEAR: u32 = 66;

pub const CAPS_CLONE: u32 = 67;

pub const CAPS_SET_GROUP: u32 = 68;

pub const CAPS_SET_SLOTS: u32 = 69;

// what engines do
pub const SCAN: u32 = 70;

pub const STEPS: u32 = 71;

pub const PATTERN_CLASSES: u32 = 72;

pub const MATCH_CAPTURES: u32 = 73;

pub const MATCH_SETS: u32 = 74;
