// "Entry bits: P 0, R/W 1, U/S 2, A 5, D 6, PS 7, G 8, XD 63"; "PWT (bit 3), PCD (bit 4) and PAT (bit 7 at level 1, bit 12 of a large page)".

pub const P: u64 = 0;

pub const RW: u64 = 1;

pub const PWT: u64 = 3;

pub const PCD: u64 = 4;

pub const A: u64 = 5;

pub const D: u64 = 6;

pub const PS: u64 = 7;

pub const PAT: u64 = 7;

pub const G: u64 = 8;

pub const PAT_OF_LARGE: u64 = 12;

pub const XD: u64 = 63;
