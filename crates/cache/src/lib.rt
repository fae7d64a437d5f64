// The cache: 16 sets of four places, each a 4 KiB piece of a page; lookup, fill and drops, all by value.
#![tactic(auto)]

pub mod places;
pub mod sets;
pub mod whole;

use address::Frame;

// A remembered translation of one 4 KiB piece, as C lends it: size, flags and memory type are numbers, so that any bytes are a place.
#[repr(C)]
#[derive(Clone, Copy)]
pub struct Place {
    pub tag: u64,
    pub frame: Frame,
    pub size: u8,
    pub flags: u8,
    pub memory_type: u8,
    pub number: u16,
}

// Four places, the one filled last in front.
#[repr(C)]
#[derive(Clone, Copy)]
pub struct Set {
    pub places: [Place; 4],
}

// The sets, each at its number.
#[repr(C)]
#[derive(Clone, Copy)]
pub struct Cache {
    pub sets: [Set; 16],
}

// What a translation wants of a place: its tag, the flags that it must have, and the present space number.
#[derive(Clone, Copy)]
pub struct Wanted {
    pub tag: u64,
    pub flags: u8,
    pub number: u16,
}

// What a drop takes: each place whose own page contains a page, by its tag, of a space number and G, or of the number alone; a number's without G; all without G; all; none.
#[derive(Clone, Copy)]
pub enum Drop {
    Page(u64, u16),
    Piece(u64, u16),
    Number(u16),
    Local,
    All,
    Nothing,
}
