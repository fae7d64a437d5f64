// Virtual addresses, physical addresses and frame numbers, kept apart, with the named sums of them.
#![tactic(auto)]

ghost use Rattle.std.specs.Prelude.{◌≡◌, ◌/◌, ◌%◌, ◌^◌};
ghost use Rattle.address.specs.Address as spec;

use std::num::wrapping_add_u64;

// An address that a program uses.
#[derive(Clone, Copy)]
pub struct VirtAddr(pub u64);

// An address of guest memory.
#[derive(Clone, Copy)]
pub struct PhysAddr(pub u64);

// The number of a 4 KiB frame of guest memory.
#[repr(C)]
#[derive(Clone, Copy)]
pub struct Frame(pub u64);

// The entries in a table, and so the pages of a level in one of the next.
const ENTRIES_IN_A_TABLE: u64 = 512;

// The bytes of a page of each level: 4 KiB at level 1, 2 MiB at 2, 1 GiB at 3, and so on.
const PAGE_OF_LEVEL_0: u64 = 8;

const PAGE_OF_LEVEL_1: u64 = 4096;

const PAGE_OF_LEVEL_2: u64 = PAGE_OF_LEVEL_1 * ENTRIES_IN_A_TABLE;

const PAGE_OF_LEVEL_3: u64 = PAGE_OF_LEVEL_2 * ENTRIES_IN_A_TABLE;

const PAGE_OF_LEVEL_4: u64 = PAGE_OF_LEVEL_3 * ENTRIES_IN_A_TABLE;

const PAGE_OF_LEVEL_5: u64 = PAGE_OF_LEVEL_4 * ENTRIES_IN_A_TABLE;

const PAGE_OF_LEVEL_6: u64 = PAGE_OF_LEVEL_5 * ENTRIES_IN_A_TABLE;

impl VirtAddr {
    // Whether bits 63 to 47 are equal.
    pub fn canonical(self) -> bool
        ensures { result ≡ spec.canonical self }
    {
        let top = self.0 >> 47;
        (top == 0) | (top == 0x1ffff)
    }

    // The pages of a level before this address, and what is left after them; each level has a line, for a divisor known only at run time is a real division.
    fn split(self, level: u64) -> (u64, u64)
        ensures pages { result.0 ≡ self.0 / 2 ^ spec.page_bits level }
        ensures offset { result.1 ≡ self.0 % 2 ^ spec.page_bits level }
    {
        match level {
            0 => (self.0 / PAGE_OF_LEVEL_0, self.0 % PAGE_OF_LEVEL_0),
            1 => (self.0 / PAGE_OF_LEVEL_1, self.0 % PAGE_OF_LEVEL_1),
            2 => (self.0 / PAGE_OF_LEVEL_2, self.0 % PAGE_OF_LEVEL_2),
            3 => (self.0 / PAGE_OF_LEVEL_3, self.0 % PAGE_OF_LEVEL_3),
            4 => (self.0 / PAGE_OF_LEVEL_4, self.0 % PAGE_OF_LEVEL_4),
            5 => (self.0 / PAGE_OF_LEVEL_5, self.0 % PAGE_OF_LEVEL_5),
            6 => (self.0 / PAGE_OF_LEVEL_6, self.0 % PAGE_OF_LEVEL_6),
            _ => (0, self.0),
        }
    }

    // The index into the table of a level: the pages of that level before this address, counted within one table.
    pub fn index(self, level: u64) -> u64
        ensures { result ≡ spec.index self level }
    {
        self.split(level).0 % ENTRIES_IN_A_TABLE
    }

    // The offset in a page of a size: what is left of this address after whole pages.
    pub fn offset(self, size: u64) -> u64
        ensures { result ≡ spec.offset self size }
    {
        self.split(size).1
    }

    // The tag of the page: the 4 KiB pages before this address.
    pub fn tag(self) -> u64
        ensures { result ≡ spec.tag self }
    {
        self.0 / PAGE_OF_LEVEL_1
    }
}

impl PhysAddr {
    // The address of an entry of the table at this base.
    pub fn entry(self, index: u64) -> PhysAddr
        ensures { result ≡ spec.entry_address self index }
    {
        PhysAddr(wrapping_add_u64(self.0, index % 0x2000_0000_0000_0000 * 8))
    }

    // The address at an offset from this base.
    pub fn plus(self, offset: u64) -> PhysAddr
        ensures { result ≡ spec.plus self offset }
    {
        PhysAddr(wrapping_add_u64(self.0, offset))
    }

    // The frame that holds this address.
    pub fn frame(self) -> Frame
        ensures { result ≡ spec.frame_of self }
    {
        Frame(self.0 >> 12)
    }
}

impl Frame {
    // The address at an offset in this frame.
    pub fn at(self, offset: u64) -> PhysAddr
        ensures { result ≡ spec.in_frame self offset }
    {
        PhysAddr(self.0 % 0x10_0000_0000_0000 * 4096 + offset % 4096)
    }
}
