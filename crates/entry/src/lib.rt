// One table entry: reading it, what it says at its level, its rights, its memory type, marking it.
#![tactic(auto)]

pub mod bits;
pub mod mark;
pub mod meaning;
pub mod memory;
pub mod read;
pub mod rights;

use address::PhysAddr;

// An entry as it was read, with the level of its table.
#[derive(Clone, Copy)]
pub struct Entry {
    pub value: u64,
    pub level: u64,
}

// What an entry says at its level.
#[derive(Clone, Copy)]
pub enum Says {
    Missing,
    Reserved,
    Table(PhysAddr),
    Page(PhysAddr),
}
