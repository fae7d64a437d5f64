// The four-level walk, and one uncached translation.
#![tactic(auto)]

use address::{PhysAddr, VirtAddr};
use settings::{Settings, Unserved};

mod answers;
mod descend;
mod print;
pub mod translate;
pub mod walk;
pub mod ways;

// "Access is 0 read, 1 write, 2 fetch."
#[derive(Clone, Copy)]
pub enum Access {
    Read,
    Write,
    Fetch,
}

// The way in which memory is asked: the access, and whether the mode is user.
#[derive(Clone, Copy)]
pub struct Way {
    pub access: Access,
    pub user: bool,
}

// What is asked of a walk: under which settings, at which address and in which way.
#[derive(Clone, Copy)]
pub struct Question {
    pub settings: Settings,
    pub address: VirtAddr,
    pub way: Way,
}

// What a walk that succeeds finds: the page's base and size (its level, in a byte as a place holds it), its last entry as read, the rights of all entries and the entries read.
#[derive(Clone, Copy)]
pub struct Mapping {
    pub base: PhysAddr,
    pub size: u8,
    pub last: u64,
    pub rights: u64,
    pub reads: u64,
}

// Why a walk ends in a page fault, with the level to report.
#[derive(Clone, Copy)]
pub enum Cause {
    Missing(u64),
    Reserved(u64),
    Rights(u64),
}

// Why a walk finds no page: a page fault, or an entry outside memory, by its address and level; each tells the entries read last.
#[derive(Clone, Copy)]
pub enum Unmapped {
    Refused(Cause, u64),
    Outside(PhysAddr, u64, u64),
}

// How a walk ends.
pub type Walked = Result<Mapping, Unmapped>;

// What the tests before a walk find, where none refuses: the physical address with paging off, or the way of the walk.
#[derive(Clone, Copy)]
pub enum Asked {
    Off(PhysAddr),
    On(Way),
}

// What a translation gives: the physical address, the page's size and memory type index, and the entries read.
#[derive(Clone, Copy)]
pub struct Translation {
    pub address: PhysAddr,
    pub size: u64,
    pub memory_type: u64,
    pub reads: u64,
}

// Why a call is refused: an entry outside memory has its address and level, a fault its code and level, each with the entries read.
#[derive(Clone, Copy)]
pub enum Refusal {
    Unknown,
    NotServed(Unserved),
    Form,
    Outside(PhysAddr, u64, u64),
    Fault(u64, u64, u64),
    SpaceNumber,
}

// What a call is answered.
pub type Answer = Result<Translation, Refusal>;

// The five numbers of an answer.
#[derive(Clone, Copy)]
pub struct Numbers {
    pub answer: u64,
    pub value: u64,
    pub detail: u64,
    pub reads: u64,
    pub memory_type: u64,
}
