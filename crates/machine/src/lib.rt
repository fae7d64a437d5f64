// The machine: settings and cache together, and every call of it by value over lent memory.
#![tactic(auto)]

use address::VirtAddr;
use cache::Cache;
use settings::Settings;
use walk::{Answer, Way};

pub mod calls;
mod remember;
pub mod translate;

// Settings and what is remembered.
#[repr(C)]
#[derive(Clone, Copy)]
pub struct Machine {
    pub settings: Settings,
    pub cache: Cache,
}

// A call, its numbers one by one as a card or the host brings them, for Demand1 and Demand3 speak of calls so: a translation (address, access, mode), a store (address, value), the loads (CR3; CR0, CR4, EFER, M), the drops, INVPCID (kind, space number, address).
#[derive(Clone, Copy)]
pub enum Call {
    Translate(VirtAddr, u64, u64),
    Store(u64, u64),
    LoadRoot(u64),
    LoadSettings(u64, u64, u64, u64),
    DropPage(VirtAddr),
    DropAll,
    Invpcid(u64, u64, VirtAddr),
}

// What a call gives beside memory: what it answers, and the machine afterwards.
#[derive(Clone, Copy)]
pub struct Stepped<T> {
    pub answer: T,
    pub machine: Machine,
}

// What a translation finds before it walks: its answer, a refusal too, or that it has to walk; std's Break and Continue would say less.
#[derive(Clone, Copy)]
pub enum Probed {
    Answered(Answer),
    Walk(Way),
}
