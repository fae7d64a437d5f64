// The walk from a table down: the level falls from 4 to 1, entries are marked on the way back.
ghost use Rattle.std.specs.Prelude.{◌≡◌, ◌+◌, ◌≤◌, ◌^◌};
ghost use Rattle.walk.specs.Descent.{IsEnd, IsDescent, entry_at, higher};

use crate::{Cause, Mapping, Unmapped, Walked};
use address::{PhysAddr, VirtAddr};
use entry::mark::mark;
use entry::read::look;
use entry::rights::allow;
use entry::{Entry, Says};

// The number of levels.
pub(crate) const LEVELS: u64 = 4;

// What a walk seeks at each level: the page of an address, by the bits reserved in every entry, with the rights needed, to be written or not.
#[derive(Clone, Copy)]
pub(crate) struct Sought {
    pub address: VirtAddr,
    pub forbidden: u64,
    pub needed: u64,
    pub write: bool,
}

impl Unmapped {
    // The same with the level of an entry above in a rights fault, where that entry by itself lacks a needed right.
    fn above(self, needed: u64, own: u64, level: u64) -> Unmapped
        ensures { result ≡ higher needed own level self }
    {
        match self {
            Unmapped::Refused(Cause::Rights(lower), reads) => {
                let at = if allow(needed, own) { lower } else { level };
                Unmapped::Refused(Cause::Rights(at), reads)
            }
            other => other,
        }
    }
}

// The entry of a level in the table at a base, with its address; where it lies outside memory the walk ends.
fn read(
    memory: &[u8],
    base: PhysAddr,
    level: u64,
    address: VirtAddr,
) -> Result<(PhysAddr, u64), Unmapped>
    requires level { level ≤ 4 }
    requires fits { base.0 + 4096 ≤ 2 ^ 64 }
    ensures { result ≡ entry_at memory.now address level base }
{
    let index = address.index(level);
    let at = base.entry(index);
    let value = look(memory, base, index).ok_or(Unmapped::Outside(at, level, LEVELS - level))?;
    Ok((at, value))
}

// The end at a page: rights are judged, and on success the last entry is marked.
fn end(
    memory: &mut [u8],
    at: PhysAddr,
    entry: Entry,
    page: PhysAddr,
    sought: &Sought,
    held: u64,
) -> Walked
    requires { entry.level ≤ 4 }
    ensures { IsEnd sought.now held entry.level entry.value at page memory.old result memory.new }
{
    let own = entry.own();
    let rights = held & own;
    let reads = LEVELS + 1 - entry.level;
    if allow(sought.needed, rights) {
        mark(memory, at, sought.write);
        return Ok(Mapping {
            base: page,
            last: entry.value,
            rights,
            size: entry.level as u8,
            reads,
        });
    }
    let lacking = if allow(sought.needed, own) {
        0
    } else {
        entry.level
    };
    Err(Unmapped::Refused(Cause::Rights(lacking), reads))
}

// The walk from the table at a base. The level stays a number: a type from 1 to 4 would owe its bound anew at each fall.
pub(crate) fn descend(
    memory: &mut [u8],
    base: PhysAddr,
    level: u64,
    sought: &Sought,
    held: u64,
) -> Walked
    requires from { 1 ≤ level }
    requires to { level ≤ 4 }
    requires fits { base.0 + 4096 ≤ 2 ^ 64 }
    ensures { IsDescent sought.now held level base memory.old result memory.new }
{
    let (at, value) = read(memory, base, level, sought.address)?;
    let entry = Entry { value, level };
    let above = LEVELS - level;
    match entry.under(sought.forbidden) {
        Says::Missing => Err(Unmapped::Refused(Cause::Missing(level), above + 1)),
        Says::Reserved => Err(Unmapped::Refused(Cause::Reserved(level), above + 1)),
        Says::Page(page) => end(memory, at, entry, page, sought, held),
        Says::Table(table) => {
            let own = entry.own();
            match descend(memory, table, level - 1, sought, held & own) {
                Ok(found) => {
                    mark(memory, at, false);
                    Ok(found)
                }
                Err(unmapped) => Err(unmapped.above(sought.needed, own, level)),
            }
        }
    }
}
