// The host's entries: numbers, a lent machine, lent guest memory and a lent answer buffer.
// Registers and refusals are plain numbers, one by one, since C calls these functions.
#![tactic(auto)]

ghost use Rattle.std.specs.Prelude.{◌≡◌};
ghost use Rattle.machine.specs.Calls.{invalidated};
ghost use Rattle.aalbrett.specs.Host as spec;
ghost use Rattle.aalbrett.specs.Lent as after;

use crate::buffer::write;
use address::VirtAddr;
use card::probe::step;
use machine::Machine;
use settings::Settings;
use walk::Numbers;
use walk::translate::translate;

mod buffer;

// The number answered where the answer buffer is short.
const SHORT: u64 = 7;

// One uncached walk of guest memory: gives the answer's number, and writes its five numbers to the buffer.
#[unsafe(no_mangle)]
pub extern "C" fn aalbrett_walk(
    cr0: u64,
    cr3: u64,
    cr4: u64,
    efer: u64,
    width: u64,
    address: u64,
    access: u64,
    mode: u64,
    memory: &mut [u8],
    answer: &mut [u8],
) -> u64
    ensures { spec.Walks cr0 cr3 cr4 efer width address access mode memory.old answer.old
        result memory.new answer.new }
{
    if answer.len() < buffer::SIZE {
        return SHORT;
    }
    let settings = Settings {
        cr0,
        cr3,
        cr4,
        efer,
        width,
    };
    let found = translate(memory, settings, VirtAddr(address), access, mode);
    write(answer, Numbers::from(found))
}

// Starts a machine that the host lends: gives 0, or 2, 8, 9, 10 or 11 where the settings are not served.
#[unsafe(no_mangle)]
pub extern "C" fn aalbrett_start(
    machine: &mut Machine,
    cr0: u64,
    cr3: u64,
    cr4: u64,
    efer: u64,
    width: u64,
) -> u64
    ensures { after.Starts (spec.registers cr0 cr3 cr4 efer width) result machine.new }
{
    let begun = Machine::start(Settings {
        cr0,
        cr3,
        cr4,
        efer,
        width,
    });
    *machine = begun.machine;
    Numbers::from(begun.answer).answer
}

// One card's step on a machine that the host lends: gives the answer's number, and writes its five numbers to the buffer.
#[unsafe(no_mangle)]
pub extern "C" fn aalbrett_step(
    machine: &mut Machine,
    memory: &mut [u8],
    card: &[u8],
    answer: &mut [u8],
) -> u64
    ensures { after.Steps machine.old memory.old card.now answer.old
        result machine.new memory.new answer.new }
{
    if answer.len() < buffer::SIZE {
        return SHORT;
    }
    write(answer, step(machine, memory, card))
}

// INVPCID on a machine that the host lends: gives the answer's number, and writes its five numbers to the buffer.
#[unsafe(no_mangle)]
pub extern "C" fn aalbrett_invpcid(
    machine: &mut Machine,
    kind: u64,
    number: u64,
    address: u64,
    answer: &mut [u8],
) -> u64
    ensures { after.Calls machine.old (invalidated machine.old kind number (record { 0 = address }))
        answer.old result machine.new answer.new }
{
    if answer.len() < buffer::SIZE {
        return SHORT;
    }
    let stepped = machine.invpcid(kind, number, VirtAddr(address));
    *machine = stepped.machine;
    write(answer, Numbers::from(stepped.answer))
}
