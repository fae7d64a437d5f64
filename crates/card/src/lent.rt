// One card's step in place, on a lent machine record.
ghost use Rattle.std.specs.Prelude.{◌≡◌};
ghost use Rattle.card.specs.Card as spec;

use crate::value;
use machine::Machine;
use walk::Numbers;

// One card's step: the record is taken apart, stepped by value, and stored.
pub fn step(machine: &mut Machine, memory: &mut [u8], card: &[u8]) -> Numbers
    ensures { spec.Gives machine.old memory.old card.now
        result machine.new memory.new }
{
    let stepped = value::step(*machine, memory, card);
    *machine = stepped.machine;
    stepped.answer
}
