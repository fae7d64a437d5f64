// One card's step by value.
ghost use Rattle.std.specs.Prelude.{◌≡◌};
ghost use Rattle.card.specs.Card as spec;

use crate::decode::decode;
use machine::{Machine, Stepped};
use walk::Numbers;

// One card's step.
#[tactic(auto, unfolding(crate::specs::Card::stepped))]
pub fn step(machine: Machine, memory: &mut [u8], card: &[u8]) -> Stepped<Numbers>
    ensures { spec.Gives machine memory.old card.now result.answer result.machine memory.new }
{
    match decode(card) {
        Ok(call) => {
            let stepped = machine.step(call, memory);
            Stepped {
                answer: Numbers::from(stepped.answer),
                machine: stepped.machine,
            }
        }
        Err(unread) => Stepped {
            answer: Numbers::refusal(unread.number()),
            machine,
        },
    }
}
