// One card's step in place that first looks in the set of the card's page: a hit stores nothing.
ghost use Rattle.std.specs.Prelude.{◌≡◌};
ghost use Rattle.card.specs.Card as stepping;
ghost use Rattle.card.specs.Probe as spec;

use crate::decode::decode;
use crate::lent;
use cache::Cache;
use machine::translate::probe;
use machine::{Call, Machine, Probed};
use walk::Numbers;

// The numbers of a call that the set of its page answers, with nothing changed.
fn look(machine: &Machine, call: Call) -> Option<Numbers>
    ensures { result ≡ spec.seen machine.now call }
{
    let Call::Translate(address, access, mode) = call else {
        return None;
    };
    let set = machine.cache.sets[Cache::set_of(address.tag()) as usize];
    match probe(machine.settings, set, address, access, mode) {
        Probed::Answered(answer) => Some(Numbers::from(answer)),
        Probed::Walk(_) => None,
    }
}

// One card's step: where the set of the card's page answers it, nothing is stored; else the record is stepped whole.
#[tactic(auto, using(crate::proofs::Probing::seen_turned), unfolding(crate::specs::Card::stepped))]
pub fn step(machine: &mut Machine, memory: &mut [u8], card: &[u8]) -> Numbers
    ensures { stepping.Gives machine.old memory.old card.now
        result machine.new memory.new }
{
    if let Some(answer) = decode(card).ok().and_then(|call| look(machine, call)) {
        return answer;
    }
    lent::step(machine, memory, card)
}
