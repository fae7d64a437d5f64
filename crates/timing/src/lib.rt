// A loop of remembered translations, for the speed command alone: the steps of Machine::translate, over a cache in a local.
#![tactic(auto)]

use address::VirtAddr;
use cache::Cache;
use machine::Probed;
use machine::translate::{fill, page_drop, probe};
use settings::Settings;
use walk::{Answer, Numbers, Question};
use word::bytes::load64;

// The value of an answer, put to a sum so that no call is left out.
fn sum(before: u64, answer: Answer) -> u64 {
    before ^ Numbers::from(answer).value
}

// The address at a place of the list.
fn address_at(addresses: &[u8], at: usize) -> VirtAddr {
    VirtAddr(load64(addresses, at).unwrap_or(0))
}

// Translates the addresses of a list of 64, one after the other and over again as the loop that it is timed beside does, on one machine; gives the values' sum.
#[unsafe(no_mangle)]
pub extern "C" fn timing_translations(
    cr0: u64,
    cr3: u64,
    cr4: u64,
    efer: u64,
    width: u64,
    access: u64,
    mode: u64,
    turns: u64,
    addresses: &[u8],
    memory: &mut [u8],
) -> u64 {
    let settings = Settings {
        cr0,
        cr3,
        cr4,
        efer,
        width,
    };
    let mut cache = Cache::empty();
    let mut values: u64 = 0;
    for n in 0..turns {
        let address = address_at(addresses, (n % 64 * 8) as usize);
        let index = Cache::set_of(address.tag()) as usize;
        let set = cache.sets[index];
        match probe(settings, set, address, access, mode) {
            Probed::Answered(answer) => values = sum(values, answer),
            Probed::Walk(way) => {
                let question = Question {
                    settings,
                    address,
                    way,
                };
                let walked = question.walk(memory);
                values = sum(values, question.answer(walked));
                match walked {
                    Ok(found) => cache.sets[index] = fill(question, cache.sets[index], found),
                    Err(_) => cache = cache.drop(page_drop(settings, address)),
                }
            }
        }
    }
    values
}
