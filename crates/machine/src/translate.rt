// A translation: the set of the page is probed, and only where it has to walk does what is remembered change.
ghost use Rattle.std.specs.Prelude.{◌≡◌};
ghost use Rattle.address.specs.Address.{tag};
ghost use Rattle.cache.specs.Places.{set_index};
ghost use Rattle.cache.specs.Sets.{fill_set, find_in};
ghost use Rattle.machine.specs.Calls as spec;
ghost use Rattle.machine.specs.Probe.{probed, probed_found};
ghost use Rattle.machine.specs.Remember.{page_drop, place_of, wanted};

use crate::remember::{hit, place_of, wanted};
use crate::{Machine, Probed, Stepped};
use address::VirtAddr;
use cache::{Cache, Drop, Set};
use settings::Settings;
use walk::translate::ask;
use walk::{Answer, Asked, Mapping, Question, Translation};

// What a drop of an address's page takes.
pub fn page_drop(settings: Settings, address: VirtAddr) -> Drop
    ensures { result ≡ page_drop settings address }
{
    Drop::Page(address.tag(), settings.space_number())
}

// What a question finds in the page's set before it walks.
fn look(question: Question, set: Set) -> Probed
    ensures { result ≡ probed_found question.address question.way
        (find_in (set_index (tag question.address)) (wanted question.settings question.address question.way) set) }
{
    match set.find(Cache::set_of(question.address.tag()), wanted(question)) {
        Some(place) => Probed::Answered(hit(question.address, place)),
        None => Probed::Walk(question.way),
    }
}

// What a translation finds in the page's set before it walks.
#[tactic(auto, unfolding(crate::specs::Probe::probed))]
pub fn probe(settings: Settings, set: Set, address: VirtAddr, access: u64, mode: u64) -> Probed
    ensures { result ≡ probed settings set address access mode }
{
    match ask(settings, address, access, mode) {
        Err(why) => Probed::Answered(Err(why)),
        Ok(Asked::Off(at)) => Probed::Answered(Ok(Translation::unpaged(at))),
        Ok(Asked::On(way)) => {
            let question = Question {
                settings,
                address,
                way,
            };
            look(question, set)
        }
    }
}

// The page's set after a walk that found it.
pub fn fill(question: Question, set: Set, found: Mapping) -> Set
    ensures { result ≡ fill_set (set_index (tag question.address))
        (place_of question.settings question.address question.way found) set }
{
    set.fill(
        Cache::set_of(question.address.tag()),
        place_of(question, found),
    )
}

impl Machine {
    // A translation on the machine: a hit stores nothing, a walk that finds the page its own set, and a refused one drops the page from every set.
    #[tactic(auto, unfolding(crate::specs::Calls::translated, cache::specs::Whole::fill_cache))]
    pub fn translate(
        self,
        address: VirtAddr,
        access: u64,
        mode: u64,
        memory: &mut [u8],
    ) -> Stepped<Answer>
        ensures { spec.Gives (spec.translated self memory.old address access mode) result memory.new }
    {
        let settings = self.settings;
        let mut cache = self.cache;
        let index = Cache::set_of(address.tag()) as usize;
        let set = cache.sets[index];
        match probe(settings, set, address, access, mode) {
            Probed::Answered(answer) => Stepped {
                answer,
                machine: self,
            },
            Probed::Walk(way) => {
                let question = Question {
                    settings,
                    address,
                    way,
                };
                let walked = question.walk(memory);
                let answer = question.answer(walked);
                match walked {
                    Ok(found) => cache.sets[index] = fill(question, set, found),
                    Err(_) => cache = cache.drop(page_drop(settings, address)),
                }
                Stepped {
                    answer,
                    machine: Machine { settings, cache },
                }
            }
        }
    }
}
