// One uncached translation: the tests in order, the walk, the answer.
ghost use Rattle.std.specs.Prelude.{◌≡◌};
ghost use Rattle.walk.specs.Access.{way_of};
ghost use Rattle.walk.specs.Translate as spec;
ghost use Rattle.walk.specs.declared.Refusal.TheVariants.{NotServed};

use crate::ways::way_of;
use crate::{Answer, Asked, Cause, Mapping, Question, Refusal, Translation, Unmapped, Walked, Way};
use address::{PhysAddr, VirtAddr};
use entry::Entry;
use settings::{Settings, Unserved};

// A refusal of the settings.
impl From<Unserved> for Refusal {
    ghost from_gives = { λ why r. r ≡ NotServed why };

    fn from(why: Unserved) -> Refusal {
        Refusal::NotServed(why)
    }
}

// What the tests 1, 2 and 3 find, in this order.
pub fn ask(settings: Settings, address: VirtAddr, access: u64, mode: u64) -> Result<Asked, Refusal>
    ensures { result ≡ spec.asked settings address access mode }
{
    if 2 < access || 1 < mode {
        return Err(Refusal::Unknown);
    }
    settings.judge()?;
    if settings.pg() {
        return ask_on(address, way_of(access, mode));
    }
    ask_off(address)
}

// Paging on: the address must be canonical.
fn ask_on(address: VirtAddr, way: Way) -> Result<Asked, Refusal>
    ensures { result ≡ spec.asked_on address way }
{
    if address.canonical() {
        return Ok(Asked::On(way));
    }
    Err(Refusal::Form)
}

// Paging off: an address below 2^32 is its own physical address.
fn ask_off(address: VirtAddr) -> Result<Asked, Refusal>
    ensures { result ≡ spec.asked_off address }
{
    let plain = address.0;
    if plain < 0x1_0000_0000 {
        return Ok(Asked::Off(PhysAddr(plain)));
    }
    Err(Refusal::Form)
}

// A number from the bits of an error code.
fn code_of(present: bool, write: bool, user: bool, reserved: bool, fetch: bool) -> u64
    ensures { result ≡ spec.code_of present write user reserved fetch }
{
    let high = 8 * u64::from(reserved) + 16 * u64::from(fetch);
    u64::from(present) + (2 * u64::from(write) + (4 * u64::from(user) + high))
}

impl Mapping {
    // The last entry, with the level of its table.
    pub fn last_entry(self) -> Entry
        ensures value { result.value ≡ self.last }
        ensures level { result.level ≡ self.size }
    {
        Entry {
            value: self.last,
            level: u64::from(self.size),
        }
    }
}

impl Cause {
    // The level that is reported.
    fn level(self) -> u64
        ensures { result ≡ spec.cause_level self }
    {
        match self {
            Cause::Missing(level) | Cause::Reserved(level) | Cause::Rights(level) => level,
        }
    }
}

impl Question {
    // The error code of a page fault.
    pub fn code(self, cause: Cause) -> u64
        ensures { result ≡ spec.code self.settings self.way cause }
    {
        let present = !matches!(cause, Cause::Missing(_));
        let reserved = matches!(cause, Cause::Reserved(_));
        code_of(
            present,
            self.way.writes(),
            self.way.user,
            reserved,
            self.needs_fetch(),
        )
    }

    // What a walk is answered.
    #[inline(always)]
    pub fn answer(self, walked: Walked) -> Answer
        ensures { result ≡ spec.answered self.settings self.address self.way walked }
    {
        match walked {
            Ok(found) => {
                let size = u64::from(found.size);
                Ok(Translation {
                    address: found.base.plus(self.address.offset(size)),
                    size,
                    memory_type: u64::from(found.last_entry().memory_type()),
                    reads: found.reads,
                })
            }
            Err(Unmapped::Refused(cause, reads)) => {
                Err(Refusal::Fault(self.code(cause), cause.level(), reads))
            }
            Err(Unmapped::Outside(at, level, reads)) => Err(Refusal::Outside(at, level, reads)),
        }
    }
}

impl Translation {
    // What is given where no page is found: an address, size and memory type 0, no entry read.
    pub fn unpaged(address: PhysAddr) -> Translation
        ensures { result ≡ spec.unpaged address }
    {
        Translation {
            address,
            size: 0,
            memory_type: 0,
            reads: 0,
        }
    }
}

// One uncached translation.
#[tactic(auto, unfolding(crate::specs::Translate::translated, crate::specs::Translate::translated_memory))]
pub fn translate(
    memory: &mut [u8],
    settings: Settings,
    address: VirtAddr,
    access: u64,
    mode: u64,
) -> Answer
    ensures { spec.IsTranslation settings address access mode memory.old result memory.new }
{
    match ask(settings, address, access, mode)? {
        Asked::Off(at) => Ok(Translation::unpaged(at)),
        Asked::On(way) => {
            let question = Question {
                settings,
                address,
                way,
            };
            let walked = question.walk(memory);
            question.answer(walked)
        }
    }
}
