// What is wanted of a place, what a walk leaves in one, and what a hit is answered.
ghost use Rattle.std.specs.Prelude.{◌≡◌, ◌≤◌};
ghost use Rattle.entry.specs.Rights.{number};
ghost use Rattle.machine.specs.Remember as spec;

use address::VirtAddr;
use cache::{Place, Wanted};
use entry::bits::{D, G};
use walk::{Answer, Mapping, Question, Translation};
use word::bits::bit;

// The bits of rights as a number.
const WRITE: u64 = 0;

const USER: u64 = 1;

const FETCH: u64 = 2;

// The size of a page of 4 KiB.
const FOUR_KIB: u64 = 1;

// Rights and D as flags.
fn flags(write: bool, user: bool, fetch: bool, dirty: bool) -> u8
    ensures are { result ≡ spec.with_dirty (number write user fetch) dirty }
    ensures below { result ≤ 15 }
{
    let rights = Place::USER * u8::from(user) + Place::FETCH * u8::from(fetch);
    Place::WRITE * u8::from(write) + rights + Place::DIRTY * u8::from(dirty)
}

// What a question wants of a place.
pub(crate) fn wanted(question: Question) -> Wanted
    ensures { result ≡ spec.wanted question.settings question.address question.way }
{
    let way = question.way;
    Wanted {
        tag: question.address.tag(),
        flags: flags(
            question.needs_write(),
            way.user,
            way.fetches(),
            way.writes(),
        ),
        number: question.settings.space_number(),
    }
}

// The place that a successful walk leaves.
pub(crate) fn place_of(question: Question, found: Mapping) -> Place
    ensures { result ≡ spec.place_of question.settings question.address question.way found }
{
    let address = question.address;
    let level = u64::from(found.size);
    let physical = found.base.plus(address.offset(level));
    let global = bit(found.last, G);
    let pge = question.settings.pge();
    let dirty = bit(found.last, D);
    let rights = flags(
        bit(found.rights, WRITE),
        bit(found.rights, USER),
        bit(found.rights, FETCH),
        dirty | question.way.writes(),
    );
    Place {
        tag: address.tag(),
        frame: physical.frame(),
        size: found.size,
        memory_type: found.last_entry().memory_type(),
        number: question.settings.space_number(),
        flags: rights + Place::GLOBAL * u8::from(global & pge) + Place::MARKED,
    }
}

// What a hit is answered.
pub(crate) fn hit(address: VirtAddr, place: Place) -> Answer
    ensures { result ≡ spec.hit address place }
{
    let offset = address.offset(FOUR_KIB);
    Ok(Translation {
        address: place.frame.at(offset),
        size: u64::from(place.size),
        memory_type: u64::from(place.memory_type),
        reads: 0,
    })
}
