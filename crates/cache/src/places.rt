// One place: when it counts as filled, and what each drop, fill and lookup asks of it.
ghost use Rattle.std.specs.Prelude.{◌≡◌};
ghost use Rattle.cache.specs.Places as spec;

use crate::{Cache, Drop, Place, Wanted};
use address::Frame;

// The 4 KiB pieces of a large page.
const PIECES_OF_2_MIB: u64 = 512;

const PIECES_OF_1_GIB: u64 = 262144;

impl Place {
    // The flags: combined R/W, U/S and fetch rights, D, G, and that the place is marked.
    pub const WRITE: u8 = 1;

    pub const USER: u8 = 2;

    pub const FETCH: u8 = 4;

    pub const DIRTY: u8 = 8;

    pub const GLOBAL: u8 = 16;

    pub const MARKED: u8 = 32;

    // The place of all zeros.
    pub fn empty() -> Place
        ensures { result ≡ spec.zero_place }
    {
        Place {
            tag: 0,
            frame: Frame(0),
            size: 0,
            flags: 0,
            memory_type: 0,
            number: 0,
        }
    }

    // Whether the place counts as filled in a set.
    #[tactic(auto, unfolding(crate::specs::Places::filled_in))]
    pub fn filled_in(self, set: u64) -> bool
        ensures { result ≡ spec.filled_in set self }
    {
        let own = Cache::set_of(self.tag);
        let tag = (self.tag < 0x10_0000_0000_0000) & (own == set);
        let size = matches!(self.size, 1..=3);
        let page = size & ((self.memory_type < 8) & (self.number <= 4095));
        (self.flags / Place::MARKED % 2 == 1) & (tag & ((self.frame.0 < 0x100_0000_0000) & page))
    }

    // Whether the place's own page, at its own size, contains the page of a tag.
    fn covers(self, tag: u64) -> bool
        ensures { result ≡ spec.covers (spec.key_of self) tag }
    {
        match self.size {
            2 => self.tag / PIECES_OF_2_MIB == tag / PIECES_OF_2_MIB,
            3 => self.tag / PIECES_OF_1_GIB == tag / PIECES_OF_1_GIB,
            _ => self.tag == tag,
        }
    }

    // Whether the place is G.
    fn global(self) -> bool
        ensures { result ≡ spec.has_g self }
    {
        self.flags / Place::GLOBAL % 2 == 1
    }

    // Whether the place is G or of a space number.
    fn mine(self, number: u16) -> bool
        ensures { result ≡ spec.mine number (spec.key_of self) }
    {
        self.number == number || self.global()
    }

    // Whether the place is of a space number, and not G.
    fn mine_alone(self, number: u16) -> bool
        ensures { result ≡ spec.mine_alone number (spec.key_of self) }
    {
        self.number == number && !self.global()
    }

    // Whether a drop takes the place.
    #[tactic(auto, unfolding(crate::specs::Places::takes))]
    fn taken_by(self, drop: Drop) -> bool
        ensures { result ≡ spec.takes drop (spec.key_of self) }
    {
        match drop {
            Drop::Page(tag, number) => self.covers(tag) && self.mine(number),
            Drop::Piece(tag, number) => self.covers(tag) && self.mine_alone(number),
            Drop::Number(number) => self.mine_alone(number),
            Drop::Local => !self.global(),
            Drop::All => true,
            Drop::Nothing => false,
        }
    }

    // Whether a drop leaves the place.
    pub fn left_by(self, drop: Drop) -> bool
        ensures { result ≡ spec.left drop self }
    {
        !self.taken_by(drop)
    }

    // Whether a fill of a new place leaves this one.
    #[tactic(auto, unfolding(crate::specs::Places::spares, crate::specs::Places::other_tag))]
    pub fn spared_by(self, new: Place) -> bool
        ensures { result ≡ spec.spares new self }
    {
        self.tag != new.tag || !new.global() && !self.mine(new.number)
    }

    // Whether the place has all that a translation wants.
    #[tactic(auto, unfolding(crate::specs::Places::serves))]
    pub fn serves(self, wanted: Wanted) -> bool
        ensures { result ≡ spec.serves wanted self }
    {
        self.tag == wanted.tag
            && wanted.flags & self.flags == wanted.flags
            && self.mine(wanted.number)
    }
}
