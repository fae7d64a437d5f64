// What an entry says at its level.
ghost use Rattle.std.specs.Prelude.{◌≡◌, not, ◌-◌, ◌^◌, ◌≤◌, eqb};
ghost use Rattle.word.specs.Bits.{field};
ghost use Rattle.address.specs.Address.{page_bits};
ghost use Rattle.entry.specs.Masks as masks;
ghost use Rattle.entry.specs.Says as spec;

use crate::bits::{P, PS, XD};
use crate::{Entry, Says};
use address::PhysAddr;
use word::bits::bit;

// The highest level at which a page can end.
const LARGEST: u64 = 3;

// Bits 51 to M, as a mask.
fn above_width(width: u64) -> u64
    ensures mask { result ≡ 2 ^ 52 - 2 ^ width }
    ensures within { result ≤ 2 ^ 52 }
{
    if 52 <= width {
        return 0;
    }
    0x10_0000_0000_0000 - (1 << width)
}

// The bits that are reserved in every entry: 51 to M, and 63 without NXE; of the settings an entry asks no more than these two.
pub fn forbidden(width: u64, nxe: bool) -> u64
    ensures { result ≡ masks.forbidden width nxe }
{
    let above = above_width(width);
    if nxe {
        return above;
    }
    above + (1 << XD)
}

impl Entry {
    // The next table's base.
    fn table_base(self) -> PhysAddr
        ensures { result ≡ spec.table_base self.value }
    {
        PhysAddr(self.value & 0xf_ffff_ffff_f000)
    }

    // The base of the page that ends here.
    fn page_base(self) -> PhysAddr
        requires { self.level ≤ 3 }
        ensures { result ≡ spec.page_base self.level self.value }
    {
        PhysAddr(self.value & (0x10_0000_0000_0000 - (1 << (3 + 9 * self.level))))
    }

    // Whether a large page has a bit set between bit 12 and its base.
    fn inside_page(self) -> bool
        requires large { 2 ≤ self.level }
        requires page { self.level ≤ 3 }
        ensures { result ≡ not (eqb (field self.value 13 (page_bits self.level - 13)) 0) }
    {
        self.value & ((1 << (3 + 9 * self.level)) - 8192) != 0
    }

    // What the entry says, given the bits reserved in every entry.
    pub fn under(self, forbidden: u64) -> Says
        ensures { result ≡ masks.under forbidden self.level self.value }
    {
        if !bit(self.value, P) {
            return Says::Missing;
        }
        if self.value & forbidden != 0 {
            return Says::Reserved;
        }
        if self.level <= 1 {
            return Says::Page(self.page_base());
        }
        if !bit(self.value, PS) {
            return Says::Table(self.table_base());
        }
        if LARGEST < self.level || self.inside_page() {
            return Says::Reserved;
        }
        Says::Page(self.page_base())
    }

    // What the entry says, given the width and NXE.
    #[tactic(auto, using(crate::proofs::Masks::under_says))]
    pub fn says(self, width: u64, nxe: bool) -> Says
        ensures { result ≡ spec.says width nxe self.level self.value }
    {
        self.under(forbidden(width, nxe))
    }
}
