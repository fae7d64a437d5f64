// The settings record: control registers and physical width, its named bits, and what is served.
#![tactic(auto)]

ghost use Rattle.std.specs.Prelude.{◌≡◌};
ghost use Rattle.settings.specs.Settings as spec;

use address::PhysAddr;
use word::bits::{bit, field};

// CR0, CR3, CR4, EFER and the physical width M.
#[repr(C)]
#[derive(Clone, Copy)]
pub struct Settings {
    pub cr0: u64,
    pub cr3: u64,
    pub cr4: u64,
    pub efer: u64,
    pub width: u64,
}

// What is wrong with a settings record that is not served, and its number: the width, the root for it, paging on without PE, PAE or LME, an extension bit, address-space numbers.
#[derive(Clone, Copy)]
pub enum Unserved {
    Width = 2,
    Root = 8,
    Paging = 9,
    Extension = 10,
    Spaces = 11,
}

impl Unserved {
    // The number with which it is refused.
    pub fn number(self) -> u64
        ensures { result ≡ spec.number self }
    {
        self as u64
    }
}

impl Settings {
    // The bits used, by the chapter's names.
    pub const PE: u64 = 0;

    pub const WP: u64 = 16;

    pub const PG: u64 = 31;

    pub const PAE: u64 = 5;

    pub const PGE: u64 = 7;

    pub const PCIDE: u64 = 17;

    pub const LME: u64 = 8;

    pub const NXE: u64 = 11;

    // The record with all registers 0 and M = 40.
    pub fn initial() -> Settings
        ensures { result ≡ spec.initial }
    {
        Settings {
            cr0: 0,
            cr3: 0,
            cr4: 0,
            efer: 0,
            width: 40,
        }
    }

    // Whether paging is on.
    pub fn pg(self) -> bool
        ensures { result ≡ spec.pg self }
    {
        bit(self.cr0, Settings::PG)
    }

    // Whether supervisor writes heed R/W.
    pub fn wp(self) -> bool
        ensures { result ≡ spec.wp self }
    {
        bit(self.cr0, Settings::WP)
    }

    // Whether places keep G.
    pub fn pge(self) -> bool
        ensures { result ≡ spec.pge self }
    {
        bit(self.cr4, Settings::PGE)
    }

    // Whether XD forbids fetches.
    pub fn nxe(self) -> bool
        ensures { result ≡ spec.nxe self }
    {
        bit(self.efer, Settings::NXE)
    }

    // Whether address-space numbers are on.
    pub fn pcide(self) -> bool
        ensures { result ≡ spec.pcide self }
    {
        bit(self.cr4, Settings::PCIDE)
    }

    // The present space number.
    pub fn space_number(self) -> u16
        ensures { result ≡ spec.space_number self }
    {
        if self.pcide() {
            return (self.cr3 % 4096) as u16;
        }
        0
    }

    // The root: CR3 without its low 12 bits.
    pub fn root(self) -> PhysAddr
        ensures { result ≡ spec.root self }
    {
        PhysAddr(self.cr3 / 4096 * 4096)
    }

    // Whether M is from 32 to 52.
    fn width_served(self) -> bool
        ensures { result ≡ spec.width_served self }
    {
        matches!(self.width, 32..=52)
    }

    // Whether CR3 is below 2^M.
    fn root_served(self) -> bool
        ensures { result ≡ spec.root_served self }
    {
        let width = self.width;
        if 64 <= width {
            return true;
        }
        self.cr3 >> width == 0
    }

    // Whether PE, PAE and LME are set, as paging needs them; by & here and below, for && makes a walk slower (docs/DECISIONS.md).
    fn mode(self) -> bool
        ensures { result ≡ spec.mode self }
    {
        let pe = bit(self.cr0, Settings::PE);
        let pae = bit(self.cr4, Settings::PAE);
        let lme = bit(self.efer, Settings::LME);
        pe & (pae & lme)
    }

    // Whether CR4 bits 12 and 20 to 24 are clear, as paging needs them.
    fn extensions(self) -> bool
        ensures { result ≡ spec.extensions self }
    {
        let five_levels = bit(self.cr4, 12);
        let later = field(self.cr4, 20, 5);
        !five_levels & (later == 0)
    }

    // The first test that fails, in the order width, root, mode, extensions, space numbers.
    pub fn judge(self) -> Result<(), Unserved>
        ensures { result ≡ spec.judged self }
    {
        if !self.width_served() {
            return Err(Unserved::Width);
        }
        if !self.root_served() {
            return Err(Unserved::Root);
        }
        if !self.pg() {
            return self.judge_unpaged();
        }
        if !self.mode() {
            return Err(Unserved::Paging);
        }
        if !self.extensions() {
            return Err(Unserved::Extension);
        }
        Ok(())
    }

    // With paging off address-space numbers must be off too.
    fn judge_unpaged(self) -> Result<(), Unserved>
        ensures { result ≡ spec.judged_unpaged self }
    {
        if self.pcide() {
            return Err(Unserved::Spaces);
        }
        Ok(())
    }

    // Whether space numbers are on now and were off before, while CR3 bits 11:0 are not 0.
    fn turns_on_numbered(self, before: Settings) -> bool
        ensures { result ≡ spec.turns_on_numbered before self }
    {
        !before.pcide() && self.pcide() && self.cr3 % 4096 != 0
    }

    // What is answered of the settings that a load would leave, from those before it.
    pub fn judge_from(self, before: Settings) -> Result<(), Unserved>
        ensures { result ≡ spec.judged_from before self }
    {
        self.judge()?;
        if self.turns_on_numbered(before) {
            return Err(Unserved::Spaces);
        }
        Ok(())
    }
}
