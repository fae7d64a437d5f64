// The other calls (start, store, loads and drops), and one call of any kind.
ghost use Rattle.std.specs.Prelude.{◌≡◌, Err};
ghost use Rattle.machine.specs.Calls as spec;

use crate::translate::page_drop;
use crate::{Call, Machine, Stepped};
use address::{PhysAddr, VirtAddr};
use cache::{Cache, Drop};
use settings::Settings;
use walk::{Answer, Refusal, Translation};
use word::bits::bit;
use word::bytes::store64;

// The bit of a root load's value that keeps what is remembered.
const KEEP: u64 = 63;

// Done, where no translation was asked.
fn done() -> Answer
    ensures { result ≡ spec.done }
{
    Ok(Translation::unpaged(PhysAddr(0)))
}

// The CR3 that a root load leaves: with space numbers on, without bit 63.
fn root_value(settings: Settings, value: u64) -> u64
    ensures { result ≡ spec.root_value settings value }
{
    if settings.pcide() {
        return value % 0x8000_0000_0000_0000;
    }
    value
}

// What a root load drops.
fn root_drop(settings: Settings, value: u64) -> Drop
    ensures { result ≡ spec.root_drop settings value }
{
    if !settings.pcide() {
        return Drop::Local;
    }
    if bit(value, KEEP) {
        return Drop::Nothing;
    }
    Drop::Number((value % 4096) as u16)
}

// Whether INVPCID may name a space number: at most 4,095, and 0 in kinds 0 and 1 with the feature off.
fn number_served(settings: Settings, kind: u64, number: u64) -> bool
    ensures { result ≡ spec.number_served settings kind number }
{
    number <= 4095 && (1 < kind || settings.pcide() || number == 0)
}

// Whether INVPCID may name an address: in kind 0 a canonical one.
fn form_served(kind: u64, address: VirtAddr) -> bool
    ensures { result ≡ spec.form_served kind address }
{
    kind != 0 || address.canonical()
}

// What INVPCID of a kind drops. The kind stays C's number, of which the rules speak: an enum would need two more of them to say the same.
fn kind_drop(kind: u64, number: u16, address: VirtAddr) -> Drop
    ensures { result ≡ spec.kind_drop kind number address }
{
    match kind {
        0 => Drop::Piece(address.tag(), number),
        1 => Drop::Number(number),
        2 => Drop::All,
        _ => Drop::Local,
    }
}

impl Machine {
    // A call that is done and leaves a cache.
    fn left_with(self, cache: Cache) -> Stepped<Answer>
        ensures answer { result.answer ≡ spec.done }
        ensures machine { result.machine ≡ spec.with_cache self cache }
    {
        Stepped {
            answer: done(),
            machine: Machine { cache, ..self },
        }
    }

    // A call that is refused and leaves the machine as it is.
    fn refused(self, why: Refusal) -> Stepped<Answer>
        ensures { result ≡ spec.refused_with (Err why) self }
    {
        Stepped {
            answer: Err(why),
            machine: self,
        }
    }

    // The machine that a load leaves: judged by the settings that it would leave, from those before it, and refused as it was.
    fn load(self, settings: Settings, cache: Cache) -> Stepped<Answer>
        ensures { result ≡ spec.loaded self settings cache }
    {
        match settings.judge_from(self.settings) {
            Ok(()) => Stepped {
                answer: done(),
                machine: Machine { settings, cache },
            },
            Err(why) => self.refused(Refusal::NotServed(why)),
        }
    }

    // A start: refused, it gives all registers 0 and M = 40.
    pub fn start(settings: Settings) -> Stepped<Answer>
        ensures { result ≡ spec.started settings }
    {
        let cache = Cache::empty();
        let initial = Machine {
            settings: Settings::initial(),
            cache,
        };
        initial.load(settings, cache)
    }

    // A store of a value's 8 bytes.
    #[tactic(auto, unfolding(crate::specs::Calls::stored_result))]
    pub fn store(self, at: u64, value: u64, memory: &mut [u8]) -> Stepped<Answer>
        ensures { spec.Gives (spec.stored_result self memory.old at value) result memory.new }
    {
        if !store64(memory, at as usize, value) {
            return self.refused(Refusal::Outside(PhysAddr(at), 0, 0));
        }
        self.left_with(self.cache)
    }

    // A root load: the places that its drop takes go.
    #[tactic(auto, unfolding(crate::specs::Calls::root_loaded))]
    pub fn load_root(self, value: u64) -> Stepped<Answer>
        ensures { result ≡ spec.root_loaded self value }
    {
        let settings = Settings {
            cr3: root_value(self.settings, value),
            ..self.settings
        };
        self.load(settings, self.cache.drop(root_drop(self.settings, value)))
    }

    // A settings load: CR3 stays, so that no whole record fits, and everything is dropped.
    #[tactic(auto, unfolding(crate::specs::Calls::settings_loaded))]
    pub fn load_settings(self, cr0: u64, cr4: u64, efer: u64, width: u64) -> Stepped<Answer>
        ensures { result ≡ spec.settings_loaded self cr0 cr4 efer width }
    {
        let settings = Settings {
            cr0,
            cr4,
            efer,
            width,
            ..self.settings
        };
        self.load(settings, Cache::empty())
    }

    // A drop of a page: an address that is not canonical changes nothing.
    #[tactic(auto, unfolding(crate::specs::Calls::page_dropped))]
    pub fn drop_page(self, address: VirtAddr) -> Stepped<Answer>
        ensures { result ≡ spec.page_dropped self address }
    {
        if !address.canonical() {
            return self.left_with(self.cache);
        }
        self.left_with(self.cache.drop(page_drop(self.settings, address)))
    }

    // A drop of everything.
    #[tactic(auto, unfolding(crate::specs::Calls::all_dropped))]
    pub fn drop_all(self) -> Stepped<Answer>
        ensures { result ≡ spec.all_dropped self }
    {
        self.left_with(Cache::empty())
    }

    // INVPCID: refused with 1, 12 or 3, in this order, it changes nothing; C hands its numbers over one by one, and each test reads two.
    #[inline(always)]
    #[tactic(auto, unfolding(crate::specs::Calls::invalidated))]
    pub fn invpcid(self, kind: u64, number: u64, address: VirtAddr) -> Stepped<Answer>
        ensures { result ≡ spec.invalidated self kind number address }
    {
        if 3 < kind {
            return self.refused(Refusal::Unknown);
        }
        if !number_served(self.settings, kind, number) {
            return self.refused(Refusal::SpaceNumber);
        }
        if !form_served(kind, address) {
            return self.refused(Refusal::Form);
        }
        self.left_with(self.cache.drop(kind_drop(kind, number as u16, address)))
    }

    // One call.
    #[tactic(auto, unfolding(crate::specs::Calls::step))]
    pub fn step(self, call: Call, memory: &mut [u8]) -> Stepped<Answer>
        ensures { spec.Gives (spec.step self memory.old call) result memory.new }
    {
        match call {
            Call::Translate(address, access, mode) => self.translate(address, access, mode, memory),
            Call::Store(at, value) => self.store(at, value, memory),
            Call::LoadRoot(value) => self.load_root(value),
            Call::LoadSettings(cr0, cr4, efer, width) => self.load_settings(cr0, cr4, efer, width),
            Call::DropPage(address) => self.drop_page(address),
            Call::DropAll => self.drop_all(),
            Call::Invpcid(kind, number, address) => self.invpcid(kind, number, address),
        }
    }
}
