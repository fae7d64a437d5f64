// What a card's bytes say.
ghost use Rattle.std.specs.Prelude.{◌≡◌, ◌+◌, ◌≤◌};
ghost use Rattle.word.specs.Bytes.{load};
ghost use Rattle.card.specs.Card as spec;

use address::VirtAddr;
use machine::Call;
use word::bits::field;
use word::bytes::load64;

// The bytes of a card.
const SIZE: usize = 32;

// Why a card is no call, and its number: the kind is unknown, or the card is short.
#[derive(Clone, Copy)]
pub enum Unread {
    Kind = 1,
    Short = 6,
}

impl Unread {
    // The number with which the card is refused.
    pub fn number(self) -> u64
        ensures { result ≡ spec.number self }
    {
        self as u64
    }
}

// The number in the eight bytes of a card at an offset.
fn number_at(card: &[u8; SIZE], at: usize) -> u64
    requires { at + 8 ≤ SIZE }
    ensures { result ≡ load 8 card.now at }
{
    load64(card, at).unwrap_or(0)
}

// The call of a whole card, by its kind.
#[tactic(auto, unfolding(crate::specs::Card::call_of))]
fn call_of(card: &[u8; SIZE]) -> Result<Call, Unread>
    ensures { result ≡ spec.call_of (spec.kind card.now) card.now }
{
    let [kind, access, mode, ..] = *card;
    let address = number_at(card, 8);
    let value = number_at(card, 16);
    match kind {
        0 => Ok(Call::Translate(VirtAddr(address), u64::from(access), u64::from(mode))),
        1 => Ok(Call::Store(address, value)),
        2 => Ok(Call::LoadRoot(value)),
        3 => Ok(Call::DropPage(VirtAddr(address))),
        4 => Ok(Call::DropAll),
        5 => Ok(Call::LoadSettings(
            field(address, 0, 32),
            field(address, 32, 32),
            value,
            u64::from(card[24]),
        )),
        _ => Err(Unread::Kind),
    }
}

// What a card says.
#[tactic(auto, unfolding(crate::specs::Card::decoded))]
pub fn decode(card: &[u8]) -> Result<Call, Unread>
    ensures { result ≡ spec.decoded card.now }
{
    let whole: &[u8; SIZE] = card.try_into().map_err(|_| Unread::Short)?;
    call_of(whole)
}
