// Cards: keys that are numbers.
ghost use Rattle.keys.specs.Cards.{numbers_lawful};
ghost use Rattle.keys.specs.Hashes.{card_hash};

use crate::kind::Key;

// A card is its number, and equal to no card of another number.
#[derive(Clone, Copy, PartialEq, Eq)]
pub struct Card(pub u64);

impl Key for Card {
    ghost hash = { λ a. card_hash a.0 };

    ghost lawful = { numbers_lawful (λ a. a.0) };

    #[tactic(auto, using(std::proofs::lemmas::Nat::and_mask))]
    fn hash(&self) -> u32 {
        let low = (self.0 & 0xFFFF_FFFF) as u32;
        let high = (self.0 >> 32) as u32;
        low ^ high
    }
}
