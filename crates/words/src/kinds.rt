//! What a kind of item must show.
ghost use Rattle.std.specs.Prelude.{◌≡◌, ℕ, ◌^◌, ◌<◌, MatchResult, ◌≢◌};
ghost use Rattle.words.specs.declared.faults.ItemFault.TheVariants.{NoItem};

use crate::faults::ItemFault;

/// A kind of item: each item has one word, never bare (0), and no other word reads as an item.
pub trait Kind: Copy {
    // the item's word
    ghost word: { Self → ℕ };

    fn to_word(self) -> u64
        ensures { result ≡ word self };

    /// The item whose word this is.
    fn read(w: u64) -> Result<Self, ItemFault>
        ensures { MatchResult result (λ x. word x ≡ w) (λ e. (e ≡ NoItem w) × ((x : Self) → word x ≢ w)) };

    ghost fits: { (x : Self) → word x < 2 ^ 64 };

    // a bare word stands for no item
    ghost marked: { (x : Self) → word x ≢ 0 };

    ghost single: { (x y : Self) → word x ≡ word y → x ≡ y };
}
