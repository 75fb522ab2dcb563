//! Laws of blocks: functions that do nothing, and state laws in their contracts.
ghost use Rattle.std.specs.Prelude.{◌≡◌, ℕ, ℤ, List, ◌++◌};
ghost use Rattle.ts_block.specs.Blocks.{IsBlockOf};

/// Proves that no block begins another one, and that each is the block of its points alone.
pub fn blocks_are_apart()
    ensures { (a b x y : List ℕ) (p q : List (ℤ × ℤ))
        → IsBlockOf a p → IsBlockOf b q → a ++ x ≡ b ++ y → (a ≡ b) × (p ≡ q) }
{}
