//! The bits of a mask.
ghost use Rattle.std.specs.Prelude.{◌≡◌, ◌<◌, ◌==◌, ◌&&◌, ◌||◌, ℕ, not};
ghost use Rattle.std.specs.Int.{bit_at};
ghost use Rattle.scmi_plan.specs.Board.{mask_with};

/// How many bits a mask has.
pub const MASK_BITS: u32 = u32::BITS;

/// A mask with one more bit, 0 to 31.
pub fn with_bit(mask: u32, bit: u32) -> u32
    requires { bit < MASK_BITS }
    ensures value { result ≡ mask_with mask bit }
    ensures bits { (b : ℕ) → b < MASK_BITS
        → (bit_at result b == 1) ≡ ((b == bit) || (bit_at mask b == 1)) }
{
    mask | (1u32 << bit)
}

/// A mask without a bit, 0 to 31.
pub fn without_bit(mask: u32, bit: u32) -> u32
    requires { bit < MASK_BITS }
    ensures { (b : ℕ) → b < MASK_BITS
        → (bit_at result b == 1) ≡ (not (b == bit) && (bit_at mask b == 1)) }
{
    mask & !(1u32 << bit)
}
