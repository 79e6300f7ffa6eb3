//! A clock rate as two payload words.
ghost use Rattle.std.specs.Prelude.{◌≡◌};
ghost use Rattle.scmi_codec.specs.Rate.{rate_of, rate_words};

/// The rate in Hz of its two words, the lower one first.
pub fn rate_of(low: u32, high: u32) -> u64
    ensures { result ≡ rate_of low high }
{
    u64::from(low) + (u64::from(high) << 32)
}

/// The two words of a rate in Hz, the lower one first.
pub fn rate_words(rate: u64) -> [u32; 2]
    ensures { result ≡ rate_words rate }
{
    [(rate & 0xffff_ffff) as u32, (rate >> 32) as u32]
}
