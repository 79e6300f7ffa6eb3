//! Words in letters of either case.
ghost use Rattle.std.specs.Prelude.{◌≡◌};
ghost use Rattle.scmi_live.specs.Letters.{is_word};

/// Whether an item is this word, in letters of either case.
pub(crate) fn is_word(item: &[u8], word: &[u8]) -> bool
    ensures { result ≡ is_word item.now word.now }
{
    item.eq_ignore_ascii_case(word)
}
