//! What a listing says of a symbol after its address: `t do_one`.

ghost use Rattle.std.specs.Prelude.{◌≡◌};
ghost use Rattle.modules.specs.SymbolTexts.{letter_in, name_in};

/// The letter of the symbol's kind.
#[inline(always)]
pub(crate) fn letter_in(text: &[u8]) -> u8
    ensures { result ≡ letter_in text.now }
{
    match text {
        [letter, ..] => *letter,
        [] => 0,
    }
}

/// The symbol's name.
#[inline(always)]
pub(crate) fn name_in(text: &[u8]) -> &[u8]
    ensures { result.now ≡ name_in text.now }
{
    match text {
        [_, _, name @ ..] => name,
        _ => &[],
    }
}
