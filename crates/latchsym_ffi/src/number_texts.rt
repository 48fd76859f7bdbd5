//! What C calls, of the library itself.

ghost use Rattle.std.specs.Prelude.{◌≡◌, ◌++◌, [], ◌∷◌};
ghost use Rattle.latchsym_ffi.specs.AnswerTexts.{text_with};

use crate::answers::text_of;

/// The place of bytes that stay in memory.
#[repr(C)]
#[derive(Clone, Copy, Drop)]
pub struct StaticBytes {
    pub bytes: &'static [u8],
}

/// Writes the place of a number's text, with the 0 at its end.
#[unsafe(no_mangle)]
pub extern "C" fn latchsym_place_of_text(number: u32, out: &mut StaticBytes)
    ensures { out.new.bytes.now ≡ text_with number ++ 0 ∷ [] }
{
    *out = StaticBytes {
        bytes: text_of(number),
    };
}

/// The version of the library: 10000 of each major, 100 of each minor and 1 of each patch number.
#[unsafe(no_mangle)]
pub extern "C" fn latchsym_version() -> u32
    ensures { result ≡ 10300 }
{
    10300
}
