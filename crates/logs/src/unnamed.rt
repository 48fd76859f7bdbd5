//! Lines that nothing names, and which lines ask for names.
ghost use Rattle.std.specs.Prelude.{◌≡◌, length, nat_lt};
ghost use Rattle.logs.specs.AnnotatedLogs.{first_context};
ghost use Rattle.logs.specs.TakenWords.{taken_in};
ghost use Rattle.logs.specs.Unnamed.{ends_address, has_address};

use crate::address_words::address_at;
use crate::annotator::cut_line;
use crate::answers::Answers;
use crate::line::LONGEST;
use crate::own_names::NamedReadings;
use crate::words::next_candidate;
use std::alloc::AllocError;

/// What no address is answered by.
#[derive(Drop)]
pub struct Unanswered {
    /// Whether the log is of a 32-bit kernel.
    pub is_narrow: bool,
}

impl Answers for Unanswered {
    ghost use Rattle.logs.specs.Unnamed.{unanswered};

    ghost answering = { λ u. unanswered u.is_narrow };

    fn is_narrow(&self) -> bool {
        self.is_narrow
    }

    fn prepare(&mut self, _is_silent: bool) -> Result<(), AllocError> {
        Ok(())
    }

    fn text_of(&self, _is_caller: bool, _addr: u64) -> Result<Option<Vec<u8>>, AllocError> {
        Ok(None)
    }

    fn named_readings(&self, _addr: u64, _name: &[u8]) -> NamedReadings {
        NamedReadings {
            as_caller: false,
            as_it_is: false,
        }
    }

    fn is_alias(&self, _is_caller: bool, _addr: u64, _name: &[u8]) -> bool {
        false
    }

    fn is_offset(&self, _is_caller: bool, _addr: u64, _offset: u64) -> bool {
        false
    }

    fn is_data(&self, _addr: u64) -> bool {
        false
    }

    fn has_size(&self, _name: &[u8], _size: u64) -> Result<Option<bool>, AllocError> {
        Ok(None)
    }

    fn is_in_range(&self, _addr: u64) -> bool {
        false
    }
}

/// Whether a line has an address word, and is not too long to be named.
pub fn has_address(is_narrow: bool, line: &[u8]) -> bool
    ensures { result ≡ has_address is_narrow line.now }
{
    line.len() <= LONGEST && has_address_word(is_narrow, line)
}

/// Whether one of the words of a line is an address.
fn has_address_word(is_narrow: bool, line: &[u8]) -> bool
    ensures { result ≡ nat_lt 0 (length (taken_in is_narrow first_context line.now)) }
{
    let mut at = 0;
    loop {
        let Some(word) = next_candidate(is_narrow, line, at) else {
            return false;
        };
        if address_at(is_narrow, line, word).is_some() {
            return true;
        }
        at = word.end;
    }
}

/// Whether one of the lines that end among these bytes has an address word.
pub(crate) fn ends_address(is_narrow: bool, bytes: &[u8]) -> bool
    ensures { result ≡ ends_address is_narrow bytes.now }
{
    let mut rest = bytes;
    loop {
        match cut_line(rest) {
            Some((line, more)) => {
                if has_address(is_narrow, line) {
                    return true;
                }
                rest = more;
            }
            None => return false,
        }
    }
}
