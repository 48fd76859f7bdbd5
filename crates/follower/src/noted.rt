//! Code that the caller noted, by generation and by stamp.

ghost use Rattle.std.specs.Prelude.{◌≡◌, ◌<◌, [], ◌∷◌, IfSome, OnOk, length, position, slice_get};
ghost use Rattle.std.specs.Prelude.{slice_set, vec_capacity, vec_len};
ghost use Rattle.std.specs.Option.{option_copied};
ghost use Rattle.follower.specs.declared.noted.DatedCode.{DatedCode as Dated};
ghost use Rattle.follower.specs.Noted.{AreSameFrom, is_gone_by, is_noted_by, is_there};
ghost use Rattle.follower.specs.Noted.{noted_at, stays_at, without_gone};

use crate::catalogs::Moment;
use crate::code::NotedCode;
use std::alloc::{AllocError, Global};
use std::marker::Model;

/// When something was noted.
#[derive(Clone, Copy, Debug, Drop)]
pub struct NotedTime {
    /// The last generation before the update that began with it.
    pub previous: u64,
    /// The caller's stamp.
    pub since: u64,
}

impl NotedTime {
    /// Whether it was at or before the moment.
    fn is_by(self, moment: Moment) -> bool
        ensures { result ≡ is_noted_by moment self }
    {
        match moment {
            Moment::Generation(generation) => self.previous < generation,
            Moment::Stamp(at) => self.since <= at,
        }
    }
}

/// Noted code, from when on it is there, and from when on it is gone, if that was noted.
#[derive(Drop)]
pub struct DatedCode<'a> {
    pub code: NotedCode<'a>,
    pub begun: NotedTime,
    pub gone: Option<NotedTime>,
}

impl DatedCode<'_> {
    /// Whether it was gone by the moment.
    fn is_gone_by(&self, moment: Moment) -> bool
        ensures { result ≡ is_gone_by moment self.now }
    {
        match self.gone {
            Some(time) => time.is_by(moment),
            None => false,
        }
    }

    /// Whether it was there at the moment, and has the address.
    fn is_there(&self, moment: Moment, addr: u64) -> bool
        ensures { result ≡ is_there moment addr self.now }
    {
        self.begun.is_by(moment) && !self.is_gone_by(moment) && self.code.has_address(addr)
    }

    /// Whether it begins there, and was not noted to be gone.
    fn stays_at(&self, start: u64) -> bool
        ensures { result ≡ stays_at start self.now }
    {
        self.code.start == start && self.gone.is_none()
    }
}

/// Noted code, the newest first.
///
/// Most addresses lie below all of it or above, and are told apart without a search.
#[derive(Drop)]
pub struct NotedCodes<'a> {
    dated: Vec<DatedCode<'a>>,
    /// No code has an address below this one.
    lowest: u64,
    /// No code has an address above this one.
    highest: u64,
}

impl<'a> Model for NotedCodes<'a> {
    ghost use Rattle.std.specs.Global.{Vec};
    ghost use Rattle.std.specs.Prelude.{All};
    ghost use Rattle.follower.specs.declared.noted.DatedCode.{DatedCode};
    ghost use Rattle.follower.specs.Code.{LiesWithin};

    ghost Value = { Vec DatedCode };

    ghost view = { λ c. c.dated };

    ghost invariant = { λ c. All (λ d. LiesWithin c.lowest c.highest d.code) c.dated.items };
}

/// The place of the newest code that begins there and was not noted to be gone.
fn newest_at(dated: &[DatedCode<'_>], start: u64) -> Option<usize>
    ensures place { result ≡ position (stays_at start) dated.now }
    ensures within { IfSome result (λ place. place < length dated.now) }
{
    dated.iter().position(|code| code.stays_at(start))
}

impl<'a> NotedCodes<'a> {
    /// No code.
    pub fn new(alloc: Global) -> NotedCodes<'a>
        ensures { result.items ≡ [] }
    {
        NotedCodes {
            dated: Vec::new(alloc),
            lowest: u64::MAX,
            highest: 0,
        }
    }

    /// Makes room for one piece more.
    pub fn reserve_one(&mut self) -> Result<(), AllocError>
        ensures same { self.new.items ≡ self.old.items }
        ensures room { OnOk result (vec_len self.new < vec_capacity self.new) }
    {
        self.dated.reserve(1)
    }

    /// Keeps a piece before the others. Takes no memory: there is room.
    pub fn keep_reserved(&mut self, dated: DatedCode<'a>)
        requires { vec_len self.old < vec_capacity self.old }
        ensures { self.new.items ≡ dated.entry ∷ self.old.items }
    {
        self.lowest = self.lowest.min(dated.code.start);
        self.highest = self
            .highest
            .max(dated.code.start.saturating_add(dated.code.len));
        if self.dated.insert(0, dated).is_err() {
            unreachable!();
        }
    }

    /// The code that was there at a moment and has the address: of several the one noted last.
    #[tactic(auto, unfolding(crate::specs::Noted::noted_at))]
    pub fn at(&self, moment: Moment, addr: u64) -> Option<&DatedCode<'a>>
        ensures { option_copied result ≡ noted_at self.now.items moment addr }
    {
        if addr < self.lowest || self.highest < addr {
            return None;
        }
        self.dated.iter().find(|code| code.is_there(moment, addr))
    }

    /// The place of the newest code that begins there and was not noted to be gone.
    pub fn place_at(&self, start: u64) -> Option<usize>
        ensures place { result ≡ position (stays_at start) self.now.items }
        ensures within { IfSome result (λ place. place < length self.now.items) }
    {
        newest_at(&self.dated, start)
    }

    /// Notes that the code at a place is gone.
    pub fn end(&mut self, place: usize, time: NotedTime)
        requires { place < length self.old.items }
        ensures { (d : Dated) → slice_get self.old.items place ≡ Some d
            → self.new.items ≡ slice_set self.old.items place (record d { gone = Some time }) }
    {
        self.dated[place].gone = Some(time);
    }

    /// Leaves out what was gone by the moment: at that moment and later ones each address has the
    /// code that it had.
    pub fn forget(&mut self, moment: Moment)
        ensures left { self.new.items ≡ without_gone moment self.old.items }
        ensures same { AreSameFrom moment self.old.items self.new.items }
    {
        self.dated.retain(|code| !code.is_gone_by(moment));
    }
}
