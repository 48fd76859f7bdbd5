//! Code that the caller knows of itself.

ghost use Rattle.std.specs.Prelude.{◌≡◌};
ghost use Rattle.follower.specs.Code.{has_address};

use std::marker::Model;

/// A piece of code that the caller knows of itself, as a program that was just loaded.
#[derive(Debug, Drop)]
pub struct NotedCode<'a> {
    /// Its first address.
    pub start: u64,
    /// How many bytes it has.
    pub len: u64,
    pub name: &'a [u8],
    /// The name of what it belongs to.
    pub owner: &'a [u8],
}

impl<'a> Model for NotedCode<'a> {
    ghost use Rattle.follower.specs.Code.{CodeEntry};

    ghost Value = { CodeEntry };

    ghost view = { λ c. record {
      start = c.start;
      len = c.len;
      name = c.name.now;
      owner = c.owner.now;
    } };
}

impl NotedCode<'_> {
    /// Whether the address is one of its own.
    pub(crate) fn has_address(&self, addr: u64) -> bool
        ensures { result ≡ has_address addr self.now }
    {
        self.start <= addr && addr - self.start < self.len
    }
}
