//! Lookups.

ghost use Rattle.std.specs.Prelude.{◌≡◌};
ghost use Rattle.latch_table.specs.Readers.{Searched};
ghost use Rattle.latch_table.specs.declared.readers.Try.TheVariants.{Answered};
ghost use Rattle.latch_table.specs.Memory.{memory_after};

use super::{Reader, Try};
use order_laws::{Item, TreeOrder};
use std::sync::Wait;

impl<O: TreeOrder> Reader<O> {
    /// Tries until it has an answer: what the key lies in, and the generation that this is of.
    pub fn find<R: Wait>(&mut self, rt: &R, k: O::Key) -> (Option<Item>, u64)
        ensures place { self.new.place ≡ self.old.place }
        ensures found { Searched O.order k self.old.knowledge self.new.knowledge result }
        ensures memory { self.new.memory
            ≡ memory_after self.old.memory (Answered result.0 result.1) }
    {
        for _ in rt.forever() {
            if let Try::Answered(answer, generation) = self.try_find(k) {
                return (answer, generation);
            }
        }
        unreachable!()
    }
}
