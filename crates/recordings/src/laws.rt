//! What follows from the definitions, as contracts of functions that do nothing.
ghost use Rattle.std.specs.Prelude.{List, ℕ};
ghost use Rattle.recordings.specs.KernelEvents.{KernelEvent};
ghost use Rattle.recordings.specs.Laws.{HasAll, HasOthers, HasOwn};
ghost use Rattle.recordings.specs.Recordings.{BlockRead, BlockWritten};

/// After an event a history has of its module the lines of the listing that was read after
/// it, or none if the module was freed.
#[tactic(auto, using(crate::proofs::LawLemmas::has_own))]
pub fn the_module_has_its_lines()
    ensures { (b : BlockRead) → (text : List ℕ) → (p : BlockWritten) → (e : KernelEvent)
        → HasOwn b text p e }
{}

/// After the first change of a block it has those lines of each module that no event of the block
/// names.
#[tactic(auto, using(crate::proofs::LawLemmas::has_others))]
pub fn other_modules_have_their_lines()
    ensures { (b : BlockRead) → (text : List ℕ) → (p : BlockWritten) → (e : KernelEvent)
        → HasOthers b text p e }
{}

/// After an event that is written as the listing it has those lines of every module.
#[tactic(auto, using(crate::proofs::LawLemmas::has_all))]
pub fn all_modules_have_their_lines()
    ensures { (b : BlockRead) → (text : List ℕ) → (p : BlockWritten) → (e : KernelEvent)
        → HasAll b text p e }
{}
