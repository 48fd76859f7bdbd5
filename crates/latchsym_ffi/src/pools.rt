//! What the pools of readers in include/latchsym.h rest on.

ghost use Rattle.std.specs.Prelude.{◌≡◌, ℕ, All, List, sum};
ghost use Rattle.latchsym_ffi.specs.Pools.{HaveRisen, IsClaimed};

/// If two rounds over the slots meet only claimed ones, and their claims have equal sums, all slots
/// are claimed at each moment between the rounds.
#[tactic(auto, using(crate::proofs::PoolLemmas::claimed_between))]
fn all_were_claimed()
    ensures { (first moment second : List ℕ) → HaveRisen first moment → HaveRisen moment second
        → sum first ≡ sum second → All IsClaimed second → All IsClaimed moment }
{}
