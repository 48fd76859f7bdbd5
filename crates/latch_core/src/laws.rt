//! What holds of every attempt and of every step of a writer, as contracts of functions that do
//! nothing.

ghost use Rattle.std.specs.Prelude.{◌≡◌, ℕ, ◌+◌, ◌*◌, ◌^◌, ◌<◌, ◌≤◌, ◌⊎◌, true, false, List, []};
ghost use Rattle.std.specs.Prelude.{◌∷◌, ◌++◌, length, Some, None};
ghost use Rattle.order_laws.specs.declared.items.Item.{Item};
ghost use Rattle.order_laws.specs.Tables.{IsTable, look};
ghost use Rattle.word_layout.specs.declared.stores.Store.{Store};
ghost use Rattle.word_layout.specs.Words.{at, Nodes, Holds};
ghost use Rattle.word_layout.specs.Stores.{words_after};
ghost use Rattle.table_updates.specs.declared.updates.Update.{Update};
ghost use Rattle.rb_trees.specs.Trees.{IsBalanced, depth};
ghost use Rattle.latch_core.specs.Sequences.{generation_of, stable_copy_of};
ghost use Rattle.table_updates.specs.Updates.{after, refusal_for};
ghost use Rattle.latch_core.specs.Attempts.{Reading, Load, Outcome, Answer, attempt, rest_after};
ghost use Rattle.latch_core.specs.Attempts.{IsAttempt, Stand};
ghost use Rattle.latch_core.specs.Whole.{GoesOn};
ghost use Rattle.latch_core.specs.Latches.{Latch, PendingUpdate, IsWriterStep, latch_after_step};
ghost use Rattle.latch_core.specs.Latches.{latch_with_update, opening_latch};
ghost use Rattle.latch_core.specs.Invariants.{IsStanding, IsSound};
ghost use Rattle.latch_core.specs.Widening.{widened_latch};
ghost use Rattle.latch_core.specs.Replacements.{replacement, is_rising};

use order_laws::TreeOrder;

/// An attempt whose values all are in one memory gives what the key finds in the table of the
/// stable copy, with the generation of the sequence, and takes at most four loads for each item and
/// three.
#[tactic(auto, using(crate::proofs::WalkLemmas::attempt_answers, crate::proofs::WalkLemmas::attempt_loads))]
pub fn attempt_answers<O: TreeOrder>()
    ensures { (m : List ℕ) (n : ℕ) (k : O.Key) (table : List Item) (tree : Nodes)
        → (values : List ℕ) (out : Outcome)
        → Holds m n (stable_copy_of (at m 0)) table tree → IsTable O.order table → length table ≤ n
        → Stand m (attempt O.order n k) values → IsAttempt O.order n k values out
        → (out ≡ Answer (look O.order k table) (generation_of (at m 0)))
        × (length values ≤ 4 * length table + 3) }
{}

/// An attempt whose values so far all are in one memory, and that is not at its end, has taken
/// fewer than that.
#[tactic(auto, using(crate::proofs::WalkLemmas::attempt_below))]
pub fn attempt_is_short<O: TreeOrder>()
    ensures { (m : List ℕ) (n : ℕ) (k : O.Key) (table : List Item) (tree : Nodes)
        → (values : List ℕ) (word : ℕ) (go : ℕ → Reading)
        → Holds m n (stable_copy_of (at m 0)) table tree → IsTable O.order table → length table ≤ n
        → Stand m (attempt O.order n k) values
        → rest_after (attempt O.order n k) values ≡ Some (Load word go)
        → length values < 4 * length table + 3 }
{}

/// If the stable copy's tree is red-black, an attempt takes at most four loads for each node on
/// a way down and three, and no way down is longer than twice the binary logarithm of the number of
/// items and one.
#[tactic(auto, using(crate::proofs::WalkLemmas::attempt_depth, crate::proofs::WalkLemmas::attempt_below_depth, crate::proofs::WalkLemmas::few_deep_any))]
pub fn attempt_is_shallow<O: TreeOrder>()
    ensures deep { (m : List ℕ) (n : ℕ) (table : List Item) (tree : Nodes)
        → Holds m n (stable_copy_of (at m 0)) table tree → IsBalanced tree
        → 2 ^ depth tree ≤ (length table + 1) * (length table + 1) }
    ensures whole { (m : List ℕ) (n : ℕ) (k : O.Key) (table : List Item) (tree : Nodes)
        → (values : List ℕ)
        → Holds m n (stable_copy_of (at m 0)) table tree → IsTable O.order table → length table ≤ n
        → Stand m (attempt O.order n k) values → length values ≤ 4 * depth tree + 3 }
    ensures part { (m : List ℕ) (n : ℕ) (k : O.Key) (table : List Item) (tree : Nodes)
        → (values : List ℕ)
        → Holds m n (stable_copy_of (at m 0)) table tree → IsTable O.order table → length table ≤ n
        → Stand m (attempt O.order n k) values → GoesOn O.order n k values
        → length values < 4 * depth tree + 3 }
{}

/// Whatever values an attempt takes, it ends: after at most four loads for each node and three.
#[tactic(auto, using(crate::proofs::WalkLemmas::attempt_length, crate::proofs::LoadingLemmas::values_before))]
pub fn attempt_ends<O: TreeOrder>()
    ensures whole { (n : ℕ) (k : O.Key) (values : List ℕ) (rest : Reading)
        → rest_after (attempt O.order n k) values ≡ Some rest → length values ≤ 4 * n + 3 }
    ensures part { (n : ℕ) (k : O.Key) (values : List ℕ) (word : ℕ) (go : ℕ → Reading)
        → rest_after (attempt O.order n k) values ≡ Some (Load word go)
        → length values ≤ 4 * n + 2 }
{}

/// While the sequence is what an attempt read first, each value that it loaded still is in its
/// word: each step that the writer may make keeps this, and so does each load of the word that the
/// attempt asks for.
#[tactic(auto, using(crate::proofs::WalkLemmas::standing_push))]
pub fn loaded_values_stand<O: TreeOrder>()
    ensures step { (n : ℕ) (k : O.Key) (l : Latch) (h : PendingUpdate) (s : Store) (values : List ℕ)
        → 0 < length l.words → IsWriterStep n l h s
        → IsStanding l.words (attempt O.order n k) values
        → IsStanding (words_after l.words s) (attempt O.order n k) values }
    ensures load { (m : List ℕ) (n : ℕ) (k : O.Key) (values : List ℕ) (word : ℕ) (go : ℕ → Reading)
        → rest_after (attempt O.order n k) values ≡ Some (Load word go)
        → IsStanding m (attempt O.order n k) values
        → IsStanding m (attempt O.order n k) (values ++ at m word ∷ []) }
{}

/// A step of the writer leaves the sequence as it is, or adds 1.
#[tactic(auto, using(crate::proofs::SoundLemmas::sequence_after))]
pub fn sequence_never_falls()
    ensures { (n : ℕ) (l : Latch) (h : PendingUpdate) (s : Store) → 0 < length l.words
        → IsWriterStep n l h s
        → (at (words_after l.words s) 0 ≡ at l.words 0)
        ⊎ (at (words_after l.words s) 0 ≡ at l.words 0 + 1) }
{}

/// At the opening, after each step, after each update that begins and with more nodes, the stable
/// copy holds the table that the sequence names.
pub fn latch_stays_sound<O: TreeOrder>()
    ensures opening { (n start : ℕ) → stable_copy_of start ≡ 0
        → IsSound O.order n start [] (opening_latch n start) }
    ensures step { (n start : ℕ) (us : List Update) (l : Latch) (h : PendingUpdate) (s : Store)
        → IsSound O.order n start us l → l.pending ≡ Some h → IsWriterStep n l h s
        → IsSound O.order n start us (latch_after_step l h s) }
    ensures begin { (n limit start : ℕ) (us : List Update) (l : Latch) (u : Update) (left : ℕ)
        → IsSound O.order n start us l → l.pending ≡ None
        → refusal_for O.order n limit false l.newest_table (at l.words 0) u ≡ None
        → IsSound O.order n start (us ++ u ∷ []) (latch_with_update O.order l u left) }
    ensures widen { (n n' start : ℕ) (us : List Update) (l : Latch)
        → n ≤ n' → IsSound O.order n start us l
        → IsSound O.order n' start us (widened_latch n n' l) }
{}

/// A table whose items are replaced by a list that rises is that list, if nothing is against
/// the update. Replaced by itself, it is left alone: the update is the batch of no entries.
#[tactic(auto, using(crate::proofs::ReplacementLemmas::replaced_by_itself))]
pub fn a_replacement_leaves_its_items<O: TreeOrder>()
    ensures table { (n limit seq : ℕ) (table items : List Item)
        → IsTable O.order table → length table ≤ n → is_rising O.order items ≡ true
        → refusal_for O.order n limit false table seq (replacement table items) ≡ None
        → after O.order table (replacement table items) ≡ items }
    ensures itself { (table : List Item) → replacement table table ≡ Update.Batch [] [] }
{}
