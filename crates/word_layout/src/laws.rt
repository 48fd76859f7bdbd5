//! That words differ, as contracts of a function that does nothing.

ghost use Rattle.std.specs.Prelude.{◌≡◌, ◌≢◌, ◌<◌, ◌+◌, ◌*◌, ℕ};
ghost use Rattle.word_layout.specs.Words.{root_word, a_word, b_word, tag_word, words_per_node};
ghost use Rattle.word_layout.specs.Words.{left_word, right_word, word_of_node, words_for};

/// Each node has [`WORDS_PER_NODE`](crate::places::WORDS_PER_NODE) words of its own, none of them
/// is the sequence or a root, and the two roots differ.
pub fn words_differ()
    ensures item_words { (i : ℕ) → (a_word i ≡ word_of_node 0 i)
        × (b_word i ≡ word_of_node 1 i) × (tag_word i ≡ word_of_node 2 i) }
    ensures link_words { (copy i : ℕ) → (left_word copy i ≡ word_of_node (3 + 2 * copy) i)
        × (right_word copy i ≡ word_of_node (4 + 2 * copy) i) }

    ensures one_place { (place other i j : ℕ) → place < words_per_node → other < words_per_node
        → word_of_node place i ≡ word_of_node other j → (place ≡ other) × (i ≡ j) }
    ensures no_root { (place i copy : ℕ) → copy < 2 → word_of_node place i ≢ root_word copy }
    ensures no_sequence { (place i copy : ℕ) → (word_of_node place i ≢ 0) × (root_word copy ≢ 0) }
    ensures roots { (copy other : ℕ) → root_word copy ≡ root_word other → copy ≡ other }
    ensures in_range { (n place i : ℕ) → i < n → place < words_per_node
        → word_of_node place i < words_for n }
    ensures roots_in_range { (n copy : ℕ) → copy < 2 → root_word copy < words_for n }
{}
