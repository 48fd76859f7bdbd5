//! Which word holds what.

ghost use Rattle.std.specs.Prelude.{◌≡◌, ◌*◌};
ghost use Rattle.word_layout.specs.Words.{words_per_node, root_word, a_word, b_word, tag_word};
ghost use Rattle.word_layout.specs.Words.{left_word, right_word};
ghost use Rattle.word_layout.specs.Copies.{copy_number};

/// One of the two copies of the tree.
#[derive(Clone, Copy, Debug, PartialEq, Eq, Drop)]
pub enum TreeCopy {
    /// Copy 0, which readers walk while the sequence is even.
    Zero,
    /// Copy 1, which readers walk while the sequence is odd.
    One,
}

impl TreeCopy {
    /// The number of the copy, 0 or 1.
    pub fn number(self) -> usize
        ensures { result ≡ copy_number self }
    {
        match self {
            TreeCopy::Zero => 0,
            TreeCopy::One => 1,
        }
    }
}

/// The word of a copy's root.
pub fn root_of(copy: TreeCopy) -> usize
    ensures { result ≡ root_word (copy_number copy) }
{
    1 + copy.number()
}

/// How many words a node has.
pub const WORDS_PER_NODE: usize = 7;

/// How many words the nodes before this one have.
pub fn words_before(node: u32) -> usize
    ensures { result ≡ words_per_node * node }
{
    WORDS_PER_NODE * node as usize
}

/// The word of a node's `a`.
pub fn a_of(node: u32) -> usize
    ensures { result ≡ a_word node }
{
    3 + words_before(node)
}

/// The word of a node's `b`.
pub fn b_of(node: u32) -> usize
    ensures { result ≡ b_word node }
{
    4 + words_before(node)
}

/// The word of a node's `tag`.
pub fn tag_of(node: u32) -> usize
    ensures { result ≡ tag_word node }
{
    5 + words_before(node)
}

/// The word of a node's left link in a copy.
pub fn left_of(copy: TreeCopy, node: u32) -> usize
    ensures { result ≡ left_word (copy_number copy) node }
{
    6 + words_before(node) + 2 * copy.number()
}

/// The word of a node's right link in a copy.
pub fn right_of(copy: TreeCopy, node: u32) -> usize
    ensures { result ≡ right_word (copy_number copy) node }
{
    7 + words_before(node) + 2 * copy.number()
}
