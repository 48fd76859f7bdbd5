//! The line `batch E I ..` of a trace: E first words to erase, and I items to insert.
ghost use Rattle.std.specs.Prelude.{◌≡◌, ◌≢◌, ◌+◌, ◌*◌, length, take, drop, IfOk, MatchOption};
ghost use Rattle.std.specs.Option.{option_map};
ghost use Rattle.texts.specs.Lines.{words_of};
ghost use Rattle.run_files.specs.Batch.{batch_of, items_of_numbers, numbers_of};

use order_laws::Item;
use std::alloc::{AllocError, Global};
use texts::{cut_word, number};

/// How many words an item has.
const ITEM_WORDS: usize = 3;

/// The first words to erase, and the items to insert.
#[derive(Debug, Drop)]
pub(crate) struct BatchLine {
    pub(crate) erase: Vec<u64>,
    pub(crate) insert: Vec<Item>,
}

/// The batch that the words after `batch` are: the numbers E and I, then E numbers, then three for
/// each of I items, and no more.
pub(crate) fn batch_in(alloc: Global, arguments: &[u8]) -> Result<Option<BatchLine>, AllocError>
    ensures { IfOk result (λ batch. option_map (λ b. (b.erase.items, b.insert.items)) batch
        ≡ batch_of (words_of arguments.now)) }
{
    let Some(numbers) = numbers_in(alloc, arguments)? else {
        return Ok(None);
    };
    let [erased, inserted, rest @ ..] = numbers.as_slice() else {
        return Ok(None);
    };
    let Some((erase, insert)) = parts(rest, *erased, *inserted) else {
        return Ok(None);
    };
    Ok(Some(BatchLine {
        erase: Vec::from_slice(alloc, erase)?,
        insert: items_in(alloc, insert)?,
    }))
}

/// The numbers that the words of a line are, if each of them is one.
fn numbers_in(alloc: Global, line: &[u8]) -> Result<Option<Vec<u64>>, AllocError>
    ensures { IfOk result
        (λ numbers. option_map (λ ns. ns.items) numbers ≡ numbers_of (words_of line.now)) }
{
    let mut numbers = Vec::new(alloc);
    let mut rest = line;
    loop {
        let (word, after) = cut_word(rest);
        let Some(n) = number(word) else {
            return Ok(None);
        };
        numbers.push(n)?;
        match after {
            None => return Ok(Some(numbers)),
            Some(more) => rest = more,
        }
    }
}

/// The first numbers, and the ones of the items after them, if there are just as many.
fn parts(numbers: &[u64], erased: u64, inserted: u64) -> Option<(&[u64], &[u64])>
    ensures { MatchOption result (length numbers.now ≢ erased + 3 * inserted)
        (λ p. (length numbers.now ≡ erased + 3 * inserted) × (p.0.now ≡ take erased numbers.now)
        × (p.1.now ≡ drop erased numbers.now)) }
{
    let erased = usize::try_from(erased).ok()?;
    if erased > numbers.len() {
        return None;
    }
    let (erase, insert) = numbers.split_at(erased);
    if insert.len() % ITEM_WORDS != 0 || (insert.len() / ITEM_WORDS) as u64 != inserted {
        return None;
    }
    Some((erase, insert))
}

/// The items that the numbers are, three for each.
fn items_in(alloc: Global, numbers: &[u64]) -> Result<Vec<Item>, AllocError>
    ensures { IfOk result (λ items. items.items ≡ items_of_numbers numbers.now) }
{
    let mut items = Vec::with_capacity(alloc, numbers.len() / ITEM_WORDS)?;
    let mut rest = numbers;
    while let [a, b, tag, more @ ..] = rest {
        items.push(Item {
            a: *a,
            b: *b,
            tag: *tag,
        })?;
        rest = more;
    }
    Ok(items)
}
