//! Words of a command line that begin as options do, and are none.
ghost use Rattle.std.specs.Prelude.{◌≡◌, ◌<◌, IfOk, IfSome, length, map, position};
ghost use Rattle.command_line.specs.Operands.{ends_options, is_kernel_name, operand_place};
ghost use Rattle.command_line.specs.Operands.{with_operands};

use std::alloc::{AllocError, Global};
use std::convert::AsStr;

/// The words, with `--` before the first that begins with `-:`. This is a NAME of a symbol of the
/// kernel itself, so that it and the words after it are no options.
pub fn with_operands<'a, S: AsStr>(
    alloc: Global,
    words: &'a [S],
) -> Result<Vec<&'a str>, AllocError>
    ensures { IfOk result
        (λ v. map (λ w. w.now) v.items ≡ with_operands (map S.text words.entry.now)) }
{
    let mut texts: Vec<&'a str> = Vec::with_capacity(alloc, words.len())?;
    for word in words {
        texts.push(word.as_str())?;
    }
    let Some(place) = operand_place(&texts) else {
        return Ok(texts);
    };
    texts.insert(place, "--")?;
    Ok(texts)
}

/// The place of the first word that begins with `-:`, if no `--` comes before it.
fn operand_place(words: &[&str]) -> Option<usize>
    ensures place { result ≡ operand_place (map (λ w. w.now) words.now) }
    ensures within { IfSome result (λ n. n < length words.now) }
{
    let place = first_ending(words)?;
    if is_kernel_name(words[place]) {
        Some(place)
    } else {
        None
    }
}

/// The place of the first word after which no word is an option.
fn first_ending(words: &[&str]) -> Option<usize>
    ensures place { result ≡ position (λ w. ends_options w.now) words.now }
    ensures within { IfSome result (λ n. n < length words.now) }
{
    words.iter().position(|word| ends_options(word))
}

/// Whether no word after this one is an option.
fn ends_options(word: &str) -> bool
    ensures { result ≡ ends_options word.now }
{
    word == "--" || is_kernel_name(word)
}

/// Whether the word names symbols of the kernel itself.
fn is_kernel_name(word: &str) -> bool
    ensures { result ≡ is_kernel_name word.now }
{
    word.as_bytes().starts_with(b"-:")
}
