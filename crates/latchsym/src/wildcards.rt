//! What is said of names with `*` or `?` if none of the names that are asked for has a symbol: a
//! shell's patterns are no names.
ghost use Rattle.std.specs.Prelude.{◌≡◌, find, map, option_map};
ghost use Rattle.texts.specs.Output.{Says};
ghost use Rattle.latchsym.specs.Wildcards.{IsWildcardNoted, asked_by, asked_in, has_wildcard};
ghost use Rattle.latchsym.specs.Wildcards.{wildcard_in, wildcard_line};

use command_line::{Job, Subcommand};
use command_listings::put_note_head;
use command_parts::FAILED;
use std::io::Write;
use texts::Output;

const NO_WILDCARDS: &[u8] = b"is no name; * and ? stand for themselves\n";

/// Says so of the first such name, if a job with this status has found none of its names.
pub fn note_wildcard<W: Write>(status: u8, job: &Job<'_>, writer: &mut Output<W>)
    ensures { IsWildcardNoted W.contents writer.old writer.new (wildcard_in status job.now) }
{
    match wildcard_in(status, job) {
        Some(name) => put_wildcard_note(writer, name),
        None => {}
    }
}

fn put_wildcard_note<W: Write>(writer: &mut Output<W>, name: &str)
    ensures { Says W.contents writer.old writer.new (wildcard_line name.now) }
{
    put_note_head(writer, name.as_bytes());
    writer.put(NO_WILDCARDS);
}

/// The first name with `*` or `?` of a job that has found none of its names.
fn wildcard_in<'a>(status: u8, job: &Job<'a>) -> Option<&'a str>
    ensures { option_map (λ n. n.now) result ≡ wildcard_in status job.now }
{
    if status == FAILED {
        first_with_wildcard(asked_in(job))
    } else {
        None
    }
}

/// The names whose addresses a job asks for.
fn asked_in<'j, 'a>(job: &'j Job<'a>) -> &'j [&'a str]
    ensures { map (λ n. n.now) result.now ≡ asked_in job.now }
{
    match job {
        Job::Request(request) => asked_by(&request.subcommand),
        Job::Trace { .. } | Job::Steps { .. } => &[],
    }
}

/// The names whose addresses a subcommand asks for.
fn asked_by<'s, 'a>(subcommand: &'s Subcommand<'a>) -> &'s [&'a str]
    ensures { map (λ n. n.now) result.now ≡ asked_by subcommand.now }
{
    match subcommand {
        Subcommand::Address(address) => address.names.as_slice(),
        _ => &[],
    }
}

/// The first of these names that has `*` or `?`.
fn first_with_wildcard<'a>(names: &[&'a str]) -> Option<&'a str>
    ensures { option_map (λ n. n.now) result ≡ find has_wildcard (map (λ n. n.now) names.now) }
{
    let mut rest = names;
    while let [name, more @ ..] = rest {
        if has_wildcard(name) {
            return Some(*name);
        }
        rest = more;
    }
    None
}

/// Whether a name has `*` or `?`.
fn has_wildcard(name: &str) -> bool
    ensures { result ≡ has_wildcard name.now }
{
    let bytes = name.as_bytes();
    bytes.contains(&b'*') || bytes.contains(&b'?')
}
