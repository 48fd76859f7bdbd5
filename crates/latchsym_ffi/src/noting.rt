//! What C calls, of code that it knows of itself and notes to a follower.

ghost use Rattle.std.specs.Prelude.{◌≡◌, ◌≢◌};
ghost use Rattle.follower.specs.Following.{Followed, Notes, NotesGone};
ghost use Rattle.latchsym_ffi.specs.Following.{RefusesGone, RefusesNoting, code_in};
ghost use Rattle.latchsym_ffi.specs.Handles.{FollowerGoes, HoldsFollower, RefusesOther, Stays};
ghost use Rattle.latchsym_ffi.specs.Kinds.{follower_kind};

use crate::answers::{DONE, NOTHING};
use crate::calls::with_follower;
use crate::handles::Handle;
use follower::{Follower, NotedCode};
use std::alloc::Global;

/// Code that the caller knows of itself, as C hands it in.
#[repr(C)]
#[derive(Clone, Copy, Drop)]
pub struct CallerCode {
    /// Its first address.
    pub addr: u64,
    /// How many bytes it has.
    pub len: u64,
    pub name: &'static [u8],
    /// The name of what it belongs to.
    pub module: &'static [u8],
}

/// Notes code to a follower, and writes the generation from which on it is there.
fn note(
    alloc: Global,
    follower: &mut Follower<'static>,
    code: &CallerCode,
    since: u64,
    generation: &mut u64,
) -> u32
    ensures noted { result ≡ 0
        → Notes (code_in code.now) since follower.old follower.new generation.new }
    ensures unchanged { result ≢ 0 → (follower.new ≡ follower.old)
        × (generation.new ≡ generation.old) }
    ensures why { result ≢ 0 → RefusesNoting follower.old.writer result }
{
    let noted = NotedCode {
        start: code.addr,
        len: code.len,
        name: code.name,
        owner: code.module,
    };
    match follower.note(alloc, noted, since) {
        Ok(shown) => {
            *generation = shown;
            DONE
        }
        Err(refusal) => refusal.number(),
    }
}

/// Notes code to a follower: from the generation written on its addresses have its name, each of
/// just so many bytes.
#[unsafe(no_mangle)]
pub extern "C" fn latchsym_follower_note_nonnull(
    alloc: Global,
    follower: &mut Handle,
    code: &CallerCode,
    since: u64,
    generation: &mut u64,
) -> u32
    ensures noted { result ≡ 0 → FollowerGoes
        (λ f f'. Notes (code_in code.now) since f f' generation.new) follower.old follower.new }
    ensures refused { result ≢ 0 → Stays follower.old follower.new
        × (generation.new ≡ generation.old) }
    ensures why { (f : Followed) → HoldsFollower f follower.old → result ≢ 0
        → RefusesNoting f.writer result }
    ensures other { RefusesOther follower_kind follower.old follower.new generation.old
        generation.new result }
{
    with_follower!(follower, |open| note(alloc, open, code, since, generation))
}

/// Notes to a follower that code is gone, and writes the generation from which on it is.
fn note_gone(
    alloc: Global,
    follower: &mut Follower<'static>,
    addr: u64,
    since: u64,
    generation: &mut u64,
) -> u32
    ensures gone { result ≡ 0 → NotesGone addr since follower.old follower.new generation.new }
    ensures unchanged { result ≢ 0 → (follower.new ≡ follower.old)
        × (generation.new ≡ generation.old) }
    ensures why { result ≢ 0 → RefusesGone addr follower.old result }
{
    match follower.note_gone(alloc, addr, since) {
        Ok(Some(shown)) => {
            *generation = shown;
            DONE
        }
        Ok(None) => NOTHING,
        Err(refusal) => refusal.number(),
    }
}

/// Notes to a follower that the code which begins at an address is gone, of several the one noted
/// last. NOTHING if none begins there that was not gone already.
#[unsafe(no_mangle)]
pub extern "C" fn latchsym_follower_note_gone(
    alloc: Global,
    follower: &mut Handle,
    addr: u64,
    since: u64,
    generation: &mut u64,
) -> u32
    ensures gone { result ≡ 0 → FollowerGoes
        (λ f f'. NotesGone addr since f f' generation.new) follower.old follower.new }
    ensures refused { result ≢ 0 → Stays follower.old follower.new
        × (generation.new ≡ generation.old) }
    ensures why { (f : Followed) → HoldsFollower f follower.old → result ≢ 0
        → RefusesGone addr f result }
    ensures other { RefusesOther follower_kind follower.old follower.new generation.old
        generation.new result }
{
    with_follower!(
        follower,
        |open| note_gone(alloc, open, addr, since, generation)
    )
}
