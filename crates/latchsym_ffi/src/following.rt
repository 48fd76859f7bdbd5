//! What C calls, of followers: a table that follows a listing, and the catalogs that it showed.

ghost use Rattle.std.specs.Prelude.{◌≡◌, ◌≢◌, ◌⊎◌, [], Some};
ghost use Rattle.follower.specs.declared.catalogs.Moment.TheVariants.{Generation, Stamp};
ghost use Rattle.follower.specs.Catalogs.{DropsOldest};
ghost use Rattle.follower.specs.Following.{Followed, Shows};
ghost use Rattle.std.specs.Option.{option_copied};
ghost use Rattle.latchsym_ffi.specs.declared.finding.AddressUse.TheVariants.{AsItIs, AsReturn};
ghost use Rattle.latchsym_ffi.specs.Following.{FindsAt, ForgetsBy, IsToldOf, RefusesShowing};
ghost use Rattle.latchsym_ffi.specs.Following.{TellsTag, noted_as};
ghost use Rattle.latchsym_ffi.specs.HeldCatalogs.{HeldCatalog};
ghost use Rattle.latchsym_ffi.specs.Handles.{FollowerGoes, HoldsCatalog, HoldsFollower};
ghost use Rattle.latchsym_ffi.specs.Handles.{RefusesOther, Stays};
ghost use Rattle.latchsym_ffi.specs.Kinds.{catalog_kind, follower_kind};

use crate::answers::{BAD_STAMP, DONE, FORGOTTEN, NOTHING};
use crate::calls::{with_catalog, with_follower};
use crate::finding::{AddressUse, CatalogSymbol, name_places, seek_as};
use crate::handles::Handle;
use follower::{DatedCode, Follower, Moment, NotShown, NotedCode, SharedCatalog};

/// Shows a catalog, and writes the generation of its update.
fn show(
    follower: &mut Follower<'static>,
    catalog: &SharedCatalog<'static>,
    since: u64,
    tag: u64,
    generation: &mut u64,
) -> u32
    ensures shown { result ≡ 0
        → Shows catalog.now since tag follower.old follower.new generation.new }
    ensures unchanged { result ≢ 0 → (follower.new ≡ follower.old)
        × (generation.new ≡ generation.old) }
    ensures why { result ≢ 0 → RefusesShowing catalog.now since follower.old result }
{
    match follower.show(catalog, since, tag) {
        Ok(shown) => {
            *generation = shown;
            DONE
        }
        Err(NotShown::StampFalls) => BAD_STAMP,
        Err(NotShown::Refused(refusal)) => refusal.number(),
    }
}

/// Shows a catalog by the follower that a handle holds.
fn show_by(
    follower: &mut Handle,
    catalog: &SharedCatalog<'static>,
    since: u64,
    tag: u64,
    generation: &mut u64,
) -> u32
    ensures shown { result ≡ 0 → FollowerGoes
        (λ f f'. Shows catalog.now since tag f f' generation.new) follower.old follower.new }
    ensures held { result ≡ 0 → follower.old.kind ≡ follower_kind }
    ensures refused { result ≢ 0 → Stays follower.old follower.new
        × (generation.new ≡ generation.old) }
    ensures why { (f : Followed) → HoldsFollower f follower.old → result ≢ 0
        → RefusesShowing catalog.now since f result }
    ensures other { follower.old.kind ≢ follower_kind → result ≡ 101 }
{
    with_follower!(follower, |open| show(open, catalog, since, tag, generation))
}

/// Takes the content of a catalog's handle over into a follower, which shows its regions in one
/// update. A refusal leaves both handles as they were.
#[unsafe(no_mangle)]
pub extern "C" fn latchsym_follower_show(
    follower: &mut Handle,
    catalog: &mut Handle,
    since: u64,
    tag: u64,
    generation: &mut u64,
) -> u32
    ensures shown { (c : HeldCatalog) → HoldsCatalog c catalog.old → result ≡ 0
        → FollowerGoes (λ f f'. Shows c.entries since tag f f' generation.new) follower.old follower.new }
    ensures taken { result ≡ 0 → (follower.old.kind ≡ follower_kind)
        × (catalog.old.kind ≡ catalog_kind) × (catalog.new.kind ≡ 0) }
    ensures refused { result ≢ 0 → Stays follower.old follower.new
        × Stays catalog.old catalog.new × (generation.new ≡ generation.old) }
    ensures why { (f : Followed) → HoldsFollower f follower.old → (c : HeldCatalog)
        → HoldsCatalog c catalog.old → result ≢ 0 → RefusesShowing c.entries since f result }
    ensures other { (follower.old.kind ≢ follower_kind) ⊎ (catalog.old.kind ≢ catalog_kind)
        → result ≡ 101 }
{
    let result = with_catalog!(
        catalog,
        |open| show_by(follower, open.shared(), since, tag, generation)
    );
    if result == DONE {
        catalog.close();
    }
    result
}

/// The code that was noted and there at a moment, of an address or of the byte before a return
/// address.
fn noted_as<'f>(
    follower: &'f Follower<'static>,
    moment: Moment,
    taken: AddressUse,
    addr: u64,
) -> Option<&'f DatedCode<'static>>
    ensures { option_copied result ≡ noted_as taken follower.now.noted moment addr }
{
    match taken {
        AddressUse::AsItIs => follower.code_at(moment, addr),
        AddressUse::AsReturn => follower.code_at(moment, addr.checked_sub(1)?),
    }
}

/// Writes what is known of an address in noted code: a module of no catalog, and the places of the
/// caller's own names.
fn name_noted(code: &NotedCode<'static>, addr: u64, out: &mut CatalogSymbol) -> u32
    ensures { IsToldOf code.now addr result out.new }
{
    *out = CatalogSymbol {
        module_number: u64::MAX,
        offset: addr.saturating_sub(code.start),
        size: code.len,
        name: code.name,
        module: code.owner,
    };
    DONE
}

/// Looks an address up, or the call before it, at a moment: in the code that was noted, and else in
/// the current catalog.
#[inline(always)]
fn find_at(
    follower: &mut Handle,
    moment: Moment,
    taken: AddressUse,
    addr: u64,
    out: &mut CatalogSymbol,
) -> u32
    ensures { FindsAt moment taken addr follower.old follower.new result out.old out.new }
{
    with_follower!(follower, |open| match noted_as(open, moment, taken, addr) {
        Some(noted) => name_noted(&noted.code, addr, out),
        None => match open.catalog_at(moment) {
            Some(dated) => {
                let catalog = dated.catalog.indexed();
                name_places(catalog.catalog(), seek_as(taken, catalog, addr), out)
            }
            None => FORGOTTEN,
        },
    })
}

/// Looks an address up in what is current at a generation.
#[unsafe(no_mangle)]
pub extern "C" fn latchsym_follower_find(
    follower: &mut Handle,
    generation: u64,
    addr: u64,
    out: &mut CatalogSymbol,
) -> u32
    ensures { FindsAt (Generation generation) AsItIs addr follower.old follower.new result
        out.old out.new }
{
    find_at(
        follower,
        Moment::Generation(generation),
        AddressUse::AsItIs,
        addr,
        out,
    )
}

/// Looks a return address up in what is current at a generation.
#[unsafe(no_mangle)]
pub extern "C" fn latchsym_follower_find_caller(
    follower: &mut Handle,
    generation: u64,
    addr: u64,
    out: &mut CatalogSymbol,
) -> u32
    ensures { FindsAt (Generation generation) AsReturn addr follower.old follower.new result
        out.old out.new }
{
    find_at(
        follower,
        Moment::Generation(generation),
        AddressUse::AsReturn,
        addr,
        out,
    )
}

/// Looks an address up in what is current at a stamp.
#[unsafe(no_mangle)]
pub extern "C" fn latchsym_follower_find_since(
    follower: &mut Handle,
    at: u64,
    addr: u64,
    out: &mut CatalogSymbol,
) -> u32
    ensures { FindsAt (Stamp at) AsItIs addr follower.old follower.new result out.old out.new }
{
    find_at(follower, Moment::Stamp(at), AddressUse::AsItIs, addr, out)
}

/// Looks a return address up in what is current at a stamp.
#[unsafe(no_mangle)]
pub extern "C" fn latchsym_follower_find_caller_since(
    follower: &mut Handle,
    at: u64,
    addr: u64,
    out: &mut CatalogSymbol,
) -> u32
    ensures { FindsAt (Stamp at) AsReturn addr follower.old follower.new result out.old out.new }
{
    find_at(follower, Moment::Stamp(at), AddressUse::AsReturn, addr, out)
}

/// Writes the tag of a catalog that is gone; NOTHING if none is.
fn write_tag(gone: Option<u64>, tag: &mut u64) -> u32
    ensures { TellsTag gone result tag.old tag.new }
{
    match gone {
        Some(told) => {
            *tag = told;
            DONE
        }
        None => NOTHING,
    }
}

/// Forgets the oldest catalog if the next one was shown at or before a moment, and writes its tag.
fn forget_at(follower: &mut Handle, moment: Moment, tag: &mut u64) -> u32
    ensures { ForgetsBy moment follower.old follower.new result tag.old tag.new }
{
    with_follower!(follower, |open| write_tag(open.forget(moment), tag))
}

/// Forgets the oldest catalog if the next one was shown at or before a generation, and writes its
/// tag.
#[unsafe(no_mangle)]
pub extern "C" fn latchsym_follower_forget(
    follower: &mut Handle,
    generation: u64,
    tag: &mut u64,
) -> u32
    ensures { ForgetsBy (Generation generation) follower.old follower.new result tag.old tag.new }
{
    forget_at(follower, Moment::Generation(generation), tag)
}

/// Forgets the oldest catalog if the next one was shown at or before a stamp, and writes its tag.
#[unsafe(no_mangle)]
pub extern "C" fn latchsym_follower_forget_since(
    follower: &mut Handle,
    at: u64,
    tag: &mut u64,
) -> u32
    ensures { ForgetsBy (Stamp at) follower.old follower.new result tag.old tag.new }
{
    forget_at(follower, Moment::Stamp(at), tag)
}

/// Drops the oldest catalog and writes its tag; closes the handle if there is none.
#[unsafe(no_mangle)]
pub extern "C" fn latchsym_follower_close(follower: &mut Handle, tag: &mut u64) -> u32
    ensures dropped { result ≡ 0 → FollowerGoes (λ f f'. DropsOldest f.catalogs f'.catalogs
        (Some tag.new) × (f'.writer ≡ f.writer) × (f'.noted ≡ f.noted)) follower.old follower.new }
    ensures closed { (f : Followed) → HoldsFollower f follower.old → result ≢ 0
        → (result ≡ 22) × (f.catalogs ≡ []) × (follower.new.kind ≡ 0) × (tag.new ≡ tag.old) }
    ensures other { RefusesOther follower_kind follower.old follower.new tag.old tag.new result }
{
    let result = with_follower!(follower, |open| write_tag(open.drop_oldest(), tag));
    if result == NOTHING {
        follower.close();
    }
    result
}
