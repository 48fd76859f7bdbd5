//! Which lines of the listing of modules are accepted.

ghost use Rattle.std.specs.Prelude.{◌≡◌, ℕ, Bool, ◌+◌, ◌-◌, ◌*◌, ◌<◌, ◌^◌, ◌&&◌, true, All};
ghost use Rattle.std.specs.Prelude.{length, IfOk, OnOk};
ghost use Rattle.std.specs.List.{list_all};
ghost use Rattle.modules.specs.Lines.{fits, region_fits};
ghost use Rattle.modules.specs.Accepted.{none_yet, after_module, accepted_of};
ghost use Rattle.modules.specs.Admissions.{admission_view, IsAdmission};
ghost use Rattle.modules.specs.Regions.{is_apart, are_beside, lie_apart};

use crate::lines::ModuleLine;
use crate::placed_modules::PlacedModules;
use crate::placing::{PlacedModule, RegionLines};
use crate::regions::{Region, Regions, is_apart_from};
use std::alloc::{AllocError, Global};

/// The modules accepted so far, and how many lines were not.
#[derive(Drop)]
pub(crate) struct Admission<'a> {
    /// The regions of the kernel itself, and the accepted modules in the order of their lines.
    pub(crate) accepted: PlacedModules<'a>,
    /// The regions that a further module's have to lie apart from.
    taken: Regions,
    /// How many lines have the name of an accepted one.
    pub(crate) double: u64,
    /// How many others have regions that meet each other or a region that is taken.
    pub(crate) overlap: u64,
}

/// Whether no two of the regions have an address in common.
fn lie_apart(regions: &[Region]) -> bool
    ensures { result ≡ lie_apart regions.now }
{
    match regions {
        [] => true,
        [first, rest @ ..] => is_apart_from(*first, rest) && lie_apart(rest),
    }
}

/// Whether no address lies in one of these regions and in one that is taken.
fn are_beside(taken: &Regions, regions: &[Region]) -> bool
    ensures { result ≡ are_beside taken.now regions.now }
{
    regions.iter().all(|region| taken.is_apart(*region))
}

/// Takes the regions in, each after the others.
fn take_all(taken: &mut Regions, regions: &[Region]) -> Result<(), AllocError>
    requires apart { lie_apart regions.now ≡ true }
    requires beside { are_beside taken.old regions.now ≡ true }
    ensures { OnOk result ((p : ℕ × ℕ → Bool)
        → list_all p taken.new ≡ (list_all p taken.old && list_all p regions.now)) }
{
    for region in regions {
        taken.insert(*region)?;
    }
    Ok(())
}

impl<'a> Admission<'a> {
    #[tactic(auto, using(crate::proofs::SoundnessLemmas::none_beside))]
    fn new(alloc: Global, built_in: Vec<Region>) -> Result<Admission<'a>, AllocError>
        requires { lie_apart built_in.items ≡ true }
        ensures none { IfOk result (λ a. admission_view a ≡ none_yet built_in.items) }
        ensures tied { IfOk result IsAdmission }
    {
        let mut taken = Regions::new(alloc);
        take_all(&mut taken, built_in.as_slice())?;
        Ok(Admission {
            accepted: PlacedModules::new(alloc, built_in),
            taken,
            double: 0,
            overlap: 0,
        })
    }

    /// Accepts the module, or counts why it is not accepted.
    #[tactic(auto, using(crate::proofs::AdmissionLemmas::after_line))]
    fn take_module(&mut self, placed: PlacedModule<'a>) -> Result<(), AllocError>
        requires tied { IsAdmission self.old }
        requires counts { self.old.double + self.old.overlap + 1 < 2 ^ 64 }
        ensures after { OnOk result
            (admission_view self.new ≡ after_module (admission_view self.old) placed.entry) }
        ensures tied { OnOk result (IsAdmission self.new) }
    {
        if self.accepted.has(placed.name) {
            self.double += 1;
            return Ok(());
        }
        let regions = placed.regions.as_slice();
        if !(lie_apart(regions) && are_beside(&self.taken, regions)) {
            self.overlap += 1;
            return Ok(());
        }
        take_all(&mut self.taken, regions)?;
        self.accepted.push(placed)?;
        Ok(())
    }
}

/// Goes through the lines in their order, each at the regions of its module.
pub(crate) fn admit<'a>(
    alloc: Global,
    built_in: Vec<Region>,
    regions: &RegionLines<'_, 'a>,
    lines: &[ModuleLine<'a>],
) -> Result<Admission<'a>, AllocError>
    requires apart { lie_apart built_in.items ≡ true }
    requires fit { All (λ l. fits l ≡ true) lines.now }
    requires regions_fit { All (λ l. region_fits l ≡ true) regions.now }
    ensures admitted { IfOk result
        (λ a. admission_view a ≡ accepted_of built_in.items regions.now lines.now) }
    ensures tied { IfOk result IsAdmission }
    ensures short { IfOk result (λ _. 7 * length lines.now < 2 ^ 64 - 2) }
{
    let mut admission = Admission::new(alloc, built_in)?;
    for line in lines {
        admission.take_module(regions.place(alloc, line)?)?;
    }
    Ok(admission)
}
