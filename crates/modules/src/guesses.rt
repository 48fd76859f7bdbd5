//! Guesses at the places of addresses, made for several of them at once.
//!
//! A search through a million symbols waits for memory. Searches that take their steps by turns
//! wait together:
//!
//! ```text
//! address 1:  step . step . step .       each . waits for memory, and meanwhile
//! address 2:   step . step . step .      the next address asks for its own
//! address 3:    step . step . step .
//! ```
//!
//! If the addresses rise, each is sought among the few symbols from the place of the one before
//! it on: what lies near was brought near by the one before.
//!
//! Whoever uses a guess compares it with what lies there: no contract rests on it.

use crate::module::Module;
use crate::region_index::IndexedCatalog;

/// For how many addresses guesses are made at once.
pub(crate) const TURNS: usize = 16;

/// A region by its place among all regions, and how many symbols of its module are not above the
/// address.
#[derive(Clone, Copy, Drop)]
pub(crate) struct Guess {
    pub(crate) region: usize,
    pub(crate) place: usize,
}

impl Guess {
    const FIRST: Guess = Guess {
        region: 0,
        place: 0,
    };
}

/// The module of the region that was gone to last. The next address mostly lies in it, too.
#[derive(Drop)]
struct LastModule<'c, 'a> {
    region: usize,
    module: Option<&'c Module<'a>>,
}

impl<'c, 'a> LastModule<'c, 'a> {
    /// The module of the first region.
    fn first(catalog: &'c IndexedCatalog<'a>) -> LastModule<'c, 'a> {
        LastModule {
            region: 0,
            module: catalog.module_at(0),
        }
    }

    /// Goes to a region.
    #[inline(always)]
    fn go_to(&mut self, catalog: &'c IndexedCatalog<'a>, region: usize) {
        if region != self.region {
            self.region = region;
            self.module = catalog.module_at(region);
        }
    }
}

/// The first step of each search: reads from which place on the symbol is to be sought.
fn begin_all(guesses: &mut [Guess], catalog: &IndexedCatalog, addrs: &[u64]) {
    let mut last = LastModule::first(catalog);
    for (guess, addr) in guesses.iter_mut().zip(addrs) {
        let region = catalog.region_near(last.region, *addr);
        last.go_to(catalog, region);
        let place = last
            .module
            .map_or(0, |module| module.table().start_of(*addr));
        *guess = Guess { region, place };
    }
}

/// The second step of each: goes on to the symbol.
fn step_all(guesses: &mut [Guess], catalog: &IndexedCatalog, addrs: &[u64]) {
    let mut last = LastModule::first(catalog);
    for (guess, addr) in guesses.iter_mut().zip(addrs) {
        last.go_to(catalog, guess.region);
        let from = guess.place;
        guess.place = last
            .module
            .map_or(0, |module| module.table().place_from(from, *addr));
    }
}

/// The guess of an address, whose region is tried first if another guess has it.
fn guess_near(catalog: &IndexedCatalog, region: usize, addr: u64) -> Guess {
    let region = catalog.region_near(region, addr);
    let place = catalog
        .module_at(region)
        .map_or(0, |module| module.table().place_of(addr));
    Guess { region, place }
}

/// Guesses for the next addresses, and how many of these have been asked for; and the last guess,
/// if each is made from the one before it.
#[derive(Drop)]
pub(crate) struct Guesses {
    all: [Guess; TURNS],
    taken: usize,
    rising: bool,
    last: Guess,
}

impl Guesses {
    /// None are left of these.
    pub(crate) fn none() -> Guesses {
        Guesses {
            all: [Guess::FIRST; TURNS],
            taken: TURNS,
            rising: false,
            last: Guess::FIRST,
        }
    }

    /// Makes new guesses for these addresses, if none are left.
    pub(crate) fn renew(&mut self, catalog: &IndexedCatalog, addrs: &[u64]) {
        if self.taken < TURNS {
            return;
        }
        self.taken = 0;
        let addrs = &addrs[..addrs.len().min(TURNS)];
        self.rising = addrs.is_sorted_by(|x, y| x <= y);
        if !self.rising {
            begin_all(&mut self.all, catalog, addrs);
            step_all(&mut self.all, catalog, addrs);
        }
    }

    /// Whether the next ones rise.
    pub(crate) fn are_rising(&self) -> bool {
        self.rising
    }

    /// Leaves out the next.
    pub(crate) fn pass(&mut self) {
        self.taken = self.taken.saturating_add(1);
    }

    /// The next, which is of this address.
    pub(crate) fn next(&mut self, catalog: &IndexedCatalog, addr: u64) -> Guess {
        let place = self.taken;
        self.pass();
        if self.rising {
            self.last = guess_near(catalog, self.last.region, addr);
            return self.last;
        }
        match self.all.get(place) {
            Some(guess) => *guess,
            None => guess_near(catalog, 0, addr),
        }
    }

    /// The next, which is of this address: its place in the module, which has the region that the
    /// address before was found in.
    #[inline(always)]
    pub(crate) fn next_in(&mut self, module: &Module, addr: u64) -> usize {
        let place = self.taken;
        self.pass();
        if self.rising {
            self.last.place = module.table().next_place(self.last.place, addr);
            return self.last.place;
        }
        match self.all.get(place) {
            Some(guess) => guess.place,
            None => module.table().place_of(addr),
        }
    }
}
