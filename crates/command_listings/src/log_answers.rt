//! The addresses of a log, answered by the catalog of listings.
ghost use Rattle.std.specs.Prelude.{◌≡◌, ◌++◌, codes, IfOk, option_and_then};
ghost use Rattle.modules.specs.Items.{item_of_address};
ghost use Rattle.listing.specs.AddressRules.{place_of};
ghost use Rattle.listing.specs.Answers.{text_of};
ghost use Rattle.command_listings.specs.LogAnswers.{answered_by, asks_place, begins_data};
ghost use Rattle.command_listings.specs.LogAnswers.{is_letter_of_data, reading_at};

use crate::log_aliases::is_alias_in;
use crate::log_index::LogIndex;
use listing::{AddressRule, Callers, LogRule, SymbolAnswer, answer_of, put_answer, sought};
use logs::{Answers, NamedReadings};
use modules::{FoundSymbol, IndexedCatalog, symbol_of};
use order_laws::Item;
use std::alloc::{AllocError, Global};
use texts::Output;

/// What the addresses of a log are answered by.
#[derive(Drop)]
pub struct CatalogAnswers<'i, 'c> {
    pub alloc: Global,
    /// The catalog of the listings.
    pub index: LogIndex<'i, 'c>,
    /// How the addresses are taken.
    pub rule: LogRule,
    /// Whether the log is of a 32-bit kernel.
    pub is_narrow: bool,
}

impl<'i, 'c> Answers for CatalogAnswers<'i, 'c> {
    ghost answering = { λ a. answered_by a.index a.rule a.is_narrow };

    fn is_narrow(&self) -> bool {
        self.is_narrow
    }

    fn prepare(&mut self, is_silent: bool) -> Result<(), AllocError> {
        self.index.prepare(self.alloc, is_silent)
    }

    fn text_of(&self, is_caller: bool, addr: u64) -> Result<Option<Vec<u8>>, AllocError> {
        let rule = self.rule.rule_at(is_caller);
        let item = self.item_of(rule, addr);
        let answer = answer_of(self.index.catalog(), rule, item, addr);
        if answer.is_nothing() {
            return Ok(None);
        }
        Ok(Some(inserted_text(self.alloc, &answer)?))
    }

    #[tactic(auto, using(crate::proofs::FilterLemmas::no_alias))]
    fn named_readings(&self, addr: u64, name: &[u8]) -> NamedReadings {
        if !self.index.may_be_name(name) {
            return NamedReadings {
                as_caller: false,
                as_it_is: false,
            };
        }
        NamedReadings {
            as_caller: self.is_alias(true, addr, name),
            as_it_is: self.is_alias(false, addr, name),
        }
    }

    fn is_alias(&self, is_caller: bool, addr: u64, name: &[u8]) -> bool {
        let rule = reading_at(self.rule, is_caller);
        match sought(rule, self.item_of(rule, addr), addr) {
            Some((item, place)) => is_alias_in(self.index.catalog(), item, place, name),
            None => false,
        }
    }

    fn is_offset(&self, is_caller: bool, addr: u64, offset: u64) -> bool {
        let rule = reading_at(self.rule, is_caller);
        let item = self.item_of(rule, addr);
        match answer_of(self.index.catalog(), rule, item, addr).found {
            Some(found) => found.offset == offset,
            None => false,
        }
    }

    fn is_data(&self, addr: u64) -> bool {
        if !asks_place(self.rule.callers) {
            return false;
        }
        let rule = reading_at(self.rule, false);
        match sought(rule, self.item_of(rule, addr), addr) {
            Some((item, place)) => match symbol_of(self.index.catalog(), item, place) {
                Some(found) => begins_data(&found),
                None => false,
            },
            None => false,
        }
    }

    fn has_size(&self, name: &[u8], size: u64) -> Result<Option<bool>, AllocError> {
        Ok(self.index.has_size(name, size))
    }

    fn is_in_range(&self, addr: u64) -> bool {
        match reading_at(self.rule, false).place_of(addr) {
            Some(place) => self.index.reaches(place),
            None => false,
        }
    }
}

/// Whether the place of an address in its line is asked how it is taken.
fn asks_place(callers: Callers) -> bool
    ensures { result ≡ asks_place callers }
{
    match callers {
        Callers::ByPlace => true,
        Callers::Every | Callers::Never => false,
    }
}

/// Whether a letter is one of data.
fn is_letter_of_data(letter: u8) -> bool
    ensures { result ≡ is_letter_of_data letter }
{
    matches!(letter, b'b' | b'B' | b'd' | b'D' | b'r' | b'R')
}

/// Whether the symbol found begins at an address, and is data.
fn begins_data(found: &FoundSymbol) -> bool
    ensures { result ≡ begins_data found.now }
{
    found.offset == 0 && is_letter_of_data(found.symbol.letter())
}

/// How a reading of an address is looked up, that as a caller's or that as it is.
fn reading_at(rule: LogRule, is_caller: bool) -> AddressRule
    ensures { result ≡ reading_at rule is_caller }
{
    AddressRule {
        callers: is_caller,
        offset: rule.offset,
    }
}

impl<'i, 'c> CatalogAnswers<'i, 'c> {
    /// The answers of a catalog, by this rule, for a log of a 32-bit kernel or of another one.
    pub fn new(
        alloc: Global,
        index: &'i IndexedCatalog<'c>,
        rule: LogRule,
        is_narrow: bool,
    ) -> CatalogAnswers<'i, 'c>
        ensures index { result.index ≡ index.now }
        ensures rule { result.rule ≡ rule }
        ensures narrow { result.is_narrow ≡ is_narrow }
    {
        CatalogAnswers {
            alloc,
            index: LogIndex::new(index),
            rule,
            is_narrow,
        }
    }

    /// The region that holds the address that the rule looks up.
    fn item_of(&self, rule: AddressRule, addr: u64) -> Option<Item>
        ensures { result
            ≡ option_and_then (item_of_address self.now.index) (place_of rule addr) }
    {
        self.index.find(rule.place_of(addr)?)
    }
}

/// The room that is taken for a text at once. Most texts fit in it.
const ROOM: usize = 64;

/// A blank and the text of an answer.
fn inserted_text(alloc: Global, answer: &SymbolAnswer) -> Result<Vec<u8>, AllocError>
    ensures { IfOk result (λ text. text.items ≡ codes " " ++ text_of answer.now) }
{
    let room = Vec::with_capacity(alloc, ROOM)?;
    let mut text = Output::new(alloc, room);
    text.put(b" ");
    put_answer(&mut text, answer);
    let Some(text) = text.finish() else {
        return Err(AllocError);
    };
    Ok(text)
}
