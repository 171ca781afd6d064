//! The passes and the banks of shards that ended, and the books of their engines.
ghost use Rattle.std.specs.Prelude.{◌≡◌, ℕ, ◌<◌, ◌≤◌, ◌∷◌, Some, length, option_map, slice_get};
ghost use Rattle.search_engine.specs.Engine.{EngineState};
ghost use Rattle.session_readers.specs.declared.bank.Bank.{Bank as Engines};
ghost use Rattle.session_readers.specs.Banks.{HasEngine, engines_of};
ghost use Rattle.search_session.specs.Books.{HasBank, HaveEngines, book_at, GivesFirst, FirstsGiven, AreBooks, transfers_searched, passes_of, banks_of};

use arrayvec::ArrayVec;
use candidate_book::Book;
use dada_hdu::HduEnded;
use ring_words::MOST_READERS;
use search_engine::Engine;
use search_model::{MOST_SHARDS, MOST_TRANSFERS};
use session_readers::{Bank, ShardActor};

// The pass and the bank of a slot.
fn both_of(slot: Option<ShardActor>) -> (Option<HduEnded>, Option<Bank>)
    ensures pass { result.0 ≡ option_map (λ x. x.pass) slot }
    ensures bank { result.1 ≡ option_map (λ x. x.part) slot }
{
    match slot {
        Some(shard) => {
            let ShardActor { part, pass, .. } = shard;
            (Some(pass), Some(part))
        }
        None => (None, None),
    }
}

// The passes and the banks of shards, at their places.
pub(crate) fn part_shards(
    mut shards: ArrayVec<Option<ShardActor>, MOST_SHARDS>,
) -> (
    ArrayVec<Option<HduEnded>, MOST_READERS>,
    ArrayVec<Option<Bank>, MOST_SHARDS>,
)
    ensures passes { result.0.items ≡ passes_of shards.items }
    ensures banks { result.1.items ≡ banks_of shards.items }
{
    let mut passes = ArrayVec::new();
    let mut banks = ArrayVec::new();
    for _place in 0..shards.len() {
        let (pass, bank) = both_of(shards.remove(0));
        passes.push(pass);
        banks.push(bank);
    }
    (passes, banks)
}

// How many spectra the engine of a slot searched.
fn spectra_at(slot: &Option<Engine>) -> u64
    ensures { (e : EngineState) → slot.now ≡ Some e → result ≡ e.sums.carry.fed }
{
    match slot {
        Some(engine) => engine.spectra(),
        None => 0,
    }
}

// How many spectra each engine of the first bank searched.
pub(crate) fn spectra_of(banks: &[Option<Bank>]) -> ArrayVec<u64, MOST_TRANSFERS>
    ensures count { (transfers : ℕ) → HaveEngines transfers banks.now
        → length result.items ≡ transfers_searched (length banks.now) transfers }
    ensures each { (k : ℕ) (bank : Engines) (e : EngineState) → HasBank banks.now 0 bank
        → HasEngine (engines_of bank) k e
        → slice_get result.items k ≡ Some e.sums.carry.fed }
{
    let mut spectra = ArrayVec::new();
    let Some(Some(bank)) = banks.first() else {
        return spectra;
    };
    for k in 0..bank.count() {
        spectra.push(spectra_at(&bank.engines.as_slice()[k]));
    }
    spectra
}

// Takes the first engine out of a bank.
fn first_of(bank: &mut Bank) -> Option<Engine>
    ensures { (slot : _) (rest : _) → engines_of bank.old ≡ slot ∷ rest
        → (result ≡ slot) × (engines_of bank.new ≡ rest) }
{
    match bank.engines.pop_at(0) {
        Some(slot) => slot,
        None => None,
    }
}

// The book of an engine.
fn book_of(slot: Option<Engine>) -> Option<Book>
    ensures { result ≡ book_at slot }
{
    match slot {
        Some(engine) => Some(engine.into_book()),
        None => None,
    }
}

// Takes the first engine out of a bank, and answers its book.
fn take_first(slot: &mut Option<Bank>) -> Option<Book>
    ensures { GivesFirst slot.old result slot.new }
{
    let Some(bank) = slot else { return None };
    book_of(first_of(bank))
}

// Takes the first engine out of each bank, and answers their books.
fn take_firsts(banks: &mut [Option<Bank>]) -> ArrayVec<Option<Book>, MOST_SHARDS>
    requires { length banks.old ≤ 7 }
    ensures { FirstsGiven (length banks.old) banks.old result.items banks.new }
{
    let mut row = ArrayVec::new();
    for s in 0..banks.len() {
        row.push(take_first(&mut banks[s]));
    }
    row
}

// How many transfers the banks search.
fn transfers_of(banks: &[Option<Bank>]) -> usize
    ensures most { result ≤ 8 }
    ensures all { (transfers : ℕ) → HaveEngines transfers banks.now
        → result ≡ transfers_searched (length banks.now) transfers }
{
    match banks.first() {
        Some(Some(bank)) => bank.count(),
        _ => 0,
    }
}

// The books of all engines, by transfer and then by shard.
pub(crate) fn books_of(
    mut banks: ArrayVec<Option<Bank>, MOST_SHARDS>,
) -> ArrayVec<ArrayVec<Option<Book>, MOST_SHARDS>, MOST_TRANSFERS>
    requires { (transfers : ℕ) × HaveEngines transfers banks.items }
    ensures { (transfers : ℕ) → HaveEngines transfers banks.items
        → AreBooks transfers banks.items result.items }
{
    let mut books = ArrayVec::new();
    for _transfer in 0..transfers_of(banks.as_slice()) {
        books.push(take_firsts(banks.as_mut_slice()));
    }
    books
}
