//! Numbers of banks and interrupts: the faults of stated numbers, and the least numbers.

ghost use Rattle.std.specs.Prelude.{◌≡◌, [], flat_map, map, slice_get, IsTrue, ◌↔◌};
ghost use Rattle.std.specs.List.{list_any};
ghost use Rattle.std.specs.Str.{bytes_eq};
ghost use Rattle.lx_alloc.specs.Judged.{Judged, each_pair};
ghost use Rattle.lx_alloc.specs.Numbers.{range_kind, taken_kind, exhausted_kind, range_faults, taken_faults, surplus_faults, event_faults, bank_faults, full_faults, irq_faults, all_bank_faults, AreDistinct};

use crate::origins::refusal;
use lx_fhdl::{BankWish, Fix};
use lx_text::{Kind, Refusal, Word};
use std::alloc::Global;

/// What is numbered.
#[derive(Clone, Copy)]
pub enum Counted {
    Interrupts,
    Banks,
}

// How many numbers there are.
const NUMBERS: u32 = 32;

// How many words a bank may have.
const BANK_WORDS: u32 = 512;

fn range_kind(counted: Counted, name: Word, number: u32) -> Kind
    ensures { result ≡ range_kind counted name number }
{
    match counted {
        Counted::Interrupts => Kind::IrqRange(name, number),
        Counted::Banks => Kind::BankRange(name, number),
    }
}

fn taken_kind(counted: Counted, number: u32, earlier: Word, later: Word) -> Kind
    ensures { result ≡ taken_kind counted number earlier later }
{
    match counted {
        Counted::Interrupts => Kind::IrqTaken(number, earlier, later),
        Counted::Banks => Kind::BankTaken(number, earlier, later),
    }
}

fn exhausted_kind(counted: Counted, count: u32) -> Kind
    ensures { result ≡ exhausted_kind counted count }
{
    match counted {
        Counted::Interrupts => Kind::IrqExhausted(count),
        Counted::Banks => Kind::BankExhausted(count),
    }
}

/// Whether two words are the same.
pub fn is_same(left: &Word, right: &Word) -> bool
    ensures { result ≡ bytes_eq left.now right.now }
{
    left.as_bytes() == right.as_bytes()
}

// A stated number that passes 31.
fn check_range(alloc: Global, counted: Counted, fix: &Fix) -> Result<(), Refusal>
    ensures { Judged (range_faults counted fix.now) result }
{
    match fix.number {
        Some(number) if number >= NUMBERS => {
            let name = fix.name.copied(alloc)?;
            Err(refusal(fix.line, range_kind(counted, name, number)))
        }
        _ => Ok(()),
    }
}

// All stated numbers, in declared order.
fn check_ranges(alloc: Global, counted: Counted, fixes: &[Fix]) -> Result<(), Refusal>
    ensures { Judged (flat_map (range_faults counted) fixes.now) result }
{
    for fix in fixes {
        check_range(alloc, counted, fix)?;
    }
    Ok(())
}

// A number that an earlier wish states too.
fn check_pair(alloc: Global, counted: Counted, later: &Fix, earlier: &Fix) -> Result<(), Refusal>
    ensures { Judged (taken_faults counted later.now earlier.now) result }
{
    match (later.number, earlier.number) {
        (Some(number), Some(other)) if number == other => {
            let first = earlier.name.copied(alloc)?;
            let second = later.name.copied(alloc)?;
            Err(refusal(later.line, taken_kind(counted, number, first, second)))
        }
        _ => Ok(()),
    }
}

// The pairs of a wish with those before it.
fn check_earlier(
    alloc: Global,
    counted: Counted,
    later: &Fix,
    before: &[Fix],
) -> Result<(), Refusal>
    ensures { Judged (flat_map (taken_faults counted later.now) before.now) result }
{
    for earlier in before {
        check_pair(alloc, counted, later, earlier)?;
    }
    Ok(())
}

// All pairs, by the later wish and then by the earlier.
fn check_pairs(alloc: Global, counted: Counted, fixes: &[Fix]) -> Result<(), Refusal>
    ensures { Judged (each_pair (taken_faults counted) [] fixes.now) result }
{
    for (i, fix) in fixes.iter().enumerate() {
        check_earlier(alloc, counted, fix, &fixes[..i])?;
    }
    Ok(())
}

// Whether a module that has an event manager has the name.
fn is_manager(managers: &[Word], name: &Word) -> bool
    ensures { result ≡ list_any (λ manager. bytes_eq manager name.now) managers.now }
{
    managers.iter().any(|manager| is_same(manager, name))
}

// Whether a bank has the name.
fn is_bank(banks: &[BankWish], name: &Word) -> bool
    ensures { result ≡ list_any (λ bank. bytes_eq bank.name name.now) banks.now }
{
    banks.iter().any(|bank| is_same(&bank.name, name))
}

// A wish for no module that has an event manager.
fn check_event(alloc: Global, managers: &[Word], fix: &Fix) -> Result<(), Refusal>
    ensures { Judged (event_faults managers.now fix.now) result }
{
    if is_manager(managers, &fix.name) {
        return Ok(());
    }
    let name = fix.name.copied(alloc)?;
    Err(refusal(fix.line, Kind::UnknownEvent(name)))
}

// All wishes for interrupts, in declared order.
fn check_events(alloc: Global, managers: &[Word], fixes: &[Fix]) -> Result<(), Refusal>
    ensures { Judged (flat_map (event_faults managers.now) fixes.now) result }
{
    for fix in fixes {
        check_event(alloc, managers, fix)?;
    }
    Ok(())
}

// A wish for no bank.
fn check_bank(alloc: Global, banks: &[BankWish], fix: &Fix) -> Result<(), Refusal>
    ensures { Judged (bank_faults banks.now fix.now) result }
{
    if is_bank(banks, &fix.name) {
        return Ok(());
    }
    let name = fix.name.copied(alloc)?;
    Err(refusal(fix.line, Kind::UnknownBank(name)))
}

// All wishes for numbers of banks, in declared order.
fn check_banks(alloc: Global, banks: &[BankWish], fixes: &[Fix]) -> Result<(), Refusal>
    ensures { Judged (flat_map (bank_faults banks.now) fixes.now) result }
{
    for fix in fixes {
        check_bank(alloc, banks, fix)?;
    }
    Ok(())
}

// A bank of more words than it has addresses for.
fn check_full(alloc: Global, bank: &BankWish) -> Result<(), Refusal>
    ensures { Judged (full_faults bank.now) result }
{
    if bank.words <= BANK_WORDS {
        return Ok(());
    }
    let name = bank.name.copied(alloc)?;
    Err(refusal(bank.line, Kind::BankFull(name, bank.words)))
}

// All banks, in declared order.
fn check_fulls(alloc: Global, banks: &[BankWish]) -> Result<(), Refusal>
    ensures { Judged (flat_map full_faults banks.now) result }
{
    for bank in banks {
        check_full(alloc, bank)?;
    }
    Ok(())
}

// More than 32 wishes: `line` is that of the 33rd.
fn check_count(counted: Counted, count: usize, line: Option<u32>) -> Result<(), Refusal>
    ensures { Judged (surplus_faults counted count line) result }
{
    match line {
        None => Ok(()),
        Some(line) => {
            let shown = count.min(u32::MAX as usize) as u32;
            Err(refusal(line, exhausted_kind(counted, shown)))
        }
    }
}

// The line of the 33rd interrupt.
fn surplus_irq(irqs: &[Fix]) -> Option<u32>
    ensures { result ≡ slice_get (map (λ irq. irq.line) irqs.now) 32 }
{
    if irqs.len() > NUMBERS as usize {
        Some(irqs[NUMBERS as usize].line)
    } else {
        None
    }
}

// The line of the 33rd bank.
fn surplus_bank(banks: &[BankWish]) -> Option<u32>
    ensures { result ≡ slice_get (map (λ bank. bank.line) banks.now) 32 }
{
    if banks.len() > NUMBERS as usize {
        Some(banks[NUMBERS as usize].line)
    } else {
        None
    }
}

/// The faults of interrupts: each over all wishes before the next.
pub fn check_irqs(alloc: Global, managers: &[Word], irqs: &[Fix]) -> Result<(), Refusal>
    ensures { Judged (irq_faults managers.now irqs.now) result }
{
    check_events(alloc, managers, irqs)?;
    check_ranges(alloc, Counted::Interrupts, irqs)?;
    check_pairs(alloc, Counted::Interrupts, irqs)?;
    check_count(Counted::Interrupts, irqs.len(), surplus_irq(irqs))?;
    Ok(())
}

/// The faults of banks, in the same way.
pub fn check_all_banks(alloc: Global, fixes: &[Fix], banks: &[BankWish]) -> Result<(), Refusal>
    ensures { Judged (all_bank_faults fixes.now banks.now) result }
{
    check_banks(alloc, banks, fixes)?;
    check_ranges(alloc, Counted::Banks, fixes)?;
    check_pairs(alloc, Counted::Banks, fixes)?;
    check_fulls(alloc, banks)?;
    check_count(Counted::Banks, banks.len(), surplus_bank(banks))?;
    Ok(())
}

/// Whether no two banks have one name.
pub fn are_distinct(banks: &[BankWish]) -> bool
    ensures { IsTrue result ↔ AreDistinct banks.now }
{
    for (i, bank) in banks.iter().enumerate() {
        if is_bank(&banks[..i], &bank.name) {
            return false;
        }
    }
    true
}
