//! The least numbers of banks and interrupts: stated ones stand, and each other one is the lowest that is free.

ghost use Rattle.std.specs.Prelude.{◌≡◌, ℕ, ◌<◌, ◌≤◌, ◌++◌, ◌∷◌, [], map, length, IfOk, IsTrue, ◌↔◌};
ghost use Rattle.lx_alloc.specs.Numbers.{number_of, AreLeast, AreNumbered, CanStand, IsPart, IsUsed, IsLowestFree, IsStated, IsGiven};

use crate::numbers::is_same;
use lx_fhdl::{BankWish, Fix, Numbered};
use lx_text::{List, NoMemory, Word};
use std::alloc::Global;

// How many numbers there are.
const NUMBERS: u32 = 32;

// Whether the number is stated for one of the wishes.
fn is_stated(wished: &[Option<u32>], number: u32) -> bool
    ensures { IsTrue result ↔ IsStated wished.now number }
{
    for wish in wished {
        if let Some(stated) = wish {
            if *stated == number {
                return true;
            }
        }
    }
    false
}

// Whether the number is one of those that were given.
fn is_given(numbers: &[u32], number: u32) -> bool
    ensures { IsTrue result ↔ IsGiven (length numbers.now) numbers.now number }
{
    for given in numbers {
        if *given == number {
            return true;
        }
    }
    false
}

// Whether the number is stated or was given.
fn is_used(wished: &[Option<u32>], numbers: &[u32], number: u32) -> bool
    ensures { IsTrue result ↔ IsUsed wished.now numbers.now number }
{
    is_stated(wished, number) || is_given(numbers, number)
}

// The lowest number that is neither stated nor was given.
fn lowest_free(wished: &[Option<u32>], numbers: &[u32]) -> u32
    requires { ((n : ℕ) → n < 32 → IsUsed wished.now numbers.now n) → ⊥ }
    ensures { IsLowestFree wished.now numbers.now result }
{
    for number in 0..NUMBERS {
        if !is_used(wished, numbers, number) {
            return number;
        }
    }
    unreachable!()
}

// The number of the first wish that has none yet.
fn next_number(wished: &[Option<u32>], numbers: &[u32]) -> u32
    requires stand { CanStand wished.now }
    requires part { IsPart wished.now numbers.now }
    requires more { length numbers.now < length wished.now }
    ensures { IsPart wished.now (numbers.now ++ result ∷ []) }
{
    match wished[numbers.len()] {
        Some(number) => number,
        None => lowest_free(wished, numbers),
    }
}

// The least numbers of all wishes.
fn least_numbers(alloc: Global, wished: &[Option<u32>]) -> Result<Vec<u32>, NoMemory>
    requires { CanStand wished.now }
    ensures { IfOk result (λ numbers. AreLeast wished.now numbers.items) }
{
    let mut numbers = Vec::new(alloc);
    while numbers.len() < wished.len() {
        let number = next_number(wished, &numbers);
        numbers.push(number)?;
    }
    Ok(numbers)
}

fn numbered(alloc: Global, name: &Word, number: u32) -> Result<Numbered, NoMemory>
    ensures { IfOk result (λ given. given ≡ record { name = name.now; number = number }) }
{
    Ok(Numbered {
        name: name.copied(alloc)?,
        number,
    })
}

// The numbers that interrupts state.
fn irq_numbers(alloc: Global, irqs: &[Fix]) -> Result<Vec<Option<u32>>, NoMemory>
    ensures { IfOk result (λ wished. wished.items ≡ map (λ irq. irq.number) irqs.now) }
{
    let mut wished = Vec::new(alloc);
    for irq in irqs {
        wished.push(irq.number)?;
    }
    Ok(wished)
}

// The number that is stated for a name.
fn number_of(fixes: &[Fix], name: &Word) -> Option<u32>
    ensures { result ≡ number_of fixes.now name.now }
{
    for fix in fixes {
        if is_same(&fix.name, name) {
            return fix.number;
        }
    }
    None
}

// The numbers that are stated for banks.
fn bank_numbers(
    alloc: Global,
    fixes: &[Fix],
    banks: &[BankWish],
) -> Result<Vec<Option<u32>>, NoMemory>
    ensures { IfOk result (λ wished. wished.items ≡ map (λ bank. number_of fixes.now bank.name) banks.now) }
{
    let mut wished = Vec::new(alloc);
    for bank in banks {
        wished.push(number_of(fixes, &bank.name))?;
    }
    Ok(wished)
}

/// The interrupts with their least numbers.
pub fn number_irqs(alloc: Global, irqs: &[Fix]) -> Result<List<Numbered>, NoMemory>
    requires { CanStand (map (λ irq. irq.number) irqs.now) }
    ensures { IfOk result (AreNumbered (map (λ irq. irq.name) irqs.now) (map (λ irq. irq.number) irqs.now)) }
{
    let wished = irq_numbers(alloc, irqs)?;
    let numbers = least_numbers(alloc, &wished)?;
    let mut given = List::new(alloc);
    for (i, irq) in irqs.iter().enumerate() {
        given.push(numbered(alloc, &irq.name, numbers[i])?)?;
    }
    Ok(given)
}

/// The banks with their least numbers.
pub fn number_banks(
    alloc: Global,
    fixes: &[Fix],
    banks: &[BankWish],
) -> Result<List<Numbered>, NoMemory>
    requires { CanStand (map (λ bank. number_of fixes.now bank.name) banks.now) }
    ensures { IfOk result
        (AreNumbered (map (λ bank. bank.name) banks.now) (map (λ bank. number_of fixes.now bank.name) banks.now)) }
{
    let wished = bank_numbers(alloc, fixes, banks)?;
    let numbers = least_numbers(alloc, &wished)?;
    let mut given = List::new(alloc);
    for (i, bank) in banks.iter().enumerate() {
        given.push(numbered(alloc, &bank.name, numbers[i])?)?;
    }
    Ok(given)
}
