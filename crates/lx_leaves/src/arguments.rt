//! Questions of arguments and of work.
//!
//! `param NAME place must` declares a parameter, which may be given by its place and must be given, also `key` and `may`;
//! `bindable` asks whether the parameters can be bound, `bind PLACED NAME ..` what is bound, and `spend UNITS` whether so
//! many units of work are left.

use crate::reading::{answer, answer_number, answer_truth, cut, words};
use lx_text::{List, NoMemory, Text, Word};
use lx_value::arguments::are_bindable;
use lx_value::{BindFault, Bound, Budget, Param, bind};
use std::alloc::Global;

/// What a case declared and spent.
#[derive(Drop)]
pub(crate) struct Case {
    params: List<Param>,
    budget: Budget,
}

impl Case {
    /// Nothing is declared, and nothing spent.
    pub(crate) fn new(alloc: Global) -> Case {
        Case {
            params: List::new(alloc),
            budget: Budget::new(),
        }
    }
}

/// Answers a question of arguments; false where it is none.
pub(crate) fn run(
    alloc: Global,
    key: &str,
    rest: &str,
    case: &mut Case,
    out: &mut Text,
) -> Result<bool, NoMemory> {
    match key {
        "param" => add_param(alloc, rest, &mut case.params),
        "bindable" => answer_truth(out, are_bindable(alloc, case.params.as_slice())?),
        "bind" => show_bound(alloc, rest, case.params.as_slice(), out),
        "spend" => show_spent(rest, &mut case.budget, out),
        _ => Ok(false),
    }
}

fn add_param(alloc: Global, rest: &str, params: &mut List<Param>) -> Result<bool, NoMemory> {
    let (name, rest) = cut(rest);
    let (by, need) = cut(rest);
    let name = Word::new(alloc, name.as_bytes())?;
    params.push(Param {
        name,
        by_place: by == "place",
        required: need == "must",
    })?;
    Ok(true)
}

fn show_bound(
    alloc: Global,
    rest: &str,
    params: &[Param],
    out: &mut Text,
) -> Result<bool, NoMemory> {
    let (placed, names) = cut(rest);
    let Ok(placed) = placed.parse::<usize>() else {
        return Ok(false);
    };
    if !are_bindable(alloc, params)? {
        return Ok(false);
    }
    let keys = words(alloc, names)?;
    match bind(alloc, params, placed, keys.as_slice()) {
        Ok(bounds) => show_bounds(bounds.as_slice(), out),
        Err(BindFault::WrongCount) => answer(out, b"wrong count"),
        Err(BindFault::NoMemory) => Err(NoMemory),
    }
}

fn show_bounds(bounds: &[Bound], out: &mut Text) -> Result<bool, NoMemory> {
    for bound in bounds {
        show_one(*bound, out)?;
    }
    Ok(true)
}

fn show_one(bound: Bound, out: &mut Text) -> Result<bool, NoMemory> {
    match bound {
        Bound::Placed(place) => {
            answer(out, b"place")?;
            answer_number(out, place as i128)
        }
        Bound::Key(place) => {
            answer(out, b"key")?;
            answer_number(out, place as i128)
        }
        Bound::Missing => answer(out, b"missing"),
    }
}

fn show_spent(rest: &str, budget: &mut Budget, out: &mut Text) -> Result<bool, NoMemory> {
    match rest.parse::<u64>() {
        Ok(units) => answer_truth(out, budget.spend(units)),
        Err(_) => Ok(false),
    }
}
