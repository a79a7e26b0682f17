//! The binding of a call's arguments to the parameters of what is called.

ghost use Rattle.std.specs.Prelude.{◌≡◌, [], ◌<◌, ◌&&◌, ◌||◌, IsTrue, IfOk, length, count_by, map, position, not, ◌==◌};
ghost use Rattle.std.specs.List.{list_any, enumerate_from};
ghost use Rattle.lx_value.specs.Arguments.{AreGiven, AreKnown, Binds, are_places_first, are_names_distinct, is_wrong_count, is_known, is_named, is_miscounted, bound_of, bound_by_key, bounds_of, places};
ghost use Rattle.lx_value.specs.Seen.{are_new};

use crate::seen::Seen;
use lx_text::{List, NoMemory, Word};
use std::alloc::{AllocError, Global};

/// A parameter of what is called.
#[derive(Drop)]
pub struct Param {
    /// The name by which an argument may be given.
    pub name: Word,
    /// Whether an argument without a name may be given.
    pub by_place: bool,
    /// Whether an argument must be given.
    pub required: bool,
}

/// The argument that a parameter gets.
#[derive(Clone, Copy, PartialEq, Eq)]
pub enum Bound {
    /// The argument without a name at this place.
    Placed(usize),
    /// The argument with a name at this place of the names.
    Key(usize),
    /// None is given.
    Missing,
}

/// Why arguments are not bound.
#[derive(Clone, Copy, PartialEq, Eq)]
pub enum BindFault {
    /// The number or a name of the arguments is wrong.
    WrongCount,
    NoMemory,
}

impl From<AllocError> for BindFault {
    ghost use Rattle.std.specs.Prelude.{◌≡◌};
    ghost use Rattle.lx_value.specs.declared.arguments.BindFault.TheVariants as fault;

    ghost from_gives = { λ _ given. given ≡ fault.NoMemory };

    fn from(_error: AllocError) -> BindFault {
        BindFault::NoMemory
    }
}

impl From<NoMemory> for BindFault {
    ghost use Rattle.std.specs.Prelude.{◌≡◌};
    ghost use Rattle.lx_value.specs.declared.arguments.BindFault.TheVariants as fault;

    ghost from_gives = { λ _ given. given ≡ fault.NoMemory };

    fn from(_error: NoMemory) -> BindFault {
        BindFault::NoMemory
    }
}

/// Binds arguments to parameters: `placed` arguments without a name, and one with a name for each
/// key. It gives one `Bound` for each parameter, in their order.
///
/// It is `WrongCount` exactly where more are placed than parameters take a place, a key is no
/// parameter's name, a parameter has two arguments, or a required one has none.
#[tactic(auto, using(crate::proofs::Binding::twice_is_wrong))]
pub fn bind(
    alloc: Global,
    params: &[Param],
    placed: usize,
    keys: &[Word],
) -> Result<List<Bound>, BindFault>
    requires places { IsTrue (are_places_first params.now) }
    requires names { IsTrue (are_names_distinct params.now) }
    ensures { Binds params.now placed keys.now result }
{
    match given_names(alloc, keys)? {
        Some(given) => bind_given(alloc, params, placed, keys, &given),
        None => Err(BindFault::WrongCount),
    }
}

// Binds arguments whose names are given, none twice.
fn bind_given(
    alloc: Global,
    params: &[Param],
    placed: usize,
    keys: &[Word],
    given: &Seen,
) -> Result<List<Bound>, BindFault>
    requires names { given.now ≡ keys.now }
    requires distinct { IsTrue (are_new [] keys.now) }
    ensures { Binds params.now placed keys.now result }
{
    if is_wrong_count(alloc, params, placed, keys, given)? {
        return Err(BindFault::WrongCount);
    }
    let bounds = all_arguments(alloc, params, placed, given)?;
    Ok(List::from_vec(bounds))
}

/// Whether the parameters that take a place come first, and no two have one name.
pub fn are_bindable(alloc: Global, params: &[Param]) -> Result<bool, NoMemory>
    ensures { IfOk result (λ bindable. bindable ≡ (are_places_first params.now && are_names_distinct params.now)) }
{
    if have_places_first(params) {
        have_distinct_names(alloc, params)
    } else {
        Ok(false)
    }
}

fn have_places_first(params: &[Param]) -> bool
    ensures { result ≡ are_places_first params.now }
{
    params
        .iter()
        .skip(places(params))
        .all(|param| !param.by_place)
}

fn have_distinct_names(alloc: Global, params: &[Param]) -> Result<bool, NoMemory>
    ensures { IfOk result (λ distinct. distinct ≡ are_names_distinct params.now) }
{
    let mut seen = Seen::new(alloc);
    for param in params {
        if !seen.add(param.name.as_bytes())? {
            return Ok(false);
        }
    }
    Ok(true)
}

// The names of the arguments that have one, where none stands twice.
fn given_names(alloc: Global, keys: &[Word]) -> Result<Option<Seen>, NoMemory>
    ensures { IfOk result (AreGiven keys.now) }
{
    let mut given = Seen::new(alloc);
    for key in keys {
        if !given.add(key.as_bytes())? {
            return Ok(None);
        }
    }
    Ok(Some(given))
}

// The names of parameters.
fn known_names(alloc: Global, params: &[Param]) -> Result<Seen, NoMemory>
    ensures { IfOk result (AreKnown params.now) }
{
    let mut known = Seen::new(alloc);
    for param in params {
        known.add(param.name.as_bytes())?;
    }
    Ok(known)
}

// Whether the number or a name of the arguments is wrong, whose names are given.
#[tactic(auto, unfolding(crate::specs::Arguments::is_wrong_count))]
fn is_wrong_count(
    alloc: Global,
    params: &[Param],
    placed: usize,
    keys: &[Word],
    given: &Seen,
) -> Result<bool, NoMemory>
    requires names { given.now ≡ keys.now }
    requires distinct { IsTrue (are_new [] keys.now) }
    ensures { IfOk result (λ wrong. wrong ≡ is_wrong_count params.now placed keys.now) }
{
    Ok(
        placed > places(params)
            || has_miscounted(params, placed, given)
            || has_unknown(alloc, params, keys)?,
    )
}

// The number of parameters that take a place.
fn places(params: &[Param]) -> usize
    ensures { result ≡ places params.now }
{
    params.iter().filter(|param| param.by_place).count()
}

// Whether a key is no parameter's name.
fn has_unknown(alloc: Global, params: &[Param], keys: &[Word]) -> Result<bool, NoMemory>
    ensures { IfOk result (λ has. has ≡ list_any (λ key. not (is_known params.now key)) keys.now) }
{
    if keys.is_empty() {
        return Ok(false);
    }
    let known = known_names(alloc, params)?;
    for key in keys {
        if !known.has(key.as_bytes()) {
            return Ok(true);
        }
    }
    Ok(false)
}

// Whether a parameter has two arguments, or none where one is required.
fn has_miscounted(params: &[Param], placed: usize, keys: &Seen) -> bool
    requires distinct { IsTrue (are_new [] keys.now) }
    ensures { result ≡ list_any (λ e. is_miscounted placed keys.now e.0 e.1) (enumerate_from 0 params.now) }
{
    params
        .iter()
        .enumerate()
        .any(|(place, param)| is_miscounted(param, place, placed, keys))
}

fn is_missing(param: &Param, named: bool) -> bool
    ensures { result ≡ (param.now.required && not named) }
{
    param.required && !named
}

fn is_miscounted(param: &Param, place: usize, placed: usize, keys: &Seen) -> bool
    requires distinct { IsTrue (are_new [] keys.now) }
    ensures { result ≡ is_miscounted placed keys.now place param.now }
{
    let named = keys.has(param.name.as_bytes());
    if place < placed {
        named
    } else {
        is_missing(param, named)
    }
}

// The arguments of all parameters, whose count is right.
#[tactic(auto, unfolding(crate::specs::Arguments::bounds_of))]
fn all_arguments(
    alloc: Global,
    params: &[Param],
    placed: usize,
    keys: &Seen,
) -> Result<Vec<Bound>, AllocError>
    ensures { IfOk result (λ bounds. bounds.items ≡ bounds_of params.now placed keys.now) }
{
    params
        .iter()
        .enumerate()
        .map(|(place, param)| argument_of(param, place, placed, keys))
        .collect(alloc)
}

// The argument of the parameter at a place.
fn argument_of(param: &Param, place: usize, placed: usize, keys: &Seen) -> Bound
    ensures { result ≡ bound_of placed keys.now place param.now }
{
    if place < placed {
        return Bound::Placed(place);
    }
    match key_of(param, keys) {
        Some(key) => Bound::Key(key),
        None => Bound::Missing,
    }
}

// The place of the key that is the parameter's name.
fn key_of(param: &Param, keys: &Seen) -> Option<usize>
    ensures { result ≡ position (is_named param.now) keys.now }
{
    keys.place_of(param.name.as_bytes())
}
