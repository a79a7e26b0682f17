//! Texts, lists, tuples, Arrays and dictionaries.

ghost use Rattle.std.specs.Prelude.{◌≡◌, ◌≤◌, IfOk, option_copied, slice_get};
ghost use Rattle.lx_state.specs.Step.{Gives};
ghost use Rattle.lx_state.specs.Lists.{all_leaves, array_at, array_made, array_of, deeper, deepest, depth_of, dictionary_made, int_of, ints_of, integer, items_at, items_made, items_of, joined, keep_items, leaf_of, leaf_of_what, leaves_of, list_at, list_made, list_of, made_leaves, made_size, pairs_at, pairs_of, size_of, sizes_of, some_depth, some_leaves, some_size, text_at, text_made, text_of, tuple_made, values_of};

use crate::machine::{Binding, Items, Leaves, Machine, Pair, What};
use crate::values::Value;
use crate::work::{fault, limit};
use lx_text::faults::greatest;
use lx_text::{Kind, LimitKind, List, NoMemory, Refusal, Word};
use std::alloc::Global;

/// A second list of the same items.
pub fn copied<T: Copy + Drop>(alloc: Global, items: &List<T>) -> Result<List<T>, NoMemory>
    ensures { IfOk result (λ list. list ≡ items.now) }
{
    Ok(List::from_vec(Vec::from_slice(alloc, items.as_slice())?))
}

/// What hangs in two values together.
fn joined(first: Leaves, second: Leaves) -> Leaves
    ensures { result ≡ joined first second }
{
    match (first, second) {
        (Leaves::Nothing, _) => second,
        (_, Leaves::Nothing) => first,
        (Leaves::Statements, Leaves::Statements) => first,
        (Leaves::Statements, Leaves::StateStatements) => second,
        (Leaves::StateStatements, Leaves::Statements) => first,
        (Leaves::StateStatements, Leaves::StateStatements) => first,
        (Leaves::Modules, Leaves::Modules) => first,
        (Leaves::ClockDomains, Leaves::ClockDomains) => first,
        (Leaves::Specials, Leaves::Specials) => first,
        _ => Leaves::Others,
    }
}

// What hangs where an object stands that is this.
fn leaf_of_what(what: What) -> Leaves
    ensures { result ≡ leaf_of_what what }
{
    match what {
        What::Signal(_) => Leaves::Others,
        What::Module(_) => Leaves::Modules,
        What::ClockDomain(_) => Leaves::ClockDomains,
        What::MultiReg => Leaves::Specials,
        What::Fsm(_) => Leaves::Modules,
        What::Memory(_) | What::Port(_) => Leaves::Specials,
        What::Manager(_) => Leaves::Modules,
        What::Register(_) | What::Field(_) | What::Constant(_) | What::Source(_) => Leaves::Others,
        What::Region(_) | What::Interface(_) => Leaves::Others,
    }
}

impl Machine {
    // The levels of lists and tuples in a value.
    fn depth_of(&self, value: Value) -> u8
        ensures { result ≡ depth_of self.now value }
    {
        match value {
            Value::List(at) | Value::Tuple(at) => self.depth_at(at),
            _ => 0,
        }
    }

    fn depth_at(&self, at: usize) -> u8
        ensures { result ≡ some_depth (slice_get self.now.lists at) }
    {
        match self.lists.get(at) {
            Some(items) => items.depth,
            None => 0,
        }
    }

    fn deepest(&self, values: &[Value]) -> u8
        ensures { result ≡ deepest self.now values.now }
    {
        let mut depth = 0;
        for value in values {
            depth = self.depth_of(*value).max(depth);
        }
        depth
    }

    // What hangs in a value.
    fn leaves_of(&self, value: Value) -> Leaves
        ensures { result ≡ leaves_of self.now value }
    {
        match value {
            Value::List(at) | Value::Tuple(at) => self.leaves_at(at),
            Value::Made(at) => self.made_leaves(at),
            Value::Object(at) => self.leaf_of(at),
            _ => Leaves::Others,
        }
    }

    fn leaves_at(&self, at: usize) -> Leaves
        ensures { result ≡ some_leaves (slice_get self.now.lists at) }
    {
        match self.lists.get(at) {
            Some(items) => items.leaves,
            None => Leaves::Others,
        }
    }

    // What hangs where a statement stands itself.
    fn made_leaves(&self, at: usize) -> Leaves
        ensures { result ≡ made_leaves (slice_get self.now.made at) }
    {
        match self.made.get(at) {
            Some(made) => {
                if made.in_state {
                    Leaves::StateStatements
                } else {
                    Leaves::Statements
                }
            }
            None => Leaves::Others,
        }
    }

    /// What hangs where an object stands itself.
    pub fn leaf_of(&self, at: usize) -> Leaves
        ensures { result ≡ leaf_of (slice_get self.now.objects at) }
    {
        match self.objects.get(at) {
            Some(object) => leaf_of_what(object.what),
            None => Leaves::Others,
        }
    }

    /// What hangs in some values together.
    #[tactic(auto, using(crate::proofs::Joined::joined_joined, crate::proofs::Joined::joined_nothing))]
    pub fn all_leaves(&self, values: &[Value]) -> Leaves
        ensures { result ≡ all_leaves self.now values.now }
    {
        let mut leaves = Leaves::Nothing;
        for value in values {
            leaves = joined(leaves, self.leaves_of(*value));
        }
        leaves
    }

    // The nodes of the statements that hang in a value.
    fn size_of(&self, value: Value) -> u32
        ensures { result ≡ size_of self.now value }
    {
        match value {
            Value::List(at) | Value::Tuple(at) => self.size_at(at),
            Value::Made(at) => self.made_size(at),
            _ => 0,
        }
    }

    fn size_at(&self, at: usize) -> u32
        ensures { result ≡ some_size (slice_get self.now.lists at) }
    {
        match self.lists.get(at) {
            Some(items) => items.size,
            None => 0,
        }
    }

    fn made_size(&self, at: usize) -> u32
        ensures { result ≡ made_size (slice_get self.now.made at) }
    {
        match self.made.get(at) {
            Some(made) => made.size,
            None => 0,
        }
    }

    /// The nodes of the statements that hang in some values, counted as far as one past the limit.
    pub fn sizes_of(&self, values: &[Value]) -> u32
        ensures { result ≡ sizes_of self.now values.now }
    {
        let past = greatest(LimitKind::Nodes) as u64 + 1;
        let mut size = 0;
        for value in values {
            size = past.min(size + self.size_of(*value) as u64);
        }
        size as u32
    }

    /// One level more than a depth.
    #[tactic(auto, unfolding(crate::specs::Lists::deeper))]
    pub fn deeper(&self, line: u32, depth: u8) -> Result<u8, Refusal>
        ensures { Gives result self.now (deeper line depth self.now) }
    {
        if (depth as u32) < greatest(LimitKind::Depth) {
            Ok(depth + 1)
        } else {
            Err(limit(line, LimitKind::Depth))
        }
    }

    // Items at a place of their own.
    #[tactic(auto, unfolding(crate::specs::Lists::keep_items))]
    fn keep_items(&mut self, values: List<Value>, depth: u8) -> Result<usize, Refusal>
        ensures { Gives result self.new (keep_items values depth self.old) }
    {
        let place = self.lists.len();
        let leaves = self.all_leaves(values.as_slice());
        let size = self.sizes_of(values.as_slice());
        self.lists.push(Items {
            values,
            depth,
            leaves,
            size,
            named: Binding::Nowhere,
        })?;
        Ok(place)
    }

    #[tactic(auto, unfolding(crate::specs::Lists::items_made))]
    fn items_made(&mut self, line: u32, values: List<Value>) -> Result<usize, Refusal>
        ensures { Gives result self.new (items_made line values self.old) }
    {
        self.spend(line, values.len() as u64)?;
        let below = self.deepest(values.as_slice());
        let depth = self.deeper(line, below)?;
        self.keep_items(values, depth)
    }

    /// Makes a list.
    #[tactic(auto, unfolding(crate::specs::Lists::list_made))]
    pub fn list_made(&mut self, line: u32, values: List<Value>) -> Result<Value, Refusal>
        ensures { Gives result self.new (list_made line values self.old) }
    {
        let place = self.items_made(line, values)?;
        Ok(Value::List(place))
    }

    /// Makes a tuple.
    #[tactic(auto, unfolding(crate::specs::Lists::tuple_made))]
    pub fn tuple_made(&mut self, line: u32, values: List<Value>) -> Result<Value, Refusal>
        ensures { Gives result self.new (tuple_made line values self.old) }
    {
        let place = self.items_made(line, values)?;
        Ok(Value::Tuple(place))
    }

    /// Makes an Array, whose units are those of its call.
    #[tactic(auto, unfolding(crate::specs::Lists::array_made))]
    pub fn array_made(&mut self, line: u32, values: List<Value>) -> Result<Value, Refusal>
        ensures { Gives result self.new (array_made line values self.old) }
    {
        self.within(line, LimitKind::Items, values.len() as u64)?;
        let place = self.keep_items(values, 0)?;
        Ok(Value::Array(place))
    }

    /// Makes a text.
    #[tactic(auto, unfolding(crate::specs::Lists::text_made))]
    pub fn text_made(&mut self, line: u32, bytes: Word) -> Result<Value, Refusal>
        ensures { Gives result self.new (text_made line bytes self.old) }
    {
        self.spend(line, bytes.len() as u64)?;
        let place = self.texts.len();
        self.texts.push(bytes)?;
        Ok(Value::Text(place))
    }

    /// Makes a dictionary, which costs nothing.
    #[tactic(auto, unfolding(crate::specs::Lists::dictionary_made))]
    pub fn dictionary_made(&mut self, pairs: List<Pair>) -> Result<Value, Refusal>
        ensures { Gives result self.new (dictionary_made pairs self.old) }
    {
        let place = self.dictionaries.len();
        self.dictionaries.push(pairs)?;
        Ok(Value::Dictionary(place))
    }

    /// The bytes of a text, where the value is one.
    pub fn text_at(&self, value: Value) -> Option<&Word>
        ensures { option_copied result ≡ text_at self.now value }
    {
        match value {
            Value::Text(at) => self.texts.get(at),
            _ => None,
        }
    }

    /// The bytes of a text.
    #[tactic(auto, unfolding(crate::specs::Lists::text_of))]
    pub fn text_of(&self, alloc: Global, line: u32, value: Value) -> Result<Word, Refusal>
        ensures { Gives result self.now (text_of line value self.now) }
    {
        match self.text_at(value) {
            Some(word) => Ok(word.copied(alloc)?),
            None => Err(fault(line, Kind::WrongKind)),
        }
    }

    // The items at a place.
    fn values_at(&self, at: usize) -> Option<&List<Value>>
        ensures { option_copied result ≡ values_of (slice_get self.now.lists at) }
    {
        match self.lists.get(at) {
            Some(items) => Some(&items.values),
            None => None,
        }
    }

    /// The items of a list.
    pub fn list_at(&self, value: Value) -> Option<&List<Value>>
        ensures { option_copied result ≡ list_at self.now value }
    {
        match value {
            Value::List(at) => self.values_at(at),
            _ => None,
        }
    }

    /// The items of a list; a tuple is none.
    #[tactic(auto, unfolding(crate::specs::Lists::list_of))]
    pub fn list_of(&self, alloc: Global, line: u32, value: Value) -> Result<List<Value>, Refusal>
        ensures { Gives result self.now (list_of line value self.now) }
    {
        match self.list_at(value) {
            Some(values) => Ok(copied(alloc, values)?),
            None => Err(fault(line, Kind::WrongKind)),
        }
    }

    /// The items of a list or a tuple, where the value is one.
    pub fn items_at(&self, value: Value) -> Option<&List<Value>>
        ensures { option_copied result ≡ items_at self.now value }
    {
        match value {
            Value::List(at) | Value::Tuple(at) => self.values_at(at),
            _ => None,
        }
    }

    /// The items of a list or a tuple.
    #[tactic(auto, unfolding(crate::specs::Lists::items_of))]
    pub fn items_of(&self, alloc: Global, line: u32, value: Value) -> Result<List<Value>, Refusal>
        ensures { Gives result self.now (items_of line value self.now) }
    {
        match self.items_at(value) {
            Some(values) => Ok(copied(alloc, values)?),
            None => Err(fault(line, Kind::WrongKind)),
        }
    }

    /// The items of an Array, where the value is one.
    pub fn array_at(&self, value: Value) -> Option<&List<Value>>
        ensures { option_copied result ≡ array_at self.now value }
    {
        match value {
            Value::Array(at) => self.values_at(at),
            _ => None,
        }
    }

    /// The items of an Array.
    #[tactic(auto, unfolding(crate::specs::Lists::array_of))]
    pub fn array_of(&self, alloc: Global, line: u32, value: Value) -> Result<List<Value>, Refusal>
        ensures { Gives result self.now (array_of line value self.now) }
    {
        match self.array_at(value) {
            Some(values) => Ok(copied(alloc, values)?),
            None => Err(fault(line, Kind::WrongKind)),
        }
    }

    /// The pairs of a dictionary, where the value is one.
    pub fn pairs_at(&self, value: Value) -> Option<&List<Pair>>
        ensures { option_copied result ≡ pairs_at self.now value }
    {
        match value {
            Value::Dictionary(at) => self.dictionaries.get(at),
            _ => None,
        }
    }

    /// The pairs of a dictionary.
    #[tactic(auto, unfolding(crate::specs::Lists::pairs_of))]
    pub fn pairs_of(&self, alloc: Global, line: u32, value: Value) -> Result<List<Pair>, Refusal>
        ensures { Gives result self.now (pairs_of line value self.now) }
    {
        match self.pairs_at(value) {
            Some(pairs) => Ok(copied(alloc, pairs)?),
            None => Err(fault(line, Kind::WrongKind)),
        }
    }

    /// The number of an integer.
    #[tactic(auto, unfolding(crate::specs::Lists::int_of))]
    pub fn int_of(&self, line: u32, value: Value) -> Result<i128, Refusal>
        ensures { Gives result self.now (int_of line value self.now) }
    {
        match value {
            Value::Int(number) => Ok(number),
            _ => Err(fault(line, Kind::WrongKind)),
        }
    }

    /// The numbers of values that are all integers.
    #[tactic(auto, unfolding(crate::specs::Lists::ints_of))]
    pub fn ints_of(&self, alloc: Global, line: u32, values: &[Value]) -> Result<List<i128>, Refusal>
        ensures { Gives result self.now (ints_of line values.now self.now) }
    {
        let mut numbers = List::new(alloc);
        for value in values {
            let number = self.int_of(line, *value)?;
            if numbers.push(number).is_err() {
                return Err(Refusal::NoMemory);
            }
        }
        Ok(numbers)
    }
}
