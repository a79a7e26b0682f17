//! Objects, and the names that bindings give them.

ghost use Rattle.std.specs.Prelude.{◌≡◌, ◌∷◌, IfOk, Ok, Some, slice_get};
ghost use Rattle.lx_state.specs.Step.{Gives};
ghost use Rattle.lx_state.specs.Changes.{changed};
ghost use Rattle.lx_state.specs.Naming.{bind_items, bind_list, bind_name, bind_within, first_home, first_name, is_later, item_name, mark, marked, name_object, name_some, named_by, object_made, own_signal, settle_object, settled, signal_object, turn_object, turned, unnamed};

use crate::lists::copied;
use crate::machine::{Binding, Items, Leaves, Machine, Object, What};
use crate::values::Value;
use lx_fhdl::{Expr, ExprId};
use lx_text::{List, NoMemory, Refusal, Text, Word};
use std::alloc::Global;

/// The name of an item of a list.
pub fn item_name(alloc: Global, name: &[u8], place: usize) -> Result<Word, NoMemory>
    ensures { IfOk result (λ word. word ≡ item_name name.now place) }
{
    let mut text = Text::new(alloc);
    text.word(name)?;
    text.word(b"_")?;
    text.count(place as u128)?;
    Ok(Word::from_list(text.into_list()))
}

/// Whether a name by one binding goes before a name by another.
fn is_later(binding: Binding, before: Binding) -> bool
    ensures { result ≡ is_later binding before }
{
    match (binding, before) {
        (Binding::Local, Binding::Nowhere) => true,
        (Binding::Attribute, Binding::Nowhere) => true,
        (Binding::Attribute, Binding::Local) => true,
        (Binding::Nowhere, _) => false,
        (Binding::Local, Binding::Local) => false,
        (Binding::Local, Binding::Attribute) => false,
        (Binding::Attribute, Binding::Attribute) => false,
    }
}

// The first name of two.
fn first_name(old: Option<Word>, name: Word) -> Option<Word>
    ensures { result ≡ first_name old name }
{
    match old {
        Some(old) => Some(old),
        None => Some(name),
    }
}

// An object that is bound to a name.
fn named_by(object: Object, binding: Binding, name: Word) -> Object
    ensures { result ≡ named_by binding name object }
{
    let Object {
        what,
        line,
        maker,
        given,
        by_attribute,
        by_local,
        home,
    } = object;
    match binding {
        Binding::Nowhere => Object {
            what,
            line,
            maker,
            given,
            by_attribute,
            by_local,
            home,
        },
        Binding::Local => Object {
            what,
            line,
            maker,
            given,
            by_attribute,
            by_local: first_name(by_local, name),
            home,
        },
        Binding::Attribute => Object {
            what,
            line,
            maker,
            given,
            by_attribute: first_name(by_attribute, name),
            by_local,
            home,
        },
    }
}

// What stands in an object's place while it changes.
fn no_object() -> Object {
    Object {
        what: What::Module(0),
        line: 0,
        maker: None,
        given: None,
        by_attribute: None,
        by_local: None,
        home: None,
    }
}

// The object at a place is something else from now on.
#[tactic(auto, using(crate::proofs::Changes::changed_there, crate::proofs::Changes::set_twice, crate::proofs::Changes::not_changed))]
fn turn_there(objects: &mut List<Object>, at: usize, what: What)
    ensures { objects.new ≡ changed objects.old at (turned what) }
{
    if at < objects.len() {
        let mut object = objects.replace(at, no_object());
        object.what = what;
        objects.replace(at, object);
    }
}

// The object at a place is bound to a name.
#[tactic(auto, using(crate::proofs::Changes::changed_there, crate::proofs::Changes::set_twice, crate::proofs::Changes::not_changed))]
fn name_there(objects: &mut List<Object>, at: usize, binding: Binding, name: Word)
    ensures { objects.new ≡ changed objects.old at (named_by binding name) }
{
    if at < objects.len() {
        let object = objects.replace(at, no_object());
        objects.replace(at, named_by(object, binding, name));
    }
}

// The object at a place stands in a module, unless it stands in one already.
#[tactic(auto, using(crate::proofs::Changes::changed_there, crate::proofs::Changes::set_twice, crate::proofs::Changes::not_changed))]
fn settle_there(objects: &mut List<Object>, at: usize, home: usize)
    ensures { objects.new ≡ changed objects.old at (settled home) }
{
    if at < objects.len() {
        let mut object = objects.replace(at, no_object());
        object.home = first_home(object.home, home);
        objects.replace(at, object);
    }
}

// The first home of two.
fn first_home(old: Option<usize>, home: usize) -> Option<usize>
    ensures { result ≡ first_home old home }
{
    match old {
        Some(old) => Some(old),
        None => Some(home),
    }
}

// The items at a place, which have named what they hold.
fn marked(items: Items, binding: Binding) -> Items
    ensures { result ≡ marked binding items }
{
    let Items {
        values,
        depth,
        leaves,
        size,
        ..
    } = items;
    Items {
        values,
        depth,
        leaves,
        size,
        named: binding,
    }
}

// What stands in the place of items while they change.
fn no_items(alloc: Global) -> Items {
    Items {
        values: List::new(alloc),
        depth: 0,
        leaves: Leaves::Nothing,
        size: 0,
        named: Binding::Nowhere,
    }
}

// The items at a place are marked.
#[tactic(auto, using(crate::proofs::Changes::changed_there, crate::proofs::Changes::set_twice, crate::proofs::Changes::not_changed))]
fn mark_there(alloc: Global, lists: &mut List<Items>, at: usize, binding: Binding)
    ensures { lists.new ≡ changed lists.old at (marked binding) }
{
    if at < lists.len() {
        let items = lists.replace(at, no_items(alloc));
        lists.replace(at, marked(items, binding));
    }
}

impl Machine {
    /// Makes an object, which has the name that it is given.
    #[tactic(auto, unfolding(crate::specs::Naming::object_made))]
    pub fn object_made(
        &mut self,
        what: What,
        line: u32,
        given: Option<Word>,
    ) -> Result<usize, Refusal>
        ensures { Gives result self.new (object_made what line given self.old) }
    {
        let place = self.objects.len();
        self.objects.push(Object {
            what,
            line,
            maker: self.frame.this,
            given,
            by_attribute: None,
            by_local: None,
            home: None,
        })?;
        Ok(place)
    }

    /// An object is something else from now on.
    #[tactic(auto, unfolding(crate::specs::Naming::turn_object))]
    pub fn turn_object(&mut self, what: What, at: usize)
        ensures { turn_object what at self.old ≡ Ok (tt, self.new) }
    {
        turn_there(&mut self.objects, at, what);
    }

    /// An object is bound by an attribute of a module itself; its first such module is its home.
    #[tactic(auto, unfolding(crate::specs::Naming::settle_object))]
    pub fn settle_object(&mut self, home: usize, at: usize)
        ensures { settle_object home at self.old ≡ Ok (tt, self.new) }
    {
        settle_there(&mut self.objects, at, home);
    }

    // An object is bound to a name.
    #[tactic(auto, unfolding(crate::specs::Naming::name_object))]
    fn name_object(
        &mut self,
        alloc: Global,
        binding: Binding,
        name: &[u8],
        at: usize,
    ) -> Result<(), Refusal>
        ensures { Gives result self.new (name_object binding name.now at self.old) }
    {
        let word = Word::new(alloc, name)?;
        name_there(&mut self.objects, at, binding, word);
        Ok(())
    }

    // The object whose own a signal is.
    fn own_signal(&self, signal: usize) -> Option<usize>
        ensures { result ≡ own_signal (slice_get self.now.owners signal) }
    {
        match self.owners.get(signal) {
            Some(owner) => match &owner.part {
                None => Some(owner.object),
                Some(_) => None,
            },
            None => None,
        }
    }

    /// The object whose own signal an expression is.
    pub fn signal_object(&self, id: ExprId) -> Option<usize>
        ensures { result ≡ signal_object self.now (slice_get self.now.shaped.exprs id.place) }
    {
        match self.shaped.node(id) {
            Some(Expr::Sig(signal)) => self.own_signal(signal.0),
            _ => None,
        }
    }

    // An expression is bound to a name.
    fn name_expr(
        &mut self,
        alloc: Global,
        binding: Binding,
        name: &[u8],
        id: ExprId,
    ) -> Result<(), Refusal>
        ensures { Gives result self.new (name_some binding name.now (signal_object self.old (slice_get self.old.shaped.exprs id.place)) self.old) }
    {
        match self.signal_object(id) {
            Some(at) => self.name_object(alloc, binding, name, at),
            None => Ok(()),
        }
    }

    // The items of a list that has not yet named them by such a binding.
    fn unnamed(
        &self,
        alloc: Global,
        binding: Binding,
        at: usize,
    ) -> Result<Option<List<Value>>, NoMemory>
        ensures { IfOk result (λ values. values ≡ unnamed binding (slice_get self.now.lists at)) }
    {
        match self.lists.get(at) {
            Some(items) => {
                if !is_later(binding, items.named) {
                    return Ok(None);
                }
                let values = copied(alloc, &items.values)?;
                Ok(Some(values))
            }
            None => Ok(None),
        }
    }

    // A list is bound to a name.
    #[cycle(bind)]
    #[tactic(auto, unfolding(crate::specs::Naming::bind_list, crate::specs::Naming::mark))]
    fn bind_list(
        &mut self,
        alloc: Global,
        levels: u8,
        binding: Binding,
        name: &[u8],
        at: usize,
    ) -> Result<(), Refusal>
        ensures { Gives result self.new (bind_list (bind_within levels binding) binding name.now at self.old) }
    {
        match self.unnamed(alloc, binding, at)? {
            Some(values) => {
                mark_there(alloc, &mut self.lists, at, binding);
                self.bind_items(alloc, levels, binding, name, values.as_slice())
            }
            None => Ok(()),
        }
    }

    // The items of a list are bound to names that are made of its own.
    #[cycle(bind)]
    #[tactic(auto, unfolding(crate::specs::Naming::bind_items))]
    fn bind_items(
        &mut self,
        alloc: Global,
        levels: u8,
        binding: Binding,
        name: &[u8],
        values: &[Value],
    ) -> Result<(), Refusal>
        ensures { Gives result self.new (bind_items (bind_within levels binding) name.now 0 values.now self.old) }
    {
        for (place, value) in values.iter().enumerate() {
            self.bind_item(alloc, levels, binding, name, place, *value)?;
        }
        Ok(())
    }

    #[cycle(bind)]
    fn bind_item(
        &mut self,
        alloc: Global,
        levels: u8,
        binding: Binding,
        name: &[u8],
        place: usize,
        value: Value,
    ) -> Result<(), Refusal>
        ensures { Gives result self.new (bind_within levels binding (item_name name.now place) value self.old) }
    {
        let word = item_name(alloc, name, place)?;
        self.bind_within(alloc, levels, binding, word.as_bytes(), value)
    }

    // A value is bound to a name, and what hangs in it within so many levels of lists.
    #[cycle(bind)]
    #[tactic(auto, unfolding(crate::specs::Naming::bind_within, crate::specs::Naming::bind_value))]
    fn bind_within(
        &mut self,
        alloc: Global,
        levels: u8,
        binding: Binding,
        name: &[u8],
        value: Value,
    ) -> Result<(), Refusal>
        ensures { Gives result self.new (bind_within levels binding name.now value self.old) }
    {
        match value {
            Value::List(at) => {
                if levels == 0 {
                    return Ok(());
                }
                self.bind_list(alloc, levels - 1, binding, name, at)
            }
            Value::Object(at) => self.name_object(alloc, binding, name, at),
            Value::Expr(id) => self.name_expr(alloc, binding, name, id),
            _ => Ok(()),
        }
    }

    /// A value is bound to a name: an object may get its name by it, and so may the items of lists.
    #[tactic(auto, unfolding(crate::specs::Naming::bind_name))]
    pub fn bind_name(
        &mut self,
        alloc: Global,
        binding: Binding,
        name: &[u8],
        value: Value,
    ) -> Result<(), Refusal>
        ensures { Gives result self.new (bind_name binding name.now value self.old) }
    {
        self.bind_within(alloc, 64, binding, name, value)
    }
}
