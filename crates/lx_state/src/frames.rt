//! Names of a running `__init__`, and what they stand for.

ghost use Rattle.std.specs.Prelude.{◌≡◌, Ok, option_map, slice_get};
ghost use Rattle.lx_state.specs.Step.{Gives};
ghost use Rattle.lx_state.specs.Frames.{class_above, enter, global, hide, is_class, leave, meaning, named, nearest, put_local, restore, set_local, set_param};

use crate::builtins::builtin_of;
use crate::machine::{Binding, Frame, Machine};
use crate::values::Value;
use crate::work::unknown;
use lx_names::Table;
use lx_text::Refusal;
use std::alloc::Global;
use std::mem;

impl Machine {
    // Whether the class at a place has a name.
    fn is_class(&self, place: usize, name: &[u8]) -> bool
        ensures { result ≡ is_class (slice_get self.now.classes place) name.now }
    {
        match self.classes.get(place) {
            Some(class) => class.name.is(name),
            None => false,
        }
    }

    // Of the first classes, the last one with a name.
    #[tactic(auto, using(crate::proofs::Nearest::nearest_none))]
    fn nearest(&self, name: &[u8], count: usize) -> Option<usize>
        ensures { result ≡ nearest self.now.classes name.now count }
    {
        for passed in 0..count {
            let place = count - 1 - passed;
            if self.is_class(place, name) {
                return Some(place);
            }
        }
        None
    }

    /// The nearest class above with a name.
    pub fn class_above(&self, name: &[u8]) -> Option<usize>
        ensures { result ≡ class_above self.now name.now }
    {
        self.nearest(name, self.frame.class)
    }

    // What a class or a built-in name stands for.
    fn global(&self, name: &[u8]) -> Option<Value>
        ensures { result ≡ global self.now name.now }
    {
        if let Some(class) = self.class_above(name) {
            return Some(Value::Class(class));
        }
        match builtin_of(name) {
            Some(builtin) => Some(Value::Builtin(builtin)),
            None => None,
        }
    }

    /// What a name stands for: a parameter or local, a class above, or a built-in.
    pub fn meaning(&self, name: &[u8]) -> Option<Value>
        ensures { result ≡ meaning self.now name.now }
    {
        match self.frame.locals.get(name) {
            Some(value) => Some(value),
            None => self.global(name),
        }
    }

    /// What a name stands for, which must be something.
    #[tactic(auto, unfolding(crate::specs::Frames::named))]
    pub fn named(&self, alloc: Global, line: u32, name: &[u8]) -> Result<Value, Refusal>
        ensures { Gives result self.now (named line name.now self.now) }
    {
        match self.meaning(name) {
            Some(value) => Ok(value),
            None => Err(unknown(alloc, line, name)),
        }
    }

    // Puts a value under a local name.
    #[tactic(auto, unfolding(crate::specs::Frames::put_local))]
    fn put_local(&mut self, name: &[u8], value: Value) -> Result<(), Refusal>
        ensures { Gives result self.new (put_local name.now value self.old) }
    {
        self.frame.locals.set(name, value)?;
        Ok(())
    }

    /// Binds a parameter, which names nothing.
    #[tactic(auto, unfolding(crate::specs::Frames::set_param))]
    pub fn set_param(&mut self, line: u32, name: &[u8], value: Value) -> Result<(), Refusal>
        ensures { Gives result self.new (set_param line name.now value self.old) }
    {
        self.name_fits(line, name)?;
        self.put_local(name, value)
    }

    /// Binds a local name.
    #[tactic(auto, unfolding(crate::specs::Frames::set_local))]
    pub fn set_local(
        &mut self,
        alloc: Global,
        line: u32,
        name: &[u8],
        value: Value,
    ) -> Result<(), Refusal>
        ensures { Gives result self.new (set_local line name.now value self.old) }
    {
        self.name_fits(line, name)?;
        self.bind_name(alloc, Binding::Local, name, value)?;
        self.put_local(name, value)
    }

    /// Sets a local aside, whose name a comprehension takes.
    #[tactic(auto, unfolding(crate::specs::Frames::hide))]
    pub fn hide(&mut self, name: &[u8]) -> Option<Value>
        ensures { hide name.now self.old ≡ Ok (result, self.new) }
    {
        self.frame.locals.remove(name)
    }

    /// What was under a name before a comprehension is there again.
    #[tactic(auto, unfolding(crate::specs::Frames::restore))]
    pub fn restore(&mut self, name: &[u8], before: Option<Value>) -> Result<(), Refusal>
        ensures { Gives result self.new (restore name.now before self.old) }
    {
        match before {
            Some(value) => self.put_local(name, value),
            None => {
                self.frame.locals.remove(name);
                Ok(())
            }
        }
    }

    /// Begins the `__init__` of a module, or a default where there is none, and gives the frame of the caller.
    #[tactic(auto, unfolding(crate::specs::Frames::enter))]
    pub fn enter(&mut self, alloc: Global, this: Option<usize>, class: usize) -> Frame
        ensures { enter this class self.old ≡ Ok (result, self.new) }
    {
        let frame = Frame {
            locals: Table::new(alloc),
            this,
            class,
        };
        mem::replace(&mut self.frame, frame)
    }

    /// Goes back to the frame of the caller.
    #[tactic(auto, unfolding(crate::specs::Frames::leave))]
    pub fn leave(&mut self, frame: Frame)
        ensures { leave frame self.old ≡ Ok (tt, self.new) }
    {
        self.frame = frame;
    }
}
