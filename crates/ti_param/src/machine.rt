//! The machine that runs a format: its stack, parameters and variables, and what each code does.
ghost use Rattle.std.specs.Prelude.{◌≡◌, ◌∷◌, [], map, pos, slice_index_or};
ghost use Rattle.ti_param.specs.Meaning.{MachineState, argument_of, number, start, with_print, with_output, push_outcome, without_top, top, top_number, with_variable, code_outcome, variable_value, with_increment};
ghost use Rattle.ti_param.specs.inside.Expansion.{HasOutcome};
ghost use Rattle.ti_param.specs.inside.Machine.{item_value};

use crate::arithmetic::{bitwise_not, character, logical_not, operate, wrapped_length};
use crate::errors::ParamError;
use crate::output::Output;
use crate::values::{LETTERS, Statics, Value};
use arrayvec::ArrayVec;
use std::alloc::Global;
use std::marker::Model;
use ti_formats::{Code, ParameterIndex, Variable};
use ti_printing::printf::Directive;
use ti_text::limits::PARAMETERS_MAX;

// How many values the stack holds.
const DEPTH: usize = 20;

// A value on the stack.
#[derive(Clone, Copy)]
pub(crate) enum Item {
    Number(i32),
    // The string of the parameter at a place, which stays as it is.
    Text(u8),
}

impl Default for Item {
    ghost use Rattle.std.specs.Prelude.{◌≡◌, pos};
    ghost use Rattle.ti_param.specs.declared.machine.Item.TheVariants.{Number};

    ghost is_default = { λ item. item ≡ Number (pos 0) };

    // The number 0, the value that an empty stack gives.
    fn default() -> Self {
        Item::Number(0)
    }
}

/// The state of an expansion.
#[derive(Drop)]
pub(crate) struct Machine<'a> {
    output: Output,
    stack: ArrayVec<Item, DEPTH>,
    // The first two parameters, which may be increased, and all as they were given.
    first: Value<'a>,
    second: Value<'a>,
    given: &'a [Value<'a>; PARAMETERS_MAX],
    dynamics: [i32; LETTERS],
    statics: [i32; LETTERS],
}

impl<'a> Model for Machine<'a> {
    ghost use Rattle.std.specs.Prelude.{map, reverse};
    ghost use Rattle.ti_param.specs.Meaning.{MachineState};
    ghost use Rattle.ti_param.specs.inside.Machine.{item_values, parameters_of};

    ghost Value = { MachineState };

    ghost view = { λ machine. record {
      output = machine.output;
      stack = reverse (item_values (parameters_of machine.first machine.second machine.given.now) machine.stack.items);
      parameters = parameters_of machine.first machine.second machine.given.now;
      dynamics = machine.dynamics;
      statics = machine.statics;
    } };
}

impl<'a> Machine<'a> {
    /// At the start of an expansion.
    pub(crate) fn new(
        alloc: Global,
        parameters: &'a [Value<'a>; PARAMETERS_MAX],
        statics: &Statics,
    ) -> Self
        ensures { result ≡ start (map argument_of parameters.now) statics.now }
    {
        Machine {
            output: Output::new(alloc),
            stack: ArrayVec::new(),
            first: parameters[0],
            second: parameters[1],
            given: parameters,
            dynamics: [0; LETTERS],
            statics: statics.values,
        }
    }

    /// The bytes written; the static variables are set to what they are now.
    pub(crate) fn finish(self, statics: &mut Statics) -> Output
        ensures output { result ≡ self.entry.output }
        ensures statics { statics.new ≡ self.entry.statics }
    {
        statics.values = self.statics;
        self.output
    }

    /// Writes a byte.
    #[inline(always)]
    pub(crate) fn write(&mut self, byte: u8) -> Result<(), ParamError>
        ensures { HasOutcome result self.new (Ok (with_output (byte ∷ []) self.old)) }
    {
        self.output.push(byte)?;
        Ok(())
    }

    /// Takes the number at the top of the stack. A string is 0, and so is an empty stack.
    pub(crate) fn pop_number(&mut self) -> i32
        ensures value { result ≡ top_number self.old }
        ensures rest { self.new ≡ without_top self.old }
    {
        self.pop().number()
    }

    // Takes the value at the top of the stack, the number 0 if there is none.
    fn pop(&mut self) -> Value<'a>
        ensures value { argument_of result ≡ top self.old }
        ensures rest { self.new ≡ without_top self.old }
    {
        match self.stack.pop() {
            Some(Item::Number(number)) => Value::Number(number),
            Some(Item::Text(place)) => Value::Text(self.parameter(usize::from(place)).text()),
            None => Value::Number(0),
        }
    }

    // The parameter at a place as it is now; the number 0 past the last.
    fn parameter(&self, place: usize) -> Value<'a>
        ensures { argument_of result ≡ slice_index_or self.now.parameters place (number (pos 0)) }
    {
        match place {
            0 => self.first,
            1 => self.second,
            _ => given_at(self.given, place),
        }
    }

    // Pushes a number for the code at the place.
    fn push(&mut self, place: usize, value: i32) -> Result<(), ParamError>
        ensures { HasOutcome result self.new (push_outcome place (number value) self.old) }
    {
        self.push_item(place, Item::Number(value))
    }

    // Pushes a parameter for the code at the place.
    fn push_parameter(&mut self, place: usize, index: ParameterIndex) -> Result<(), ParamError>
        ensures { HasOutcome result self.new (push_outcome place (slice_index_or self.old.parameters index (number (pos 0))) self.old) }
    {
        let index = index.index();
        match self.parameter(index) {
            Value::Number(number) => self.push(place, number),
            Value::Text(_) => self.push_item(place, Item::Text(index as u8)),
        }
    }

    // Pushes a value for the code at the place.
    fn push_item(&mut self, place: usize, item: Item) -> Result<(), ParamError>
        ensures { HasOutcome result self.new (push_outcome place (item_value self.old.parameters item) self.old) }
    {
        self.stack
            .try_push(item)
            .map_err(|_| ParamError::StackFull(place))
    }

    // Sets a variable.
    fn store(&mut self, variable: Variable, number: i32)
        ensures { self.new ≡ with_variable variable number self.old }
    {
        match variable {
            Variable::Dynamic(letter) => self.dynamics[letter.index()] = number,
            Variable::Static(letter) => self.statics[letter.index()] = number,
        }
    }

    // The value of a variable.
    fn fetch(&self, variable: Variable) -> i32
        ensures { result ≡ variable_value variable self.now }
    {
        match variable {
            Variable::Dynamic(letter) => self.dynamics[letter.index()],
            Variable::Static(letter) => self.statics[letter.index()],
        }
    }

    // Adds one to the first two parameters if they are numbers.
    fn increment(&mut self)
        ensures { self.new ≡ with_increment self.old }
    {
        self.first = self.first.increment();
        self.second = self.second.increment();
    }

    // Prints a value.
    fn print(&mut self, form: Directive) -> Result<(), ParamError>
        ensures { HasOutcome result self.new (Ok (with_print form self.old)) }
    {
        let value = self.pop();
        self.output.print(&form, value.number(), value.text())?;
        Ok(())
    }

    /// Runs the code at the place.
    #[inline(always)]
    pub(crate) fn perform(&mut self, place: usize, code: Code) -> Result<(), ParamError>
        ensures { HasOutcome result self.new (code_outcome place code self.old) }
    {
        match code {
            Code::Percent => self.write(b'%'),
            Code::Character => {
                let number = self.pop_number();
                self.write(character(number))
            }
            Code::Print(form) => self.print(form),
            Code::Parameter(index) => self.push_parameter(place, index),
            Code::Store(variable) => {
                let number = self.pop_number();
                self.store(variable, number);
                Ok(())
            }
            Code::Fetch(variable) => {
                let number = self.fetch(variable);
                self.push(place, number)
            }
            Code::Constant(number) => self.push(place, number),
            Code::Length => {
                let text = self.pop().text();
                self.push(place, wrapped_length(text))
            }
            Code::Binary(operator) => {
                let y = self.pop_number();
                let x = self.pop_number();
                self.push(place, operate(operator, x, y))
            }
            Code::Not => {
                let number = self.pop_number();
                self.push(place, logical_not(number))
            }
            Code::Complement => {
                let number = self.pop_number();
                self.push(place, bitwise_not(number))
            }
            Code::Increment => {
                self.increment();
                Ok(())
            }
        }
    }
}

// The parameter at a place as it was given; the number 0 past the last.
#[inline(always)]
fn given_at<'a>(given: &[Value<'a>; PARAMETERS_MAX], place: usize) -> Value<'a>
    ensures { argument_of result ≡ slice_index_or (map argument_of given.now) place (number (pos 0)) }
{
    if place < PARAMETERS_MAX {
        given[place]
    } else {
        Value::Number(0)
    }
}
