// The arguments of definitions and uses.
ghost use Rattle.std.specs.Prelude.{◌≡◌, ◌<◌, [], ◌∷◌, ◌++◌, length, Some, IfOk, OnOk, slice_get, List, if◌then◌else◌};
ghost use Rattle.sg_block.specs.declared.argument.Argument.{Argument as ArgumentValue};
ghost use Rattle.sg_block.specs.Arguments.{has_name, lacks, is_missing, is_unknown, last_named, defaults, bindings, HasNames, AddsName, TakesOneOff, TakesLast};

use crate::part::TokenSpan;
use crate::table::NameMap;
use sg_device::{Name, NoMemory};
use std::alloc::Global;
use std::collections::VecDeque;
use std::marker::Model;

/// An argument: its name, and the tokens between its parentheses.
#[derive(Drop)]
pub struct Argument {
    pub name: Name,
    pub tokens: TokenSpan,
}

/// Arguments in order, seen as their list.
#[derive(Drop)]
pub struct Arguments {
    held: VecDeque<Argument>,
}

impl Model for Arguments {
    ghost use Rattle.std.specs.Prelude.{List};
    ghost use Rattle.sg_block.specs.declared.argument.Argument.{Argument};

    ghost Value = { List Argument };

    ghost view = { λ a. a.held.items };
}

impl Argument {
    pub fn copy(&self) -> Result<Argument, NoMemory>
        ensures { IfOk result (λ copy. copy ≡ self.now) }
    {
        Ok(Argument {
            name: self.name.copy()?,
            tokens: self.tokens.share()?,
        })
    }
}

impl Arguments {
    pub fn new(alloc: Global) -> Arguments
        ensures { result ≡ [] }
    {
        Arguments {
            held: VecDeque::new(alloc),
        }
    }

    pub fn len(&self) -> usize
        ensures { result ≡ length self.now }
    {
        self.held.len()
    }

    /// The argument at a place that the list has, counted from 0.
    fn at(&self, place: usize) -> &Argument
        requires { place < length self.now }
        ensures { slice_get self.now place ≡ Some result.now }
    {
        &self.held[place]
    }

    /// Puts an argument at the end.
    pub fn push(&mut self, argument: Argument) -> Result<(), NoMemory>
        ensures { OnOk result (self.new ≡ self.old ++ argument ∷ []) }
    {
        self.held.push_back(argument)?;
        Ok(())
    }

    /// Puts an argument at the front.
    fn push_front(&mut self, argument: Argument) -> Result<(), NoMemory>
        ensures { OnOk result (self.new ≡ argument ∷ self.old) }
    {
        self.held.push_front(argument)?;
        Ok(())
    }

    /// Takes the first argument off.
    pub fn pop(&mut self) -> Option<Argument>
        ensures { TakesOneOff self.old self.new result }
    {
        self.held.pop_front()
    }

    /// Takes the last argument off.
    fn pop_back(&mut self) -> Option<Argument>
        ensures { TakesLast self.old self.new result }
    {
        self.held.pop_back()
    }

    /// The names of all.
    fn names(&self, alloc: Global) -> Result<NameMap<bool>, NoMemory>
        ensures { IfOk result (λ names. HasNames names self.now) }
    {
        let mut names = NameMap::new(alloc);
        let mut place = self.len();
        while place > 0 {
            place -= 1;
            add_name(alloc, &mut names, self.at(place))?;
        }
        Ok(names)
    }

    /// Whether one of these that has no tokens isn't given.
    pub fn is_missing(&self, alloc: Global, given: &Arguments) -> Result<bool, NoMemory>
        ensures { IfOk result (λ missing. missing ≡ is_missing self.now given.now) }
    {
        let names = given.names(alloc)?;
        for place in 0..self.len() {
            if is_lacking(&names, self.at(place)) {
                return Ok(true);
            }
        }
        Ok(false)
    }

    /// Whether one is given that isn't among these.
    pub fn is_unknown(&self, alloc: Global, given: &Arguments) -> Result<bool, NoMemory>
        ensures { IfOk result (λ unknown. unknown ≡ is_unknown self.now given.now) }
    {
        let names = self.names(alloc)?;
        for place in 0..given.len() {
            if !is_among(&names, given.at(place)) {
                return Ok(true);
            }
        }
        Ok(false)
    }

    /// Of the arguments of one name the last.
    pub fn last_named(mut self, alloc: Global) -> Result<Arguments, NoMemory>
        ensures { IfOk result (λ kept. kept ≡ last_named self) }
    {
        let mut names = NameMap::new(alloc);
        let mut kept = Arguments::new(alloc);
        while let Some(argument) = self.pop_back() {
            let known = is_among(&names, &argument);
            add_name(alloc, &mut names, &argument)?;
            keep(&mut kept, known, argument)?;
        }
        Ok(kept)
    }

    /// Those of these that aren't given.
    fn defaults(&self, alloc: Global, given: &Arguments) -> Result<Arguments, NoMemory>
        ensures { IfOk result (λ left. left ≡ defaults self.now given.now) }
    {
        let names = given.names(alloc)?;
        let mut left = Arguments::new(alloc);
        for place in 0..self.len() {
            let parameter = self.at(place);
            let known = is_among(&names, parameter);
            keep_copy(&mut left, known, parameter)?;
        }
        Ok(left)
    }

    /// What a use binds: the last given of each name, in the order written, then the defaults of
    /// these parameters, in the order declared.
    pub fn bindings(&self, alloc: Global, given: Arguments) -> Result<Arguments, NoMemory>
        ensures { IfOk result (λ left. left ≡ bindings self.now given) }
    {
        let mut others = self.defaults(alloc, &given)?;
        let mut left = given.last_named(alloc)?;
        while let Some(argument) = others.pop() {
            left.push(argument)?;
        }
        Ok(left)
    }
}

/// Puts an argument in front, unless its name is known.
fn keep(kept: &mut Arguments, known: bool, argument: Argument) -> Result<(), NoMemory>
    ensures { OnOk result (kept.new ≡ (if known then kept.old else argument ∷ kept.old)) }
{
    if !known {
        kept.push_front(argument)?;
    }
    Ok(())
}

/// Puts a copy of a parameter at the end, unless its name is known.
fn keep_copy(left: &mut Arguments, known: bool, parameter: &Argument) -> Result<(), NoMemory>
    ensures { OnOk result
        (left.new ≡ (if known then left.old else left.old ++ parameter.now ∷ [])) }
{
    if !known {
        left.push(parameter.copy()?)?;
    }
    Ok(())
}

/// Adds an argument's name to the names.
fn add_name(alloc: Global, names: &mut NameMap<bool>, argument: &Argument) -> Result<(), NoMemory>
    ensures { OnOk result (AddsName names.old names.new argument.now) }
{
    names.insert(argument.name.bytes().to_vec(alloc)?, true)?;
    Ok(())
}

/// Whether the argument's name is among the names.
fn is_among(names: &NameMap<bool>, argument: &Argument) -> bool
    ensures { (arguments : List ArgumentValue) → HasNames names.now arguments
        → result ≡ has_name argument.now.name arguments }
{
    names.has(argument.name.bytes())
}

/// Whether a parameter must be given, and its name isn't among the names.
fn is_lacking(names: &NameMap<bool>, parameter: &Argument) -> bool
    ensures { (given : List ArgumentValue) → HasNames names.now given
        → result ≡ lacks parameter.now given }
{
    if !parameter.tokens.is_empty() {
        return false;
    }
    !is_among(names, parameter)
}
