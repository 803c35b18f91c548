//! What a listing says beyond names and operands: the names that definitions were given, and how deep structures
//! stand in one another.
ghost use Rattle.std.specs.Prelude.{◌≡◌, [], map, replicate, set, IfOk, Some, None, if◌then◌else◌};
ghost use Rattle.std.specs.Option.{option_map};
ghost use Rattle.of_stream.specs.Decoding.{argument_shown, token_shown};
ghost use Rattle.of_detok.specs.Notes.{branch_nest, depth_at, depth_behind, is_nameless};
ghost use Rattle.of_detok.specs.Notes.{behind_token, first_notes, name_given, name_of_token, nest_of};

use of_fcodes::FCode;
use of_stream::{Argument, Token};
use std::alloc::{AllocError, Global};
use std::marker::Model;

/// How many FCodes there are.
const FCODES: usize = 4096;

/// How many structures are counted at most.
const DEEPEST: usize = 32;

/// What a listing says beyond names and operands.
#[derive(Clone, Copy, Default)]
pub struct Extras {
    /// Behind an FCode the name that `named-token` or `external-token` gave it.
    pub names: bool,
    /// Two spaces before a line's name for each structure that the token stands in, 32 at most.
    pub indents: bool,
}

/// What a token does to control structures and definitions.
#[derive(Clone, Copy)]
pub enum Nest {
    /// It opens one.
    Opens,
    /// It closes one.
    Closes,
    /// Neither.
    Stays,
}

/// What the tokens so far say of those that follow.
#[derive(Drop)]
pub struct Notes<'a> {
    names: Vec<Option<&'a [u8]>>,
    depth: Option<usize>,
}

impl<'a> Model for Notes<'a> {
    ghost use Rattle.std.specs.Prelude.{map};
    ghost use Rattle.std.specs.Option.{option_map};
    ghost use Rattle.of_detok.specs.Notes.{Notes as Noted};

    ghost Value = { Noted };

    ghost view = { λ n. record { names = map (option_map (λ name. name.now)) n.names.items; depth = n.depth } };
}

/// Whether a token gives an FCode to a word without a name.
fn is_nameless(code: FCode) -> bool
    ensures { result ≡ is_nameless code.0 }
{
    code.0 == 0x0b5
}

/// What a branch does: forward it opens a structure, and back it closes one.
fn branch_nest(argument: Argument<'_>) -> Nest
    ensures { result ≡ branch_nest (argument_shown argument.entry) }
{
    match argument {
        Argument::Offset(by) if by < 0 => Nest::Closes,
        Argument::Offset(_) => Nest::Opens,
        _ => Nest::Stays,
    }
}

/// What a token does to structures.
pub fn nest_of(token: Token<'_>) -> Nest
    ensures { result ≡ nest_of (token_shown token.entry) }
{
    match token.code.0 {
        0x013 | 0x014 => branch_nest(token.argument),
        0x0b1 | 0x017 | 0x018 | 0x0c4 | 0x01c | 0x0b7 => Nest::Opens,
        0x0b2 | 0x015 | 0x016 | 0x0c5 | 0x0c6 | 0x0c2 => Nest::Closes,
        _ => Nest::Stays,
    }
}

impl Nest {
    /// How many structures are open around the line of a token that does this, where so many are before it.
    pub fn depth_at(self, depth: usize) -> usize
        ensures { result ≡ depth_at self depth }
    {
        match self {
            Nest::Closes => depth.saturating_sub(1),
            Nest::Opens | Nest::Stays => depth,
        }
    }

    /// And behind it.
    fn depth_behind(self, depth: usize) -> usize
        ensures { result ≡ depth_behind self depth }
    {
        match self {
            Nest::Opens => { if depth < DEEPEST { depth + 1 } else { DEEPEST } }
            Nest::Closes => depth.saturating_sub(1),
            Nest::Stays => depth,
        }
    }
}

/// No name for any FCode, where names are said; else no place for one.
fn no_names<'a>(alloc: Global, are_said: bool) -> Result<Vec<Option<&'a [u8]>>, AllocError>
    ensures { IfOk result (λ v. map (option_map (λ name. name.now)) v.items
        ≡ (if are_said then replicate 4096 None else [])) }
{
    let mut names = Vec::new(alloc);
    if !are_said {
        return Ok(names);
    }
    names.resize(FCODES, None)?;
    Ok(names)
}

/// No open structure, where structures are counted.
fn no_depth(is_counted: bool) -> Option<usize>
    ensures { result ≡ (if is_counted then Some 0 else None) }
{
    if is_counted { Some(0) } else { None }
}

impl<'a> Notes<'a> {
    /// Before the first token.
    pub fn new(alloc: Global, extras: Extras) -> Result<Notes<'a>, AllocError>
        ensures { IfOk result (λ n. n ≡ first_notes extras) }
    {
        let names = no_names(alloc, extras.names)?;
        Ok(Notes {
            names,
            depth: no_depth(extras.indents),
        })
    }

    /// How many structures are open, where lines are indented.
    pub fn depth(&self) -> Option<usize>
        ensures { result ≡ self.now.depth }
    {
        self.depth
    }

    /// The name that an FCode was given, if it was given one.
    fn name_given(&self, code: FCode) -> Option<&'a [u8]>
        ensures { option_map (λ name. name.now) result ≡ name_given self.now.names code.0 }
    {
        match self.names.get(usize::from(code.0)) {
            Some(name) => *name,
            None => None,
        }
    }

    /// The name to be said of a token: that of its operand, or its own.
    pub fn name_of(&self, token: Token<'_>) -> Option<&'a [u8]>
        ensures { option_map (λ name. name.now) result
            ≡ name_of_token token.entry.code.0 (argument_shown token.entry.argument) self.now.names }
    {
        match token.argument {
            Argument::Nothing => self.name_given(token.code),
            Argument::FCode(code) if !is_nameless(token.code) => self.name_given(code),
            _ => None,
        }
    }

    /// Gives a name to an FCode, or takes it.
    #[tactic(auto, using(crate::proofs::Loops::one_name))]
    fn give(&mut self, code: FCode, name: Option<&'a [u8]>)
        ensures { self.new ≡ record self.old {
          names = set self.old.names code.0
              (option_map (λ name. name.now) name.entry);
        } }
    {
        let place = usize::from(code.0);
        if place < self.names.len() {
            self.names[place] = name;
        }
    }

    /// Takes note of a token.
    pub fn pass(&mut self, token: Token<'a>)
        ensures { self.new ≡ behind_token (token_shown token.entry) self.old }
    {
        if let Some(depth) = self.depth {
            self.depth = Some(nest_of(token).depth_behind(depth));
        }
        match token.argument {
            Argument::Named(name, code) => self.give(code, Some(name)),
            Argument::FCode(code) if is_nameless(token.code) => self.give(code, None),
            _ => {}
        }
    }
}
