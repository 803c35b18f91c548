// From the end: the tokens, with where their offsets lead.

ghost use Rattle.std.specs.Prelude.{◌≡◌, map, reverse, OnOk, IfOk};
ghost use Rattle.std.specs.List.{All};
ghost use Rattle.of_source.specs.Encodable.{HasBytes};
ghost use Rattle.of_source.specs.Items.{item_shown};
ghost use Rattle.of_tok.specs.Layout.{Placed as AtPlace, laid_end, laid_over};
ghost use Rattle.of_tok.specs.Shown.{placed_shown, written_shown};
ghost use Rattle.of_tok.specs.Tokens.{branch_code, do_code, first, loop_code, others};

use crate::place::Place;
use crate::placing::{Placed, first};
use crate::token::{call, maker_token, plain_token};
use crate::written::{Written, aimed, straight};
use of_fcodes::FCode;
use of_source::{Item, Made};
use std::alloc::{AllocError, Global};
use std::marker::Model;

/// What is laid out: where the open branches lead, where the open parts end, and the tokens, the
/// last first.
#[derive(Drop)]
pub struct Laid<'a> {
    aims: Vec<usize>,
    ends: Vec<usize>,
    tokens: Vec<Written<'a>>,
}

// Clauses see what is open latest first, and the tokens in the order of the image.
impl<'a> Model for Laid<'a> {
    ghost use Rattle.std.specs.Prelude.{map, reverse};
    ghost use Rattle.of_tok.specs.Layout.{Laid as Tokens};
    ghost use Rattle.of_tok.specs.Shown.{written_shown};

    ghost Value = { Tokens };

    ghost view = { λ q. record {
      aims = reverse q.aims.items;
      ends = reverse q.ends.items;
      tokens = reverse (map written_shown q.tokens.items);
    } };
}

/// Takes the latest position, 0 where there is none.
fn take(positions: &mut Vec<usize>) -> usize
    ensures first { result ≡ first (reverse positions.old.items) }
    ensures others { reverse positions.new.items ≡ others (reverse positions.old.items) }
{
    match positions.pop() {
        Some(position) => position,
        None => 0,
    }
}

/// `b?branch`, or `bbranch`, which asks for no flag.
fn branch_code(tests: bool) -> FCode
    ensures { result.0 ≡ branch_code tests }
{
    FCode(if tests { 0x014 } else { 0x013 })
}

/// `b(?do)`, or `b(do)`, which skips nothing.
fn do_code(tests: bool) -> FCode
    ensures { result.0 ≡ do_code tests }
{
    FCode(if tests { 0x018 } else { 0x017 })
}

/// `b(+loop)`, or `b(loop)`, which counts by one.
fn loop_code(adds: bool) -> FCode
    ensures { result.0 ≡ loop_code adds }
{
    FCode(if adds { 0x016 } else { 0x015 })
}

impl<'a> Laid<'a> {
    ghost use Rattle.of_tok.specs.Layout.{closing, ending, item_laid, laid_before, laid_end, putting, without_aim};
    ghost use Rattle.of_tok.specs.Layout.{without_end};
    ghost use Rattle.of_source.specs.Encodable.{HasBytes, HasTokenBytes};
    ghost use Rattle.of_source.specs.Items.{item_shown, made_shown, maker_token};
    ghost use Rattle.of_source.specs.Items as item;
    ghost use Rattle.of_tok.specs.Tokens.{aimed};

    /// The end of a source.
    fn new(alloc: Global, end: Place) -> Result<Self, AllocError>
        ensures { IfOk result (λ q. q ≡ laid_end end) }
    {
        let mut tokens = Vec::new(alloc);
        tokens.push(straight(FCode(0x000), end))?;
        Ok(Laid {
            aims: Vec::new(alloc),
            ends: Vec::new(alloc),
            tokens,
        })
    }

    /// Puts a token in front.
    fn put(&mut self, token: Written<'a>) -> Result<(), AllocError>
        ensures { OnOk result (self.new ≡ putting (written_shown token.entry) self.old) }
    {
        self.tokens.push(token)?;
        Ok(())
    }

    /// A branch is closed that leads to this position.
    fn close(&mut self, position: usize) -> Result<(), AllocError>
        ensures { OnOk result (self.new ≡ closing position self.old) }
    {
        self.aims.push(position)?;
        Ok(())
    }

    /// The latest branch begins here: where it leads.
    fn take_aim(&mut self) -> usize
        ensures aim { result ≡ first self.old.aims }
        ensures others { self.new ≡ without_aim self.old }
    {
        take(&mut self.aims)
    }

    /// A part ends at this position.
    fn end(&mut self, position: usize) -> Result<(), AllocError>
        ensures { OnOk result (self.new ≡ ending position self.old) }
    {
        self.ends.push(position)?;
        Ok(())
    }

    /// The innermost part begins here: where it ends.
    fn take_end(&mut self) -> usize
        ensures end { result ≡ first self.old.ends }
        ensures others { self.new ≡ without_end self.old }
    {
        take(&mut self.ends)
    }

    /// `else`: closes the branch that opens before it, and opens its own.
    fn lay_else(&mut self, word: usize, place: Place, next: usize) -> Result<(), AllocError>
        ensures { OnOk result (self.new ≡ item_laid (item.Else word) place 0 next self.old) }
    {
        let aim = self.take_aim();
        self.close(next)?;
        self.put(straight(FCode(0x0b2), place))?;
        self.put(aimed(word, FCode(0x013), place, aim))
    }

    /// A token whose offset leads behind the part that begins with it.
    fn lay_opener(&mut self, word: usize, code: FCode, place: Place) -> Result<(), AllocError>
        ensures { OnOk result
            (self.new ≡ putting (aimed word code.0 place (first self.old.ends)) (without_end self.old)) }
    {
        let end = self.take_end();
        self.put(aimed(word, code, place, end))
    }

    /// `endof`: leads behind the case, and ends its part.
    fn lay_end_of(&mut self, word: usize, place: Place, next: usize) -> Result<(), AllocError>
        ensures { OnOk result (self.new ≡ item_laid (item.EndOf word) place 0 next self.old) }
    {
        let end = first(&self.ends);
        self.end(next)?;
        self.put(aimed(word, FCode(0x0c6), place, end))
    }

    /// `case`: begins a part.
    fn lay_case(&mut self, place: Place) -> Result<(), AllocError>
        ensures { OnOk result (self.new ≡ item_laid item.Case place 0 0 self.old) }
    {
        let _ = self.take_end();
        self.put(straight(FCode(0x0c4), place))
    }

    /// A token that ends a part.
    fn lay_closer(&mut self, token: Written<'a>, next: usize) -> Result<(), AllocError>
        ensures { OnOk result (self.new ≡ putting (written_shown token.entry) (ending next self.old)) }
    {
        self.end(next)?;
        self.put(token)
    }

    /// `if` or `while`: opens a branch.
    fn lay_if(&mut self, word: usize, place: Place) -> Result<(), AllocError>
        ensures { OnOk result (self.new ≡ item_laid (item.If word) place 0 0 self.old) }
    {
        let aim = self.take_aim();
        self.put(aimed(word, FCode(0x014), place, aim))
    }

    /// `then`: closes a branch.
    fn lay_then(&mut self, place: Place, next: usize) -> Result<(), AllocError>
        ensures { OnOk result (self.new ≡ item_laid item.Then place 0 next self.old) }
    {
        self.close(next)?;
        self.put(straight(FCode(0x0b2), place))
    }

    /// `:` behind the token that gives its definition its number.
    fn lay_colon(&mut self, made: &'a Made, place: Place) -> Result<(), AllocError>
        requires { HasTokenBytes (maker_token (made_shown made.now)) }
        ensures { OnOk result
            (self.new ≡ item_laid (item.Colon (made_shown made.now)) place 0 0 self.old) }
    {
        let maker = maker_token(made);
        let behind = maker.size_behind(place.size);
        self.put(Written::Straight(behind, call(FCode(0x0b7))))?;
        self.put(Written::Straight(place.size, maker))
    }

    /// Another defining word behind the token that gives its definition its number.
    fn lay_defining(&mut self, made: &'a Made, code: FCode, place: Place) -> Result<(), AllocError>
        requires { HasTokenBytes (maker_token (made_shown made.now)) }
        ensures { OnOk result
            (self.new ≡ item_laid (item.Defining (made_shown made.now) code) place 0 0 self.old) }
    {
        let maker = maker_token(made);
        let behind = maker.size_behind(place.size);
        self.put(Written::Straight(behind, call(code)))?;
        self.put(Written::Straight(place.size, maker))
    }

    /// Puts an item in front.
    fn lay(&mut self, x: Placed<'a>) -> Result<(), AllocError>
        requires { HasBytes (item_shown x.item.now) }
        ensures { OnOk result (self.new ≡ laid_before (placed_shown x.entry) self.old) }
    {
        match x.item {
            Item::Plain(plain) => self.put(Written::Straight(x.place.size, plain_token(plain))),
            Item::Colon(made) => self.lay_colon(made, x.place),
            Item::Defining(made, code) => self.lay_defining(made, *code, x.place),
            Item::Semicolon => self.put(straight(FCode(0x0c2), x.place)),
            Item::If(word) => self.lay_if(*word, x.place),
            Item::Else(word) => self.lay_else(*word, x.place, x.next),
            Item::Then => self.lay_then(x.place, x.next),
            Item::Begin => self.put(straight(FCode(0x0b1), x.place)),
            Item::Back(tests, word) => {
                self.put(aimed(*word, branch_code(*tests), x.place, x.start))
            }
            Item::Do(tests, word) => self.lay_opener(*word, do_code(*tests), x.place),
            Item::Loop(adds, word) => {
                self.lay_closer(aimed(*word, loop_code(*adds), x.place, x.start), x.next)
            }
            Item::Leave => self.put(straight(FCode(0x01b), x.place)),
            Item::Case => self.lay_case(x.place),
            Item::Of(word) => self.lay_opener(*word, FCode(0x01c), x.place),
            Item::EndOf(word) => self.lay_end_of(*word, x.place, x.next),
            Item::EndCase => self.lay_closer(straight(FCode(0x0c5), x.place), x.next),
        }
    }
}

/// The tokens of items at their places, the last first, `end0` at the place behind them all.
#[tactic(auto, using(crate::proofs::LayLemmas::last_laid))]
pub fn lay_out<'a>(
    alloc: Global,
    mut placed: Vec<Placed<'a>>,
    end: Place,
) -> Result<Vec<Written<'a>>, AllocError>
    requires { All (λ (x : AtPlace). HasBytes x.item) (map placed_shown placed.items) }
    ensures { IfOk result (λ ws. reverse (map written_shown ws.items)
        ≡ (laid_over (map placed_shown placed.entry.items) (laid_end end)).tokens) }
{
    let mut laid = Laid::new(alloc, end)?;
    while let Some(x) = placed.pop() {
        laid.lay(x)?;
    }
    let Laid { tokens, .. } = laid;
    Ok(tokens)
}
