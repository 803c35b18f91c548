//! Words of control and of the return stack over both stacks, and tokens with their operands.

use of_cells::Cell;
use of_fcodes::{FCode, ReturnsWord};
use of_flow::{
    ControlWord, Flow, Texts, Token, Typed, enter, exit, keeps_rest, run_control, run_stacks_word,
    typed_of,
};
use of_stacks::{Continuation, DataStack, Input, LoopExit, Reading, ReturnStack, Throw};
use of_stream::{Argument, Token as ReadToken};
use std::test::Fail;

/// The stack of these cells, the top last.
fn stack_of(cells: &[u32]) -> Result<DataStack, Fail> {
    let mut stack = DataStack::new();
    for x in cells {
        stack.try_push(Cell(*x))?;
    }
    Ok(stack)
}

/// `of` goes to its target where the numbers differ, and leaves the lower one then.
#[test]
fn arms(rt: HostRuntime) -> Result<(), Fail> {
    let mut items = ReturnStack::new(rt.alloc())?;
    let exit = LoopExit::Position(0);
    let mut stack = stack_of(&[5, 6])?;
    let goes = run_control(ControlWord::Of, true, exit, &mut stack, &mut items);
    assert_eq!(rt; goes, Ok(true));
    assert_eq!(rt; stack.cells(), [Cell(5)].as_slice());
    stack.try_push(Cell(5))?;
    let goes = run_control(ControlWord::Of, true, exit, &mut stack, &mut items);
    assert_eq!(rt; goes, Ok(false));
    assert_eq!(rt; stack.depth(), 0);
    Ok(())
}

/// A loop from 3 to 5 gives 3 and then 4, and ends at 5.
#[test]
fn loops(rt: HostRuntime) -> Result<(), Fail> {
    let mut items = ReturnStack::new(rt.alloc())?;
    let exit = LoopExit::Position(0);
    let mut stack = stack_of(&[5, 3])?;
    let goes = run_control(ControlWord::Do, true, exit, &mut stack, &mut items);
    assert_eq!(rt; goes, Ok(false));
    run_stacks_word(ReturnsWord::Index, &mut stack, &mut items)?;
    let goes = run_control(ControlWord::Loop, true, exit, &mut stack, &mut items);
    assert_eq!(rt; goes, Ok(true));
    run_stacks_word(ReturnsWord::Index, &mut stack, &mut items)?;
    assert_eq!(rt; stack.cells(), [Cell(3), Cell(4)].as_slice());
    let goes = run_control(ControlWord::Loop, true, exit, &mut stack, &mut items);
    assert_eq!(rt; goes, Ok(false));
    assert_eq!(rt; keeps_rest(ControlWord::Loop, false), false);
    assert_eq!(rt; keeps_rest(ControlWord::Do, false), true);
    Ok(())
}

/// A word begins at its cell, and its end goes back behind it.
#[test]
fn words_end(rt: HostRuntime) -> Result<(), Fail> {
    let mut flow = Flow {
        items: ReturnStack::new(rt.alloc())?,
        reading: Reading {
            input: Input::Nothing,
            opened: None,
        },
        is_running: true,
        next: Continuation::Code(9),
        is_compiling: false,
        home: None,
        texts: Texts::new(rt.alloc()),
        strings: 0,
    };
    enter(40, &mut flow)?;
    assert_eq!(rt; flow.next, Continuation::Code(40));
    exit(&mut flow)?;
    assert_eq!(rt; flow.next, Continuation::Code(9));
    assert_eq!(rt; exit(&mut flow), Err(Throw::RETURN_STACK_IMBALANCE));
    Ok(())
}

/// The latest text is read, and then the one around it.
#[test]
fn texts_are_nested(rt: HostRuntime) -> Result<(), Fail> {
    let mut texts = Texts::new(rt.alloc());
    texts.push(b"evaluate")?;
    texts.push(b"1 +")?;
    assert_eq!(rt; texts.latest(), b"1 +".as_slice());
    texts.pop();
    assert_eq!(rt; texts.latest(), b"evaluate".as_slice());
    texts.clear();
    assert_eq!(rt; texts.latest(), b"".as_slice());
    Ok(())
}

/// What a token is: its word in the stream and its operand.
fn name_of(code: u16, argument: Argument<'_>) -> &'static str {
    match typed_of(ReadToken {
        code: FCode(code),
        argument,
    }) {
        Typed::Plain(Token::Case) => "b(case)",
        Typed::Plain(Token::Control(ControlWord::Branch, -3)) => "bbranch, three back",
        Typed::Plain(Token::Word(FCode(0x9d))) => "the word of 0x9d",
        Typed::NamedToken(b"ab", FCode(0x800)) => "named-token ab",
        _ => "another",
    }
}

#[test]
fn tokens_are_typed(rt: HostRuntime) -> Result<(), Fail> {
    assert_eq!(rt; name_of(0xc4, Argument::Nothing), "b(case)");
    assert_eq!(rt; name_of(0x13, Argument::Offset(-3)), "bbranch, three back");
    assert_eq!(rt; name_of(0x9d, Argument::Nothing), "the word of 0x9d");
    assert_eq!(rt;
        name_of(0xb6, Argument::Named(b"ab", FCode(0x800))),
        "named-token ab"
    );
    assert_eq!(rt; name_of(0xc5, Argument::Nothing), "another");
    Ok(())
}
