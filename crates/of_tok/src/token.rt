// The tokens of items that carry no offset.

ghost use Rattle.std.specs.Prelude.{◌≡◌, ◌+◌, true};
ghost use Rattle.of_stream.specs.Bytes.{is_code};
ghost use Rattle.of_stream.specs.Decoding.{token_shown};
ghost use Rattle.of_source.specs.Items.{call, code_of, made_shown, maker_token, own_code, plain_shown};
ghost use Rattle.of_source.specs.Encodable.{HasTokenBytes};

use of_fcodes::FCode;
use of_source::{Made, Maker, Name, Plain};
use of_stream::{Argument, Token};

/// The FCode of the definition of a number.
fn own_code(number: usize) -> FCode
    requires { is_code (0x800 + number) ≡ true }
    ensures { result ≡ own_code number }
{
    FCode((0x800 + number) as u16)
}

/// The FCode that a name stands for.
fn code_of(name: Name) -> FCode
    requires { is_code (code_of name).0 ≡ true }
    ensures { result ≡ code_of name }
{
    match name {
        Name::Listed(code) => code,
        Name::Own(number) => own_code(number),
    }
}

/// An FCode behind which nothing stands.
pub fn call<'a>(code: FCode) -> Token<'a>
    ensures { token_shown result ≡ call code }
{
    Token {
        code,
        argument: Argument::Nothing,
    }
}

/// The token that gives a definition its number.
pub fn maker_token(made: &Made) -> Token<'_>
    requires { HasTokenBytes (maker_token (made_shown made.now)) }
    ensures { token_shown result ≡ maker_token (made_shown made.now) }
{
    match made.maker {
        Maker::Named => Token {
            code: FCode(0x0b6),
            argument: Argument::Named(made.name.as_slice(), own_code(made.number)),
        },
        Maker::External => Token {
            code: FCode(0x0ca),
            argument: Argument::Named(made.name.as_slice(), own_code(made.number)),
        },
        Maker::Unnamed => Token {
            code: FCode(0x0b5),
            argument: Argument::FCode(own_code(made.number)),
        },
    }
}

/// The token of an item that is one by itself.
pub fn plain_token(plain: &Plain) -> Token<'_>
    requires { HasTokenBytes (plain_shown plain.now) }
    ensures { token_shown result ≡ plain_shown plain.now }
{
    match plain {
        Plain::Call(name) => call(code_of(*name)),
        Plain::Literal(x) => Token {
            code: FCode(0x010),
            argument: Argument::Literal(*x),
        },
        Plain::String(text) => Token {
            code: FCode(0x012),
            argument: Argument::String(text.as_slice()),
        },
        Plain::Naming(code, name) => Token {
            code: *code,
            argument: Argument::FCode(code_of(*name)),
        },
    }
}
