ghost use Rattle.std.specs.Prelude.{◌≡◌, ◌≤◌, length};
ghost use Rattle.of_stacks.specs.Throws.{throw_text, later_throw_text};

/// The text of a throw below -22.
#[tactic(auto, unfolding(crate::specs::Throws::later_throw_text))]
fn later_text_of(code: i32) -> &'static str
    ensures text { result.now ≡ later_throw_text code }
    ensures short { length result.now ≤ 30 }
{
    match code {
        -23 => "address alignment exception",
        -24 => "invalid numeric argument",
        -25 => "return stack imbalance",
        -26 => "loop parameters unavailable",
        -29 => "compiler nesting",
        -31 => "not a created word",
        -32 => "invalid name argument",
        -256 => "fcode not assigned",
        -257 => "image ended",
        -258 => "bus fault",
        -259 => "no such node",
        -260 => "no such instance",
        -261 => "no such method",
        -262 => "property value too short",
        -263 => "bad handle",
        _ => "thrown by the program",
    }
}

/// The text of a throw, of at most 30 bytes: what the fault is, or that a program threw a number
/// of its own.
#[tactic(auto, unfolding(crate::specs::Throws::throw_text))]
pub fn text_of(code: i32) -> &'static str
    ensures text { result.now ≡ throw_text code }
    ensures short { length result.now ≤ 30 }
{
    match code {
        -1 => "abort",
        -3 => "stack overflow",
        -4 => "stack underflow",
        -5 => "return stack overflow",
        -6 => "return stack underflow",
        -8 => "dictionary overflow",
        -9 => "invalid memory address",
        -10 => "division by zero",
        -13 => "undefined word",
        -14 => "compile-only word",
        -16 => "zero-length name",
        -17 => "pictured output overflow",
        -19 => "name too long",
        -20 => "write to a read-only location",
        -22 => "control structure mismatch",
        _ => later_text_of(code),
    }
}
