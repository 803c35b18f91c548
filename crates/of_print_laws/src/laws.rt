// A law has no parameters and does nothing: its contract is the law.

ghost use Rattle.of_compile.specs.Coding.{Coding};
ghost use Rattle.of_compile.specs.Structured.{Definitions};
ghost use Rattle.of_print_laws.specs.Printed.{PrintedStays};

/// What was printed stays: no load, console line, step or answer takes back or changes a byte of the console, and what
/// is printed goes behind all that was. So the console at any time begins the console at any later time.
pub fn printed_stays()
    ensures cells { PrintedStays Coding }
    ensures bodies { PrintedStays Definitions }
{}
