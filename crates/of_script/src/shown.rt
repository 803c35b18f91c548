ghost use Rattle.std.specs.Prelude.{◌≡◌, IfOk, reverse};
ghost use Rattle.std.specs.String.{string_bytes};
ghost use Rattle.of_script.specs.Shown.{cells_text, state_line};

use of_cells::Cell;
use of_code::CodeStore;
use of_debug::Debugger;
use std::alloc::{AllocError, Global};

/// Cells in hexadecimal digits, each with a space behind it.
fn cells_text(alloc: Global, cells: &[Cell]) -> Result<String, AllocError>
    ensures { IfOk result (λ text. string_bytes text ≡ cells_text cells.now) }
{
    let mut text = String::new(alloc);
    let mut rest = cells;
    while let [cell, more @ ..] = rest {
        let number = cell.0;
        let shown = format!(in alloc; "{number:x} ")?;
        text.push_str(&shown)?;
        rest = more;
    }
    Ok(text)
}

/// The state that a debugger shows, as a line: how many steps were made, and the data stack, the bottom first.
pub(crate) fn state_line<C: CodeStore>(
    alloc: Global,
    debugger: &Debugger<'_, C>,
) -> Result<String, AllocError>
    ensures { IfOk result (λ line. string_bytes line ≡ state_line debugger.now) }
{
    let (made, machine) = debugger.shown();
    let cells = cells_text(alloc, machine.stack())?;
    let mut line = format!(in alloc; "@{made} [ ")?;
    line.push_str(&cells)?;
    line.push_str("]\n")?;
    Ok(line)
}
