// A law has no parameters and does nothing: its contract is the law.

ghost use Rattle.of_argument_laws.specs.Lines.{LinesAsk};

/// What the lines of the usage text ask for, where no word of the user's begins with a hyphen: `run` and a path for a
/// run of at most 1,000,000 steps, with `--limit` and a number up to 1,000,000,000 for so many, or of thousands with
/// `k` or millions with `M`, with `--explain` for one whose end is explained, with `--tree` for one behind which the
/// device tree is printed, with `--words` for one behind which the words are, with `--see` and a name for one behind
/// which the word of that name is, with `--state` for one behind which the state is, with `--lines` and a path for one
/// behind which the console lines of that file are read, with `--answers` and a path for one with the answers of that
/// file, with `--board` and a path for one with the devices of that file, with `--trace` and a path for one of which
/// each step is written to that file, and with `--strict` for one at whose end a throw is a fault; `client`, a path,
/// `--calls` and a path for such a run and the calls of that file; `console`, alone or with a path, for a console
/// behind nothing or behind that image, with at most 1,000,000 steps a line; `debug`, a path, `--script` and a path for
/// a run of at most 1,000,000 steps under the script of that file, and with `--interactive` in place of the script for
/// one under the commands of the standard input; `tok` and a path for an image, with `--output` or `-o` and a path for
/// one that is written there, with `--symbols` for its symbols, and with `--listing` for the listing of its image;
/// `detok` and a path for a plain listing, with `--names`, `--indent` or `--partial` for one with that, with `--see`
/// for one of the definitions in place of the tokens; `check` and a path for a look at an image; `pci` and a path for
/// the images of a ROM; and `run`, `detok` and `check` with `--pci` for the FCode program of one. None has a fault.
pub fn lines_ask()
    ensures { LinesAsk }
{}
