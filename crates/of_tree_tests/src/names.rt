//! What `words` prints of a package's methods and of the dictionary.

ghost use Rattle.std.specs.Prelude.{◌<◌, IfOk};
ghost use Rattle.of_dict.specs.Words.{capacity};

use crate::calls::TreeRows;
use crate::rows::{Rows, check};
use crate::running::number;
use crate::shown::on_one_line;
use of_cells::Cell;
use of_console::{names_are_listed, words_text};
use of_dict::{Dict, DictFault, Kind, OwnWord};
use of_nodes::{NodeFault, Phandle, Tree};
use std::alloc::{AllocError, Global};
use std::test::Fail;

#[test]
fn law_holds() {
    names_are_listed();
}

/// A node by the digits of its phandle.
fn node_of(digits: &str) -> Phandle {
    Phandle(Cell(number(digits)))
}

/// Adds a constant of 0.
fn added(dictionary: &mut Dict, name: Option<&[u8]>) -> Result<OwnWord, DictFault>
    ensures { IfOk result (λ word. word.0 < capacity) }
{
    dictionary.add(name, Kind::Constant { value: Cell(0) })
}

/// Makes a word a method of the name and the node, and hides it: nothing else finds it.
fn made_method(
    tree: &mut Tree,
    dictionary: &mut Dict,
    node: Phandle,
    name: &[u8],
) -> Result<OwnWord, NodeFault> {
    let Ok(word) = added(dictionary, Some(name)) else {
        return Err(NodeFault::BadName);
    };
    tree.add_method(node, name, word.xt())?;
    dictionary.hide(word);
    Ok(word)
}

/// A call on the dictionary that answers nothing.
fn change(dictionary: &mut Dict, call: &str, word: OwnWord) {
    match call {
        "hide" => dictionary.hide(word),
        "reveal" => dictionary.reveal(word),
        _ => dictionary.remove(),
    }
}

/// The number of the word that a call makes.
fn word_shown(alloc: Global, made: Option<OwnWord>) -> Result<String, AllocError> {
    match made {
        Some(OwnWord(number)) => format!(in alloc; "{number}"),
        None => String::from_str(alloc, "refused"),
    }
}

/// Words and methods. `word` makes a word, `nameless` one without a name, `method` one that is made a method of a node;
/// `hide`, `reveal` and `remove` are the calls on the dictionary. `words` prints the methods of a node where one is
/// given, else the words. The other calls are those on a tree.
#[derive(Drop)]
struct NameRows {
    rows: TreeRows,
    dictionary: Dict,
}

impl NameRows {
    /// The word that a call makes.
    fn made(&mut self, call: &str, name: &str, target: &str) -> Option<OwnWord> {
        match call {
            "method" => {
                let tree = &mut self.rows.tree;
                made_method(tree, &mut self.dictionary, node_of(target), name.as_bytes()).ok()
            }
            "word" => added(&mut self.dictionary, Some(target.as_bytes())).ok(),
            _ => added(&mut self.dictionary, None).ok(),
        }
    }

    /// What `words` prints, on one line.
    fn printed(&self, alloc: Global, target: &str) -> Result<String, AllocError> {
        let home = match target {
            "" => None,
            digits => Some(node_of(digits)),
        };
        let text = words_text(alloc, &self.rows.tree, home, &self.dictionary)?;
        on_one_line(alloc, &text)
    }
}

impl Rows for NameRows {
    fn new(alloc: Global) -> Result<NameRows, Fail> {
        Ok(NameRows {
            rows: TreeRows::new(alloc)?,
            dictionary: Dict::new(alloc),
        })
    }

    fn halves(line: &str) -> (&str, &str) {
        TreeRows::halves(line)
    }

    fn given(&mut self, alloc: Global, call: &str) -> Result<String, Fail> {
        let mut words = call.split_whitespace();
        let word = words.next().unwrap_or("");
        let target = words.next().unwrap_or("");
        let name = words.next().unwrap_or("");
        match word {
            "words" => Ok(self.printed(alloc, target)?),
            "word" | "nameless" | "method" => Ok(word_shown(alloc, self.made(word, name, target))?),
            "hide" | "reveal" | "remove" => {
                change(&mut self.dictionary, word, OwnWord(number(target)));
                Ok(String::from_str(alloc, "done")?)
            }
            _ => self.rows.given(alloc, call),
        }
    }
}

/// Words, one defined again in another case, hidden and revealed, one without a name, and one with the longest name.
const WORDS: &str = "\
words = ;
word w = 0
word z = 1
words = z w ;
word W = 2
words = z W ;
hide 2 = done
words = z w ;
hide 0 = done
words = z ;
reveal 2 = done
words = W z ;
nameless = 3
words = W z ;
word abcdefghijklmnopqrstuvwxyz12345 = 4
words = abcdefghijklmnopqrstuvwxyz12345 W z ;
remove = done
words = W z ;
word y = 5
words = y W z ;
";

/// Methods, one made again in another case, and one whose name its word doesn't have, or no own word.
const METHODS: &str = "\
word w = 0
words d0000008 = ;
method d0000008 Open = 1
method d0000008 close = 2
words d0000008 = close Open ;
method d0000008 OPEN = 3
words d0000008 = close OPEN ;
words d0000004 = ;
method d0000004 Close = 4
words d0000004 = Close ;
words d0000008 = close OPEN ;
words = w ;
add_method d0000008 Seek c0000000 = done
words d0000008 = seek close OPEN ;
add_method d0000008 Read c000052c = done
words d0000008 = read seek close OPEN ;
take_back_method d0000008 Read - = done
words d0000008 = seek close OPEN ;
words d000000c = ;
words 0 = ;
";

#[test]
fn names_are_printed(rt: HostRuntime) -> Result<(), Fail> {
    check::<NameRows, _>(&rt, rt.alloc(), &[WORDS, METHODS])
}
