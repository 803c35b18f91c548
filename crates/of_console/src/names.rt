ghost use Rattle.std.specs.Prelude.{◌≡◌, ◌∷◌, ◌++◌, [], length, map, reverse, slice_get, option_copied, option_map};
ghost use Rattle.std.specs.Prelude.{IfOk, OnOk};
ghost use Rattle.of_dict.specs.Words.{listed};
ghost use Rattle.of_nodes.specs.Nodes.{number_of};
ghost use Rattle.of_console.specs.Names.{listed_below, method_name, methods_of, name_with_xt, names_shown, words_text};
ghost use Rattle.of_console.specs.Names.{shown_if};

use of_cells::Cell;
use of_dict::{Dict, OwnWord};
use of_nodes::{Phandle, Tree};
use std::alloc::{AllocError, Global};

/// Appends a name and a space.
fn push_name(name: &[u8], out: &mut Vec<u8>) -> Result<(), AllocError>
    ensures { OnOk result (out.new.items ≡ out.old.items ++ name.now ++ 32 ∷ []) }
{
    out.extend_from_slice(name)?;
    out.push(b' ')?;
    Ok(())
}

/// Appends the name that is listed in the place of a word, if one is, and a space.
fn push_listed(dictionary: &Dict, word: OwnWord, out: &mut Vec<u8>) -> Result<(), AllocError>
    ensures { OnOk result (out.new.items ≡ out.old.items ++ shown_if (listed dictionary.now word.0)) }
{
    match dictionary.listed(word) {
        Some(name) => push_name(name, out),
        None => Ok(()),
    }
}

/// Appends the names of the dictionary, the newest place first, and a newline.
fn push_words(dictionary: &Dict, out: &mut Vec<u8>) -> Result<(), AllocError>
    ensures { OnOk result
        (out.new.items ≡ out.old.items ++ names_shown (listed_below dictionary.now (length dictionary.now))) }
{
    let mut number = dictionary.made();
    while number > 0 {
        number -= 1;
        push_listed(dictionary, OwnWord(number as u32), out)?;
    }
    out.push(b'\n')?;
    Ok(())
}

/// The name of the own word that has an execution token.
fn name_with_xt(dictionary: &Dict, xt: Cell) -> Option<&[u8]>
    ensures { option_copied result ≡ name_with_xt dictionary.now xt.0 }
{
    let _ = dictionary.made();
    match OwnWord::with_xt(xt) {
        Some(word) => dictionary.name_of(word),
        None => None,
    }
}

/// A method's name, which is kept in lower case, as its word spells it.
fn method_name<'a>(dictionary: &'a Dict, name: &'a [u8], xt: Cell) -> &'a [u8]
    ensures { result.now ≡ method_name dictionary.now (name.now, xt) }
{
    match name_with_xt(dictionary, xt) {
        Some(spelling) => {
            if spelling.eq_ignore_ascii_case(name) {
                return spelling;
            }
            name
        }
        None => name,
    }
}

/// The name of the method at a place in the order of a node, if it has so many.
fn method_at<'a>(
    tree: &'a Tree,
    dictionary: &'a Dict,
    node: Phandle,
    place: usize,
) -> Option<&'a [u8]>
    ensures { option_copied result ≡ option_map (method_name dictionary.now)
        (slice_get (methods_of tree.now (number_of (length tree.now) node)) place) }
{
    match tree.method_at(node, place) {
        Ok(Some((name, xt))) => Some(method_name(dictionary, name, xt)),
        Ok(None) => None,
        Err(_) => None,
    }
}

/// The names of a node's methods, the oldest place first.
fn methods_named<'a>(
    alloc: Global,
    tree: &'a Tree,
    dictionary: &'a Dict,
    node: Phandle,
) -> Result<Vec<&'a [u8]>, AllocError>
    ensures { IfOk result (λ names. map (λ name. name.now) names.items
        ≡ map (method_name dictionary.now) (methods_of tree.now (number_of (length tree.now) node))) }
{
    let mut names = Vec::new(alloc);
    while let Some(name) = method_at(tree, dictionary, node, names.len()) {
        names.push(name)?;
    }
    Ok(names)
}

/// Appends names, the last first, and a newline.
fn push_last_first(names: Vec<&[u8]>, out: &mut Vec<u8>) -> Result<(), AllocError>
    ensures { OnOk result
        (out.new.items ≡ out.old.items ++ names_shown (reverse (map (λ name. name.now) names.entry.items))) }
{
    let mut left = names;
    while let Some(name) = left.pop() {
        push_name(name, out)?;
    }
    out.push(b'\n')?;
    Ok(())
}

/// What `words` prints (Forth 2012, 15.6.1.2465; IEEE 1275-1994, annex A, `words`): the names of the package's methods,
/// or without a package those of the dictionary, each with a space, the newest place first, and a newline. A name has
/// the place where it was first given, and is spelt as it was last defined. A phandle of no node has the newline alone.
pub fn words_text(
    alloc: Global,
    tree: &Tree,
    home: Option<Phandle>,
    dictionary: &Dict,
) -> Result<Vec<u8>, AllocError>
    ensures { IfOk result (λ text. text.items ≡ words_text tree.now home dictionary.now) }
{
    let mut out = Vec::new(alloc);
    match home {
        Some(node) => {
            let names = methods_named(alloc, tree, dictionary, node)?;
            push_last_first(names, &mut out)?;
        }
        None => push_words(dictionary, &mut out)?,
    }
    Ok(out)
}
