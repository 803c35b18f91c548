// A law has no parameters and does nothing: its contract is the law.
ghost use Rattle.of_compile.specs.Coding.{Coding};
ghost use Rattle.of_compile.specs.Structured.{Definitions};
ghost use Rattle.of_interpret.specs.Laws.{TextWordsDo};

/// What single words of a text do, while words are executed and while they are compiled.
pub fn text_words_do()
    ensures cells { TextWordsDo Coding }
    ensures bodies { TextWordsDo Definitions }
{}
