// A law has no parameters and does nothing: its contract is the law.
ghost use Rattle.of_compile.specs.Coding.{Coding};
ghost use Rattle.of_eval.specs.Executing.{PlansUnroll};
ghost use Rattle.of_eval.specs.Laws.{ActsWorkOnStacks, WordsAreExecuted};

/// A plan is what the word behind the defers comes to, where that of the word which it runs is the plan then.
#[tactic(auto, using(crate::proofs::Executed::plans_unroll))]
pub fn plans_unroll()
    ensures { PlansUnroll }
{}

/// A written word that runs no other does what its entry says, by its execution token; `execute` does what the word
/// does of the cell that it takes, and `catch` what it does under a handler; and an own word that is no defer does what
/// its kind says.
#[tactic(auto, using(crate::proofs::Executed::words_are_executed))]
pub fn words_are_executed()
    ensures { WordsAreExecuted Coding }
{}

/// What a word of control does, and a word over the return stack, is what the two stacks say of it.
#[tactic(auto, using(crate::proofs::Registers::acts_work_on_stacks))]
pub fn acts_work_on_stacks()
    ensures { ActsWorkOnStacks Coding }
{}
