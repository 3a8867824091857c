//! What holds of all words. Each function has no body: its contract is the law.

ghost use Rattle.command_words.specs.Words.{OneTask, SizesAreSome};

/// Words spell one task at most.
pub fn one_task()
    ensures { OneTask }
{}

/// The sizes of leaves that words spell are not 0.
pub fn sizes_are_some()
    ensures { SizesAreSome }
{}
