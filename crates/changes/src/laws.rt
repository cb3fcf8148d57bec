//! Laws of changes, each as the contract of an empty function.

ghost use Rattle.changes.specs.Laws.{PutsAreSets};

/// What is put into a slot by way of changes is put there as [`page::Page::set`] puts it.
pub fn puts_are_sets()
    ensures { PutsAreSets }
{}
