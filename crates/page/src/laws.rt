//! Laws of the encodings, each as the contract of an empty function.

ghost use Rattle.page.specs.Profile.{IsProfile};
ghost use Rattle.page.specs.Numbers.{AreNumbers};
ghost use Rattle.page.specs.Laws.{OnePageSpelling, OneStoreSpelling, OneStoreFault, NoFaultOfAStore};

/// The same bytes never encode two pages.
pub fn one_page_spelling()
    ensures { OnePageSpelling }
{}

/// The same bytes never encode two stores.
pub fn one_store_spelling()
    ensures { OneStoreSpelling }
{}

/// Bytes that are not a store have at most one error, besides a lack of memory.
pub fn one_store_fault()
    ensures { OneStoreFault }
{}

/// Bytes that encode a store have no error, besides a lack of memory.
pub fn no_fault_of_a_store()
    ensures { NoFaultOfAStore }
{}

/// The numbers of the profile keep what the proofs need.
pub fn numbers_of_the_profile()
    ensures { IsProfile }
{}

/// The numbers and the magics of pages and stores are those of the formats.
pub fn numbers_of_stores()
    ensures { AreNumbers }
{}
