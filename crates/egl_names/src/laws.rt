//! What is true of the tables, whatever the text and the number: the contracts of functions that do nothing.
ghost use Rattle.egl_names.specs.Laws.{AreInverse, AreOnTheList, AreDistinct, ErrorsAreNamed, ConstantsAreNamed};

/// The name of a name's code is that name, and the code of a code's name is that code.
pub fn names_and_codes_are_inverse()
    ensures { AreInverse }
{}

/// A code is 3,000,000,000 and the place in the list of names; no other text has a code, and no other number a name.
pub fn codes_are_places()
    ensures { AreOnTheList }
{}

/// No name stands twice, and no word that stands for a number is a name.
pub fn names_are_distinct()
    ensures { AreDistinct }
{}

/// The code of each error is the code of its name.
pub fn errors_are_named()
    ensures { ErrorsAreNamed }
{}

/// Each constant of `codes` is the code or the number of the word that it is named after.
pub fn constants_are_named()
    ensures { ConstantsAreNamed }
{}
