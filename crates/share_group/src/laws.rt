//! What holds of the definitions that the contracts cite. Each law is the contract of a function that does nothing.
ghost use Rattle.share_group.specs.Laws as laws;

/// The smallest unused name is unused, and each smaller name is used; once it is put among the names it is used.
pub fn smallest_unused_name()
    ensures { laws.SmallestUnused }
{}

/// Freeing a name leaves it unused, and leaves every other name with its object.
pub fn freeing_one_name()
    ensures { laws.FreesOne }
{}

/// Generating so many names gives as many, none of which was used, in rising order. Each smaller number is used then,
/// from 1 on; and freeing them again leaves what was there.
pub fn smallest_names_are_given()
    ensures { laws.GivesTheSmallest }
{}
