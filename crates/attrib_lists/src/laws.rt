//! What is true of every attribute list: the contracts of functions that do nothing.
ghost use Rattle.attrib_lists.specs.Laws.{NamesTheFirst, TheLastCounts};

/// The place that is named is that of the first bad attribute.
pub fn the_first_bad_attribute_is_named()
    ensures { NamesTheFirst }
{}

/// Of several pairs with one attribute, the last counts.
pub fn the_last_pair_counts()
    ensures { TheLastCounts }
{}
