//! What holds of the definitions that the contracts cite. Each law is the contract of a function
//! that does nothing.

ghost use Rattle.texture_objects.specs.Laws as laws;

/// A pair of a parameter and a value is accepted exactly where the table has it.
pub fn accepts_the_table()
    ensures { laws.AcceptsTheTable }
{}

/// A parameter that was set is answered.
pub fn answers_what_is_set()
    ensures { laws.AnswersWhatIsSet }
{}

/// After a parameter is set the others are as they were, and so is the crop rectangle.
pub fn keeps_other_parameters()
    ensures { laws.KeepsOtherParameters }
{}

/// The last level is the floor of the logarithm to base 2 of the larger side.
pub fn is_floor_of_log()
    ensures { laws.IsFloorOfLog }
{}

/// A texture is complete exactly where level 0 has storage and, with mipmaps, each level from 1 to the last has just the storage that it wants.
pub fn is_complete_by_its_levels()
    ensures { laws.IsCompleteByItsLevels }
{}

/// With mipmaps the sampled level is the greatest with enough texels.
pub fn samples_the_greatest_level()
    ensures { laws.SamplesTheGreatestLevel }
{}

/// With storage at level 0 alone a texture is complete where its filter uses no mipmaps or its storage is 1 by 1, and then level 0 is sampled.
pub fn is_plain_without_mipmaps()
    ensures { laws.IsPlainWithoutMipmaps }
{}

/// A pixel of a new image is read from its place in the data.
pub fn reads_pixels_at_their_places()
    ensures { laws.ReadsPixelsAtTheirPlaces }
{}

/// A null pointer gives a new image of zeros.
pub fn null_gives_zeros()
    ensures { laws.NullGivesZeros }
{}

/// A null pointer gives a part of an image zeros.
pub fn null_gives_a_part_zeros()
    ensures { laws.NullGivesAPartZeros }
{}
