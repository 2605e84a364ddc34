//! What is true of the configs and of every choice: the contracts of functions that do nothing.
ghost use Rattle.std.specs.Prelude.{ℤ, List};
ghost use Rattle.config_match.specs.Configs.{chosen};
ghost use Rattle.config_match.specs.Laws.{KeysDiffer, BitsFit, IsChoice, IdsAreOneToEight, AllHavePbuffers, IsCompatibility};

/// No two configs have one key, so that there is one order.
pub fn keys_differ()
    ensures { KeysDiffer }
{}

/// No list asks for more than 32 bits of a config's colours, so that more requested bits always come first.
pub fn requested_bits_fit()
    ensures { BitsFit }
{}

/// A choice has the id of each config that the list matches, once, and no other, in rising order of their keys.
pub fn a_choice_has_those_that_match_in_order()
    ensures { (list : List ℤ) → IsChoice list (chosen list) }
{}

/// The ids of the configs are 1 to 8.
pub fn ids_are_one_to_eight()
    ensures { IdsAreOneToEight }
{}

/// Each config has the bit of pbuffers among its kinds of surfaces, so that a pbuffer of any config may be made (EGL 1.5, section 3.5.2).
pub fn every_config_has_pbuffers()
    ensures { AllHavePbuffers }
{}

/// A config is compatible with itself, and what is no config with nothing; compatibility goes either way.
pub fn compatible_either_way()
    ensures { IsCompatibility }
{}
