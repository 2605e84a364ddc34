//! What holds of the definitions that the contracts cite. Each law is the contract of a function
//! that does nothing.

ghost use Rattle.surface_store.specs.Laws as laws;

/// The format of each config's surfaces keeps the bits of the config's colours.
pub fn formats_have_sizes()
    ensures { laws.FormatsHaveSizes }
{}

/// Surfaces of compatible configs are stored alike.
pub fn compatible_store_alike()
    ensures { laws.CompatibleStoreAlike }
{}

/// A new pbuffer has pixels that fit it.
pub fn pbuffers_fit()
    ensures { laws.PbuffersFit }
{}

/// A surface whose pixels were taken out is one still.
pub fn taken_fits()
    ensures { laws.TakenFits }
{}
