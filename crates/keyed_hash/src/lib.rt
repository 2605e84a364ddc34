//! Hashes under a key, for maps whose keys input picks.
//!
//! Whoever picks the keys of a map and knows how it hashes them can make them collide, and then each look-up walks past all
//! others. Here a hash begins with a key: names that collide under one key don't under another. A run has to be the same
//! each time, so the key can't be drawn by chance. It goes by all bytes of an input: whoever changes a byte of it has another
//! key. So to make an input whose names collide under its own key, they have to be searched for anew for each input that is
//! tried, and the names found change the input: about as many inputs have to be tried as there are keys for each that serves.
//!
//! The hash is SipHash-1-3, which Rust's maps use; a key is 128 bits. It keeps names from colliding for who doesn't know the
//! key. It is no signature: nothing here keeps a secret. This crate knows no map, and not what its keys name.
//!
//! It knows no input: whose bytes give the key its callers say.
//!
//! Its tests are in `table_check`.
#![tactic(auto)]

mod keys;
mod states;

pub use keys::HashKey;
pub use states::KeyedState;
