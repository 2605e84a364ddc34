//! Holds what another driver answered against the specification: each line of its log agrees, or differs, in what and from what.
//!
//! It knows no text and no driver of a system: a log is a value here, and so is what is found.
//!
//! Its tests are in `reader_check`.
#![tactic(auto)]

mod answers;
mod bases;
mod calls;
mod configs;
mod differences;
mod facts;
mod fences;
mod folding;
mod fronts;
mod judgements;
mod judging;
mod kept;
pub mod laws;
mod maps;
mod outcomes;
mod pixels;
mod sorts;
mod used_names;
mod variables;

pub use answers::Stands;
pub use bases::Basis;
pub use configs::{ConfigMap, ConfigPair};
pub use differences::{Difference, PixelDifference};
pub use folding::judge;
pub use judgements::{CutCall, Judgement, LineVerdict, Note, Unjudged};
pub use judging::Setting;
pub use kept::Kept;
pub use maps::Both;
pub use pixels::{Grid, MOST_DELTA};
pub use sorts::{Mapped, Sort};
pub use used_names::NamePlaces;
pub use variables::Variable;
