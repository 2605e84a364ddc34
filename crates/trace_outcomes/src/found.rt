//! Outcomes, each once.
ghost use Rattle.std.specs.Prelude.{◌≡◌, [], nat_eq, OnOk};
ghost use Rattle.std.proofs.Common.{rules};
ghost use Rattle.std.specs.Cmp.Lexicographic.{pointwise};
ghost use Rattle.std.specs.Cmp.Rules.{comparing, hashing};
ghost use Rattle.std.specs.Hash as fed;
ghost use Rattle.std.specs.Ordering.{on};
ghost use Rattle.trace_outcomes.specs.Outcomes.{with_outcome};

use crate::outcomes::Outcome;
use egl_calls::{NoMemory, Text};
use indexmap::IndexSet;
use keyed_hash::{HashKey, KeyedState};
use std::alloc::Global;
use std::hash::{Hash, Hasher};
use std::marker::Model;

/// What an outcome is told apart by. It is hashed in one piece.
#[derive(Drop)]
struct Key {
    text: Text,
}

impl PartialEq for Key {
    ghost eq = { on (λ k. k.text) (pointwise nat_eq) };

    ghost laws = { Prim.search (comparing, rules) };

    fn eq(&self, other: &Self) -> bool {
        self.text.as_slice() == other.text.as_slice()
    }
}

impl Eq for Key {
    ghost laws = { Prim.search (comparing, rules) };
}

impl Hash for Key {
    ghost hash_input = { λ k. fed.str k.text };

    ghost respects_eq = { Prim.search (hashing, rules) };

    fn hash<H: Hasher>(&self, state: &mut H) {
        state.write(self.text.as_slice());
        state.write_u8(255);
    }
}

/// Outcomes, none of which is like one before it.
pub struct Found {
    keys: IndexSet<Key, KeyedState>,
    outcomes: Vec<Outcome>,
}

// Written out, so that no crate above proves the drops of what it owns.
impl Drop for Found {
    fn drop(self) {
        let Found {
            keys: _,
            outcomes: _,
        } = self;
    }
}

impl Model for Found {
    ghost use Rattle.std.specs.Prelude.{◌≡◌, List, map};
    ghost use Rattle.trace_outcomes.specs.Outcomes.{OutcomeValue, key_of};

    ghost Value = { List OutcomeValue };

    ghost view = { λ f. f.outcomes.items };

    ghost invariant = { λ f. map (λ k. k.text) f.keys.keys ≡ map key_of f.outcomes.items };
}

impl Found {
    /// No outcomes. They are hashed under a key.
    pub fn new(alloc: Global, key: HashKey) -> Self
        ensures { result ≡ [] }
    {
        Found {
            keys: IndexSet::with_hasher(alloc, KeyedState::new(key)),
            outcomes: Vec::new(alloc),
        }
    }

    /// Adds an outcome, unless there is one like it.
    pub fn add(&mut self, alloc: Global, outcome: Outcome) -> Result<(), NoMemory>
        ensures { OnOk result (self.new ≡ with_outcome self.old outcome) }
    {
        let text = outcome.key(alloc)?;
        if self.outcomes.reserve(1).is_err() {
            return Err(NoMemory);
        }
        let Ok(is_new) = self.keys.insert(Key { text }) else {
            return Err(NoMemory);
        };
        if !is_new {
            return Ok(());
        }
        self.outcomes.push_reserved(outcome);
        Ok(())
    }

    pub fn into_outcomes(self) -> Vec<Outcome>
        ensures { result.items ≡ self }
    {
        let Found { keys: _, outcomes } = self;
        outcomes
    }
}
