//! Which handles and names of another driver stand for ours.
ghost use Rattle.std.specs.Prelude.{◌≡◌, [], OnOk};
ghost use Rattle.driver_judge.specs.Maps.{found, given_as, given_for, handle_for, handle_of, mapped_place, may_be_given, name_key, name_place, nothing, our_handle, paired, their_handle, their_name, with_entry, with_handle, with_name, without_entry, without_name, without_names, without_pair};

use crate::sorts::Mapped;
use display_table::HandleKind;
use egl_calls::NoMemory;
use indexmap::IndexMap;
use keyed_hash::{HashKey, KeyedState};
use share_group::NameKind;
use std::alloc::Global;
use std::marker::Model;

/// A display or a share group, the place of a kind, and a number. All are of eight bytes or more, so that they are hashed in whole words.
type Key = (u64, u64, i128);

/// Entries that are found by hashes under a key.
pub type Entries = IndexMap<Key, i128, KeyedState>;

/// Their number for each of ours, and the newest of ours for each of theirs.
pub struct Both {
    theirs: Entries,
    ours: Entries,
}

// Written out, so that no crate above proves the drops of what it owns.
impl Drop for Both {
    fn drop(self) {
        let Both { theirs: _, ours: _ } = self;
    }
}

impl Model for Both {
    ghost use Rattle.driver_judge.specs.Maps.{Both as BothValue};

    ghost Value = { BothValue };

    ghost view = { λ m. record { theirs = m.theirs.entries; ours = m.ours.entries } };
}

/// No entries, which are hashed under a key.
pub fn no_entries(alloc: Global, key: HashKey) -> Entries
    ensures { result.entries ≡ [] }
{
    IndexMap::with_hasher(alloc, KeyedState::new(key))
}

/// What stands for a number.
pub fn found(entries: &Entries, key: Key) -> Option<i128>
    ensures { result ≡ found key entries.now.entries }
{
    entries.get(&key).copied()
}

/// One more.
pub fn put(entries: &mut Entries, key: Key, value: i128) -> Result<(), NoMemory>
    ensures { OnOk result (entries.new.entries ≡ with_entry key value entries.old.entries) }
{
    match entries.insert(key, value) {
        Ok(_) => Ok(()),
        Err(_) => Err(NoMemory),
    }
}

/// One less.
fn take(entries: &mut Entries, key: Key)
    ensures { entries.new.entries ≡ without_entry key entries.old.entries }
{
    let _ = entries.swap_remove(&key);
}

fn mapped_place(kind: Mapped) -> u64
    ensures { result ≡ mapped_place kind }
{
    match kind {
        Mapped::Display => 4,
        Mapped::Handle(HandleKind::Context) => 0,
        Mapped::Handle(HandleKind::Surface) => 1,
        Mapped::Handle(HandleKind::Image) => 2,
        Mapped::Handle(HandleKind::Sync) => 3,
    }
}

fn name_place(kind: NameKind) -> u64
    ensures { result ≡ name_place kind }
{
    match kind {
        NameKind::Texture => 0,
        NameKind::Buffer => 1,
        NameKind::Renderbuffer => 2,
        NameKind::Framebuffer => 3,
    }
}

/// The key of a name.
pub fn name_key(group: u64, kind: NameKind, name: i128) -> Key
    ensures { result ≡ name_key group kind name }
{
    (group, name_place(kind), name)
}

fn our_handle(kind: Mapped, ours: u64) -> Key
    ensures { result ≡ our_handle kind ours }
{
    (0, mapped_place(kind), i128::from(ours))
}

fn their_handle(kind: Mapped, display: u64, theirs: i128) -> Key
    ensures { result ≡ their_handle kind display theirs }
{
    (display, mapped_place(kind), theirs)
}

impl Both {
    /// Nothing stands for anything.
    pub fn new(alloc: Global, key: HashKey) -> Both
        ensures { result ≡ nothing }
    {
        Both {
            theirs: no_entries(alloc, key),
            ours: no_entries(alloc, key),
        }
    }

    fn pair(&mut self, ours: Key, theirs: Key) -> Result<(), NoMemory>
        ensures { OnOk result (self.new ≡ paired ours theirs self.old) }
    {
        put(&mut self.theirs, ours, theirs.2)?;
        put(&mut self.ours, theirs, ours.2)
    }

    /// Their handle that stands for ours.
    pub fn handle_for(&self, kind: Mapped, ours: u64) -> Option<i128>
        ensures { result ≡ handle_for self.now kind ours }
    {
        found(&self.theirs, our_handle(kind, ours))
    }

    /// Our handle for which theirs stands.
    pub fn handle_of(&self, kind: Mapped, display: u64, theirs: i128) -> Option<i128>
        ensures { result ≡ handle_of self.now kind display theirs }
    {
        found(&self.ours, their_handle(kind, display, theirs))
    }

    /// Their handle stands for ours from then on.
    pub fn put_handle(
        &mut self,
        kind: Mapped,
        display: u64,
        ours: u64,
        theirs: i128,
    ) -> Result<(), NoMemory>
        ensures { OnOk result (self.new ≡ with_handle kind display ours theirs self.old) }
    {
        self.pair(our_handle(kind, ours), their_handle(kind, display, theirs))
    }

    /// Their name that was given for ours.
    pub fn given_for(&self, group: u64, kind: NameKind, ours: i128) -> Option<i128>
        ensures { result ≡ given_for self.now group kind ours }
    {
        found(&self.theirs, name_key(group, kind, ours))
    }

    /// Our name for which theirs was given.
    pub fn given_as(&self, group: u64, kind: NameKind, theirs: i128) -> Option<i128>
        ensures { result ≡ given_as self.now group kind theirs }
    {
        found(&self.ours, name_key(group, kind, theirs))
    }

    /// Their name that stands for ours.
    pub fn their_name(&self, group: u64, kind: NameKind, ours: i128) -> Option<i128>
        ensures { result ≡ their_name self.now group kind ours }
    {
        match self.given_for(group, kind, ours) {
            Some(theirs) => Some(theirs),
            None => Some(ours),
        }
    }

    /// Whether a name of theirs may be given for a new one of ours.
    pub fn may_be_given(&self, group: u64, kind: NameKind, theirs: i128) -> bool
        ensures { result ≡ may_be_given self.now group kind theirs }
    {
        theirs != 0 && self.given_as(group, kind, theirs).is_none()
    }

    /// Their name is given for ours.
    pub fn put_name(
        &mut self,
        group: u64,
        kind: NameKind,
        ours: i128,
        theirs: i128,
    ) -> Result<(), NoMemory>
        ensures { OnOk result (self.new ≡ with_name group kind ours theirs self.old) }
    {
        self.pair(name_key(group, kind, ours), name_key(group, kind, theirs))
    }

    fn take_name(&mut self, group: u64, kind: NameKind, ours: i128)
        ensures { self.new ≡ without_name group kind ours self.old }
    {
        match self.given_for(group, kind, ours) {
            Some(theirs) => {
                take(&mut self.theirs, name_key(group, kind, ours));
                take(&mut self.ours, name_key(group, kind, theirs));
            }
            None => (),
        }
    }

    /// Names of ours are freed.
    #[tactic(auto, unfolding(crate::specs::Maps::without_names))]
    pub fn take_names(&mut self, group: u64, kind: NameKind, names: &[i64])
        ensures { self.new ≡ without_names group kind names.now self.old }
    {
        'each: for name in names {
            self.take_name(group, kind, i128::from(*name));
        }
    }
}
