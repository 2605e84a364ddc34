//! How another driver's answer to a call agrees with ours.
ghost use Rattle.std.specs.Prelude.{◌≡◌, ◌≤◌, ◌<◌, drop, filter, length, pos, slice_index_or, true, if◌then◌else◌, IfOk, OnOk};
ghost use Rattle.std.specs.List.{filter_map};
ghost use Rattle.std.specs.Option.{option_or};
ghost use Rattle.driver_judge.specs.Answers.{answer_difference, are_same, bytes_beside, configs_beside, each_none, each_some, is_display, is_expected, is_first_display, is_theirs, items_beside, list_difference, listed_behind, may_be_display, name_for, names_beside, names_given, new_name, new_names, new_value, noted_behind, nothing_stands, same_value, stands_behind, their_handle_for, value_beside, value_difference, with_display, with_given, with_new_handle, with_renamed, without_freed};
ghost use Rattle.driver_judge.specs.Maps.{may_be_given};
ghost use Rattle.driver_judge.specs.Configs.{our_config, their_config};

use crate::bases::Basis;
use crate::configs::ConfigMap;
use crate::differences::Difference;
use crate::maps::{Both, Entries, name_key, no_entries, put};
use crate::pixels::{Grid, pixel_difference};
use crate::sorts::{Mapped, Sort};
use display_table::HandleKind;
use egl_calls::arguments::number;
use egl_calls::places::DISPLAY;
use egl_calls::{Call, List, NoMemory, Reply, unsigned};
use keyed_hash::HashKey;
use log_reader::Answer;
use share_group::NameKind;
use std::alloc::Global;
use std::marker::Model;

/// Which of their handles and names stand for ours, and which numbers of a kind ever were names with another number on the other side.
pub struct Stands {
    handles: Both,
    names: Both,
    renamed: Entries,
}

// Written out, so that no crate above proves the drops of what it owns.
impl Drop for Stands {
    fn drop(self) {
        let Stands {
            handles: _,
            names: _,
            renamed: _,
        } = self;
    }
}

impl Model for Stands {
    ghost use Rattle.driver_judge.specs.Answers.{StandsValue};

    ghost Value = { StandsValue };

    ghost view = { λ m. record { handles = m.handles; names = m.names; renamed = m.renamed.entries } };
}

fn is_expected(expected: Option<i128>, found: i128) -> bool
    ensures { result ≡ is_expected expected found }
{
    match expected {
        Some(expected) => expected == found,
        None => false,
    }
}

pub fn value_beside(expected: Option<i128>, found: i128) -> Option<Difference>
    ensures { result ≡ value_beside expected found }
{
    if is_expected(expected, found) {
        None
    } else {
        Some(Difference::Value { expected, found })
    }
}

/// What a new handle differs in.
fn new_value(free: bool, theirs: i128) -> Option<Difference>
    ensures { result ≡ new_value free theirs }
{
    if free {
        None
    } else {
        Some(Difference::Value {
            expected: None,
            found: theirs,
        })
    }
}

/// Their handle for ours.
fn their_handle_for(handles: &Both, kind: Mapped, ours: i64) -> Option<i128>
    ensures { result ≡ their_handle_for handles.now kind ours }
{
    if ours == 0 {
        Some(0)
    } else {
        handles.handle_for(kind, unsigned(ours))
    }
}

/// Their name for ours.
fn name_for(names: &Both, group: Option<u64>, kind: NameKind, ours: i64) -> Option<i128>
    ensures { result ≡ name_for names.now group kind ours }
{
    match group {
        Some(group) => {
            if ours == 0 {
                Some(0)
            } else {
                names.their_name(group, kind, i128::from(ours))
            }
        }
        None => Some(i128::from(ours)),
    }
}

fn is_display(kind: Mapped) -> bool
    ensures { result ≡ is_display kind }
{
    matches!(kind, Mapped::Display)
}

/// Whether a display is answered for the first time.
fn is_first_display(handles: &Both, kind: Mapped, ours: i64) -> bool
    ensures { result ≡ is_first_display handles.now kind ours }
{
    is_display(kind) && ours != 0 && handles.handle_for(kind, unsigned(ours)).is_none()
}

fn may_be_display(handles: &Both, kind: Mapped, theirs: i128) -> bool
    ensures { result ≡ may_be_display handles.now kind theirs }
{
    theirs != 0 && handles.handle_of(kind, 0, theirs).is_none()
}

#[tactic(auto, unfolding(crate::specs::Answers::same_value))]
fn same_value(handles: &Both, kind: Mapped, ours: i64, theirs: i128) -> Option<Difference>
    ensures { result ≡ same_value handles.now kind ours theirs }
{
    if is_first_display(handles, kind, ours) {
        new_value(may_be_display(handles, kind, theirs), theirs)
    } else {
        value_beside(their_handle_for(handles, kind, ours), theirs)
    }
}

/// What of a value differs.
#[tactic(auto, unfolding(crate::specs::Answers::value_difference))]
fn value_difference(
    configs: &ConfigMap,
    stands: &Stands,
    basis: Basis,
    ours: i64,
    theirs: i128,
) -> Option<Difference>
    ensures { result ≡ value_difference configs.now.pairs stands.now basis basis.sort ours theirs }
{
    match basis.sort {
        Sort::Own => None,
        Sort::NewHandle(_) => new_value(basis.free, theirs),
        Sort::SameHandle(kind) => same_value(&stands.handles, kind, ours, theirs),
        Sort::ConfigId => value_beside(configs.theirs(ours), theirs),
        Sort::SameName(kind) => {
            value_beside(name_for(&stands.names, basis.group, kind, ours), theirs)
        }
        Sort::Equal
        | Sort::ConfigList
        | Sort::NewNames(_)
        | Sort::FreedNames(_)
        | Sort::PixelBytes => value_beside(Some(i128::from(ours)), theirs),
    }
}

/// Whether lists are the same.
#[tactic(auto, using(crate::proofs::AnswerLaws::unlike))]
fn are_same(ours: &[i64], theirs: &[i128]) -> bool
    ensures { result ≡ are_same ours.now theirs.now }
{
    if ours.len() != theirs.len() {
        return false;
    }
    'each: for (place, item) in ours.iter().enumerate() {
        if i128::from(*item) != theirs[place] {
            return false;
        }
    }
    true
}

/// Items as differences have them.
fn each_some(alloc: Global, items: &[i64]) -> Result<List<Option<i128>>, NoMemory>
    ensures { IfOk result (λ l. l ≡ each_some items.now) }
{
    let mut found = List::new(alloc);
    'each: for item in items {
        found.push(Some(i128::from(*item)))?;
    }
    Ok(found)
}

/// As many items that nothing stands for.
fn each_none(alloc: Global, items: &[i64]) -> Result<List<Option<i128>>, NoMemory>
    ensures { IfOk result (λ l. l ≡ each_none items.now) }
{
    match vec![in alloc; None; items.len()] {
        Ok(none) => Ok(List::from_vec(none)),
        Err(_) => Err(NoMemory),
    }
}

fn copied(alloc: Global, items: &[i128]) -> Result<List<i128>, NoMemory>
    ensures { IfOk result (λ l. l ≡ items.now) }
{
    match Vec::from_slice(alloc, items) {
        Ok(items) => Ok(List::from_vec(items)),
        Err(_) => Err(NoMemory),
    }
}

pub fn items_beside(
    alloc: Global,
    ours: &[i64],
    theirs: &[i128],
) -> Result<Option<Difference>, NoMemory>
    ensures { IfOk result (λ d. d ≡ items_beside ours.now theirs.now) }
{
    if are_same(ours, theirs) {
        return Ok(None);
    }
    Ok(Some(Difference::Items {
        expected: each_some(alloc, ours)?,
        found: copied(alloc, theirs)?,
    }))
}

/// Those of ours that are theirs too.
fn shared_configs(alloc: Global, configs: &ConfigMap, ours: &[i64]) -> Result<List<i64>, NoMemory>
    ensures { IfOk result (λ l. l ≡ filter (is_theirs configs.now.pairs) ours.now) }
{
    let mut found = List::new(alloc);
    'each: for id in ours {
        if configs.theirs(*id).is_some() {
            found.push(*id)?;
        }
    }
    Ok(found)
}

/// Theirs among ours.
fn their_configs(
    alloc: Global,
    configs: &ConfigMap,
    ours: &[i64],
) -> Result<List<Option<i128>>, NoMemory>
    ensures { IfOk result (λ l. l ≡ each_some (filter_map (their_config configs.now.pairs) ours.now)) }
{
    let mut found = List::new(alloc);
    'each: for id in ours {
        if let Some(theirs) = configs.theirs(*id) {
            found.push(Some(theirs))?;
        }
    }
    Ok(found)
}

fn behind_first(items: &[i64]) -> &[i64]
    requires { 1 ≤ length items.now }
    ensures { result.now ≡ drop 1 items.now }
{
    items.split_at(1).1
}

/// Whether theirs, without what is none of ours, are these.
fn are_configs(configs: &ConfigMap, ours: &[i64], theirs: &[i128]) -> bool
    ensures { result ≡ are_same ours.now (filter_map (our_config configs.now.pairs) theirs.now) }
{
    let mut left = ours;
    'each: for id in theirs {
        if let Some(id) = configs.ours(*id) {
            if left.is_empty() || left[0] != id {
                return false;
            }
            left = behind_first(left);
        }
    }
    are_same(left, &[])
}

fn configs_beside(
    alloc: Global,
    configs: &ConfigMap,
    ours: &[i64],
    theirs: &[i128],
) -> Result<Option<Difference>, NoMemory>
    ensures { IfOk result (λ d. d ≡ configs_beside configs.now.pairs ours.now theirs.now) }
{
    let shared = shared_configs(alloc, configs, ours)?;
    if are_configs(configs, shared.as_slice(), theirs) {
        return Ok(None);
    }
    Ok(Some(Difference::Items {
        expected: their_configs(alloc, configs, ours)?,
        found: copied(alloc, theirs)?,
    }))
}

fn names_beside(
    alloc: Global,
    agree: bool,
    ours: &[i64],
    theirs: &[i128],
) -> Result<Option<Difference>, NoMemory>
    ensures { IfOk result (λ d. d ≡ names_beside agree ours.now theirs.now) }
{
    if agree {
        return Ok(None);
    }
    Ok(Some(Difference::Items {
        expected: each_none(alloc, ours)?,
        found: copied(alloc, theirs)?,
    }))
}

/// As many bytes, and pixels that differ by at most the allowed step.
#[tactic(auto, unfolding(crate::specs::Answers::bytes_beside))]
pub fn bytes_beside(
    alloc: Global,
    delta: u32,
    grid: Grid,
    ours: &[u8],
    theirs: &[u8],
) -> Result<Option<Difference>, NoMemory>
    ensures { IfOk result (λ d. d ≡ bytes_beside delta grid ours.now theirs.now) }
{
    if ours.len() != theirs.len() {
        return Ok(Some(Difference::Length {
            expected: ours.len() as u64,
            found: theirs.len() as u64,
        }));
    }
    match pixel_difference(alloc, delta, grid, ours, theirs)? {
        Some(difference) => Ok(Some(Difference::Pixels(difference))),
        None => Ok(None),
    }
}

impl Stands {
    /// Nothing stands for anything.
    pub fn new(alloc: Global, key: HashKey) -> Stands
        ensures { result ≡ nothing_stands }
    {
        Stands {
            handles: Both::new(alloc, key),
            names: Both::new(alloc, key),
            renamed: no_entries(alloc, key),
        }
    }

    /// What stands for handles.
    pub fn handles(&self) -> &Both
        ensures { result.now ≡ self.now.handles }
    {
        &self.handles
    }

    /// What stands for names.
    pub fn names(&self) -> &Both
        ensures { result.now ≡ self.now.names }
    {
        &self.names
    }

    /// The numbers that ever were names with another number on the other side.
    pub fn renamed(&self) -> &Entries
        ensures { result.now.entries ≡ self.now.renamed }
    {
        &self.renamed
    }

    fn note_renamed(&mut self, kind: NameKind, ours: i128, theirs: i128) -> Result<(), NoMemory>
        ensures { OnOk result (self.new ≡ record self.old { renamed = with_renamed kind ours theirs self.old.renamed }) }
    {
        if ours == theirs {
            return Ok(());
        }
        put(&mut self.renamed, name_key(0, kind, ours), 1)?;
        put(&mut self.renamed, name_key(0, kind, theirs), 1)
    }

    /// Gives a name of theirs for a new one of ours, where it may be.
    fn give_name(
        &mut self,
        group: u64,
        kind: NameKind,
        ours: i128,
        theirs: i128,
    ) -> Result<bool, NoMemory>
        ensures given { IfOk result (λ given. given ≡ may_be_given self.old.names group kind theirs) }
        ensures stands { IfOk result (λ given. self.new ≡ (if given then with_given group kind ours theirs self.old else self.old)) }
    {
        if !self.names.may_be_given(group, kind, theirs) {
            return Ok(false);
        }
        self.names.put_name(group, kind, ours, theirs)?;
        self.note_renamed(kind, ours, theirs)?;
        Ok(true)
    }

    /// Gives the name at a place for ours there, behind others, which may all have been given or not.
    fn give_at(
        &mut self,
        agree: bool,
        group: u64,
        kind: NameKind,
        ours: &[i64],
        theirs: &[i128],
        place: usize,
    ) -> Result<bool, NoMemory>
        requires ours { place < length ours.now }
        requires theirs { place < length theirs.now }
        ensures { IfOk result (λ all. record { agree = all; stands = self.new } ≡ new_name group kind (slice_index_or ours.now place (pos 0)) (slice_index_or theirs.now place (pos 0)) (record { agree = agree; stands = self.old })) }
    {
        if self.give_name(group, kind, i128::from(ours[place]), theirs[place])? {
            return Ok(agree);
        }
        Ok(false)
    }

    /// Gives names of theirs for as many new ones of ours, and answers whether each may be.
    #[tactic(auto, using(crate::proofs::NameLaws::next_name, crate::proofs::NameLaws::ended))]
    fn give_names(
        &mut self,
        group: u64,
        kind: NameKind,
        ours: &[i64],
        theirs: &[i128],
    ) -> Result<bool, NoMemory>
        requires { length ours.now ≡ length theirs.now }
        ensures { IfOk result (λ agree. record { agree = agree; stands = self.new } ≡ new_names group kind ours.now theirs.now (record { agree = true; stands = self.old })) }
    {
        let mut agree = true;
        'each: for place in 0..ours.len() {
            agree = self.give_at(agree, group, kind, ours, theirs, place)?;
        }
        Ok(agree)
    }

    fn names_given(
        &mut self,
        group: Option<u64>,
        kind: NameKind,
        ours: &[i64],
        theirs: &[i128],
    ) -> Result<bool, NoMemory>
        ensures { IfOk result (λ agree. record { agree = agree; stands = self.new } ≡ names_given self.old group kind ours.now theirs.now) }
    {
        let Some(group) = group else {
            return Ok(are_same(ours, theirs));
        };
        if ours.len() == theirs.len() {
            self.give_names(group, kind, ours, theirs)
        } else {
            Ok(false)
        }
    }

    /// What of a list differs; names that may be given are.
    #[tactic(auto, unfolding(crate::specs::Answers::list_difference))]
    fn list_difference(
        &mut self,
        alloc: Global,
        configs: &ConfigMap,
        basis: Basis,
        ours: &[i64],
        theirs: &[i128],
    ) -> Result<Option<Difference>, NoMemory>
        ensures difference { IfOk result (λ d. d ≡ list_difference configs.now.pairs self.old basis basis.sort ours.now theirs.now) }
        ensures stands { OnOk result (self.new ≡ listed_behind self.old basis basis.sort ours.now theirs.now) }
    {
        match basis.sort {
            Sort::ConfigList => configs_beside(alloc, configs, ours, theirs),
            Sort::NewNames(kind) => {
                let agree = self.names_given(basis.group, kind, ours, theirs)?;
                names_beside(alloc, agree, ours, theirs)
            }
            _ => items_beside(alloc, ours, theirs),
        }
    }

    fn put_handle(
        &mut self,
        free: bool,
        kind: HandleKind,
        call: &Call,
        ours: i64,
        theirs: i128,
    ) -> Result<(), NoMemory>
        ensures { OnOk result (self.new ≡ with_new_handle free kind call.now ours theirs self.old) }
    {
        if !free {
            return Ok(());
        }
        self.handles.put_handle(
            Mapped::Handle(kind),
            number(call, DISPLAY),
            unsigned(ours),
            theirs,
        )
    }

    fn put_display(&mut self, kind: Mapped, ours: i64, theirs: i128) -> Result<(), NoMemory>
        ensures { OnOk result (self.new ≡ with_display kind ours theirs self.old) }
    {
        if is_first_display(&self.handles, kind, ours)
            && may_be_display(&self.handles, kind, theirs)
        {
            self.handles.put_handle(kind, 0, unsigned(ours), theirs)
        } else {
            Ok(())
        }
    }

    fn take_freed(&mut self, group: Option<u64>, kind: NameKind, freed: &[i64])
        ensures { self.new ≡ without_freed group kind freed.now self.old }
    {
        match group {
            Some(group) => self.names.take_names(group, kind, freed),
            None => (),
        }
    }

    /// Notes what an answer says beside its list.
    fn note(&mut self, basis: Basis, call: &Call, ours: i64, theirs: i128) -> Result<(), NoMemory>
        ensures { OnOk result (self.new ≡ noted_behind basis call.now basis.sort ours theirs self.old) }
    {
        match basis.sort {
            Sort::NewHandle(kind) => self.put_handle(basis.free, kind, call, ours, theirs),
            Sort::SameHandle(kind) => self.put_display(kind, ours, theirs),
            Sort::FreedNames(kind) => {
                self.take_freed(basis.group, kind, call.list.as_slice());
                Ok(())
            }
            _ => Ok(()),
        }
    }
}

fn first_of(first: Option<Difference>, second: Option<Difference>) -> Option<Difference>
    ensures { result ≡ option_or first second }
{
    match first {
        Some(difference) => Some(difference),
        None => second,
    }
}

/// In what another driver's answer differs from our reply. What stands for what is then as it is behind the answer.
#[tactic(auto, unfolding(crate::specs::Answers::answer_difference, crate::specs::Answers::stands_behind))]
pub fn compare(
    alloc: Global,
    configs: &ConfigMap,
    delta: u32,
    stands: &mut Stands,
    basis: Basis,
    call: &Call,
    ours: &Reply,
    theirs: &Answer,
) -> Result<Option<Difference>, NoMemory>
    ensures difference { IfOk result (λ d. d ≡ answer_difference configs.now.pairs delta stands.old basis ours.now theirs.now) }
    ensures stands { OnOk result (stands.new ≡ stands_behind stands.old basis call.now ours.now theirs.now) }
{
    let value = value_difference(configs, stands, basis, ours.value, theirs.value);
    let list = stands.list_difference(
        alloc,
        configs,
        basis,
        ours.list.as_slice(),
        theirs.list.as_slice(),
    )?;
    stands.note(basis, call, ours.value, theirs.value)?;
    let bytes = bytes_beside(
        alloc,
        delta,
        basis.grid,
        ours.bytes.as_slice(),
        theirs.bytes.as_slice(),
    )?;
    Ok(first_of(value, first_of(list, bytes)))
}
