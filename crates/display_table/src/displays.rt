//! The displays.
ghost use Rattle.std.specs.Prelude.{◌≡◌, ◌≢◌, ◌+◌, ◌≤◌, pos, [], ◌∷◌, ◌++◌, true, false, find, length, AllPairs, IfOk, IfErr, OnOk, OnErr};
ghost use Rattle.egl_calls.specs.Ranges.{unsigned};
ghost use Rattle.display_table.specs.Handles as handles;
ghost use Rattle.display_table.specs.Handles.{is_display, is_named, is_named_on, on_display, without, RiseFrom, Takes};
ghost use Rattle.display_table.specs.Tables.{are_used_up, flag_of, with_flag, HasCause};

use crate::HANDLES_END;
use crate::errors::HandleError;
use crate::handles::{Handle, HandleKind};
use crate::making::{add_first, add_second};
use crate::tables::{Table, handle_in, rising_in, take};
use crate::taking::{take_first, take_second};
use egl_calls::unsigned;
use indexmap::IndexMap;
use keyed_hash::{HashKey, KeyedState};
use std::alloc::Global;
use std::marker::Model;

/// Which of the two displays are initialised, and the valid handles of both.
///
/// Handles are numbered from 3 in the order of their making. A number is never given again.
///
/// Contracts see the two flags, the valid handles in the order of their making, and the number of the next one. The
/// handles of each display stand in a map in the order of their making, so that the newest is the last. They are found by
/// hashes under a key.
pub struct Displays {
    first: bool,
    second: bool,
    first_handles: Table,
    second_handles: Table,
    next_handle: u32,
}

// Written out, so that no crate above proves the drops of what it owns.
impl Drop for Displays {
    fn drop(self) {
        let Displays {
            first: _,
            second: _,
            first_handles: _,
            second_handles: _,
            next_handle: _,
        } = self;
    }
}

impl Model for Displays {
    ghost use Rattle.display_table.specs.Tables.{DisplaysValue, at_number, handles_in, ArePlaces};

    ghost Value = { DisplaysValue };

    ghost view = { λ d. record { first = d.first; second = d.second; handles = handles_in (at_number d.first_handles.entries) (at_number d.second_handles.entries) d.next_handle; next_handle = d.next_handle } };

    ghost invariant = { λ d. ArePlaces d.first_handles.entries d.second_handles.entries d.next_handle };
}

impl Displays {
    /// Two displays that aren't initialised and have no handles. It takes no memory.
    ///
    /// Their handles are hashed under the plain key, for who has no input to draw one from.
    pub fn new(alloc: Global) -> Displays
        ensures { result ≡ record { first = false; second = false; handles = []; next_handle = 3 } }
    {
        Displays::with_key(alloc, HashKey::PLAIN)
    }

    /// The same, where handles are hashed under this key. It takes no memory.
    ///
    /// A handle means nothing but the object that it was made for (EGL 1.5, section 2.1), and any number may come in its place.
    /// Who makes handles and destroys all but some can keep those whose numbers collide, if it knows how they are hashed; then
    /// each look-up passes many others. The key keeps it from knowing.
    pub fn with_key(alloc: Global, key: HashKey) -> Displays
        ensures { result ≡ record { first = false; second = false; handles = []; next_handle = 3 } }
    {
        Displays::keyed(alloc, key, 3)
    }

    /// The same as `new`, where the first handle has this number. It takes no memory.
    pub fn starting_at(alloc: Global, next_handle: u32) -> Displays
        requires low { 3 ≤ next_handle }
        requires high { next_handle ≤ HANDLES_END }
        ensures { result ≡ record { first = false; second = false; handles = []; next_handle = next_handle } }
    {
        Displays::keyed(alloc, HashKey::PLAIN, next_handle)
    }

    fn keyed(alloc: Global, key: HashKey, next_handle: u32) -> Displays
        requires low { 3 ≤ next_handle }
        requires high { next_handle ≤ HANDLES_END }
        ensures { result ≡ record { first = false; second = false; handles = []; next_handle = next_handle } }
    {
        Displays {
            first: false,
            second: false,
            first_handles: IndexMap::with_hasher(alloc, KeyedState::new(key)),
            second_handles: IndexMap::with_hasher(alloc, KeyedState::new(key)),
            next_handle,
        }
    }

    /// Marks display 1 or 2 as initialised (EGL 1.5, section 3.2).
    pub fn init(&mut self, display: i64)
        requires { is_display (unsigned display) ≡ true }
        ensures { self.new ≡ with_flag (unsigned display) true self.old }
    {
        if unsigned(display) == 1 {
            self.first = true;
        } else {
            self.second = true;
        }
    }

    /// Whether a display is initialised; never for a number that is no display.
    pub fn is_init(&self, display: i64) -> bool
        ensures { result ≡ flag_of (unsigned display) self.now }
    {
        match unsigned(display) {
            1 => self.first,
            2 => self.second,
            _ => false,
        }
    }

    /// The valid handle of the display with a number, where it is of this kind.
    pub fn handle(&self, display: i64, handle: i64, kind: HandleKind) -> Option<Handle>
        ensures { result ≡ find (is_named_on (unsigned display) (unsigned handle) kind) self.now.handles }
    {
        self.handle_on(unsigned(display), unsigned(handle), kind)
    }

    /// The valid handle of either display with a number, where it is of this kind.
    pub fn handle_anywhere(&self, handle: i64, kind: HandleKind) -> Option<Handle>
        ensures { result ≡ find (is_named (unsigned handle) kind) self.now.handles }
    {
        self.handle_of(unsigned(handle), kind)
    }

    /// The object that a valid handle of the display names, where it is of this kind.
    pub fn valid(&self, display: i64, handle: i64, kind: HandleKind) -> Option<u64>
        ensures { result ≡ handles.valid (unsigned display) (unsigned handle) kind self.now.handles }
    {
        match self.handle(display, handle, kind) {
            Some(handle) => Some(handle.object),
            None => None,
        }
    }

    /// The number of the next handle.
    pub fn next_handle(&self) -> u32
        ensures { result ≡ self.now.next_handle }
    {
        self.next_handle
    }

    /// Whether no number is left for another handle.
    pub fn are_used_up(&self) -> bool
        ensures { result ≡ are_used_up self.now.next_handle }
    {
        self.next_handle >= HANDLES_END
    }

    /// Makes a handle of display 1 or 2 for an object, and answers its number.
    ///
    /// `Limit` comes exactly where the number would be 2,147,483,648. After either error all is as it was.
    pub fn new_handle(
        &mut self,
        display: i64,
        kind: HandleKind,
        object: u64,
    ) -> Result<i64, HandleError>
        requires { is_display (unsigned display) ≡ true }
        ensures number { IfOk result (λ n. n ≡ pos self.old.next_handle) }
        ensures made { OnOk result (self.new ≡ record self.old {
          handles = self.old.handles ++ record { number = self.old.next_handle; display = unsigned display; kind = kind; object = object } ∷ [];
          next_handle = self.old.next_handle + 1;
        }) }
        ensures fits { OnOk result (are_used_up self.old.next_handle ≡ false) }
        ensures cause { IfErr result (HasCause self.old.next_handle) }
        ensures same { OnErr result (self.new ≡ self.old) }
    {
        if self.next_handle >= HANDLES_END {
            return Err(HandleError::Limit);
        }
        if unsigned(display) == 1 {
            return add_first(
                &mut self.first_handles,
                &self.second_handles,
                &mut self.next_handle,
                kind,
                object,
            );
        }
        add_second(
            &self.first_handles,
            &mut self.second_handles,
            &mut self.next_handle,
            kind,
            object,
        )
    }

    /// Removes a handle. It changes nothing where no valid handle has the number, and takes no memory.
    pub fn remove(&mut self, handle: i64)
        ensures { self.new ≡ record self.old { handles = without (unsigned handle) self.old.handles } }
    {
        self.remove_number(unsigned(handle));
    }

    /// Removes the handle of the display that was made last, and answers its object: none exactly where the display has
    /// no handle. Called until then it answers each object of the display once for each handle. It takes no memory.
    pub fn take_handle(&mut self, display: i64) -> Option<u64>
        requires { is_display (unsigned display) ≡ true }
        ensures taken { Takes (unsigned display) self.old.handles self.new.handles result }
        ensures same { self.new ≡ record self.old { handles = self.new.handles } }
    {
        self.take_newest(unsigned(display))
    }

    /// The same by the display's unsigned number.
    pub fn take_newest(&mut self, display: u64) -> Option<u64>
        requires { is_display display ≡ true }
        ensures taken { Takes display self.old.handles self.new.handles result }
        ensures same { self.new ≡ record self.old { handles = self.new.handles } }
    {
        if display == 1 {
            take_first(
                &mut self.first_handles,
                &self.second_handles,
                self.next_handle,
            )
        } else {
            take_second(
                &self.first_handles,
                &mut self.second_handles,
                self.next_handle,
            )
        }
    }

    /// Marks display 1 or 2 as not initialised, once it has no handles (EGL 1.5, section 3.2). It takes no memory.
    pub fn terminate(&mut self, display: i64)
        requires display { is_display (unsigned display) ≡ true }
        requires empty { on_display (unsigned display) self.old.handles ≡ [] }
        ensures { self.new ≡ with_flag (unsigned display) false self.old }
    {
        self.end(unsigned(display));
    }

    /// The same by the display's unsigned number.
    pub fn end(&mut self, display: u64)
        requires display { is_display display ≡ true }
        requires empty { on_display display self.old.handles ≡ [] }
        ensures { self.new ≡ with_flag display false self.old }
    {
        if display == 1 {
            self.first = false;
        } else {
            self.second = false;
        }
    }

    /// Handles rise in the order of their making, from 3 on, and are below the next one; so no two have one number, and
    /// there are at most 2,147,483,648. This is a law: there is nothing to run.
    pub fn handles_rise(&self)
        ensures rise { RiseFrom 3 self.now.handles self.now.next_handle }
        ensures apart { AllPairs (λ g h. g.number ≢ h.number) self.now.handles }
        ensures few { length self.now.handles ≤ HANDLES_END }
        ensures end { self.now.next_handle ≤ HANDLES_END }
    {
        rising_in(&self.first_handles, &self.second_handles, self.next_handle);
    }

    fn handle_on(&self, display: u64, number: u64, kind: HandleKind) -> Option<Handle>
        ensures { result ≡ find (is_named_on display number kind) self.now.handles }
    {
        if display == 1 {
            handle_in(&self.first_handles, number, kind)
        } else if display == 2 {
            handle_in(&self.second_handles, number, kind)
        } else {
            None
        }
    }

    fn handle_of(&self, number: u64, kind: HandleKind) -> Option<Handle>
        ensures { result ≡ find (is_named number kind) self.now.handles }
    {
        match handle_in(&self.first_handles, number, kind) {
            Some(handle) => Some(handle),
            None => handle_in(&self.second_handles, number, kind),
        }
    }

    /// The same by the handle's unsigned number.
    pub fn remove_number(&mut self, number: u64)
        ensures { self.new ≡ record self.old { handles = without number self.old.handles } }
    {
        if !take(&mut self.first_handles, number) {
            take(&mut self.second_handles, number);
        }
    }
}
