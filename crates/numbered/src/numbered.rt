//! Values by number.

ghost use Rattle.std.specs.Prelude.{◌≡◌, ℕ, ◌+◌, ◌-◌, ◌*◌, ◌<◌, ◌≤◌, ◌^◌, max, [], length, is_some, Some, None, IsSome, OnOk, OnErr, slice_set, option_copied};
ghost use Rattle.std.specs.Borrow.{sem};
ghost use Rattle.std.specs.List.{count_by};
ghost use Rattle.std.specs.Option.{option_copied_mut};
ghost use Rattle.numbered.specs.Lists.{at};
ghost use Rattle.numbered.specs.Lends.{lends_value};

use crate::table::Table;
use slab::Slab;
use std::alloc::Global;
use std::marker::Model;

/// Memory ran out, or there are 4,294,967,295 values. Everything is then as it was before the call.
#[derive(Clone, Copy, Debug, PartialEq, Eq, Drop)]
pub struct NoRoom;

/// Values in a slab, each under a number that its caller gives. Memory goes by the most values that stood there at once.
///
/// Contracts see a list with a place for each number below its length, how many more values fit with no memory, how many homes the numbers have, and the most values that stood there at once.
#[derive(Drop)]
pub struct Numbered<X: Drop> {
    table: Table<usize>,
    values: Slab<X>,
    end: u64,
    live: u64,
    room: u64,
    most: u64,
}

impl<X: Drop> Model for Numbered<X> {
    ghost use Rattle.numbered.specs.Lists.{NumberedValue, numbered_code};

    ghost Value = { NumberedValue X };

    ghost coded = { numbered_code X.code };

    ghost use Rattle.std.specs.Prelude.{length};
    ghost use Rattle.numbered.specs.Maps.{held, listed, IsNumbered, IsThrifty};

    ghost view = { λ s. record { items = listed s.end (held s.table s.values); room = s.room; homes = length s.table.homes.items; most = s.most } };

    ghost invariant = { λ s. IsNumbered s.end s.live s.room s.table s.values × IsThrifty s.live s.most (length s.table.homes.items) };
}

// The most values that there may be, with the room that was made for more.
const MOST: u64 = 4_294_967_295;

impl<X: Drop> Numbered<X> {
    /// No values, and no memory.
    pub fn new(alloc: Global) -> Self
        ensures items { result.items ≡ [] }
        ensures room { result.room ≡ 0 }
        ensures homes { result.homes ≡ 0 }
        ensures most { result.most ≡ 0 }
    {
        Numbered {
            table: Table::new(alloc),
            values: Slab::new(alloc),
            end: 0,
            live: 0,
            room: 0,
            most: 0,
        }
    }

    /// Makes room for so many more values, so that they come with no memory.
    pub fn reserve(&mut self, more: u64) -> Result<(), NoRoom>
        ensures items { self.new.items ≡ self.old.items }
        ensures room { OnOk result (self.new.room ≡ more) }
        ensures homes { self.new.homes ≤ max self.old.homes (2 * (count_by is_some self.old.items + more)) }
        ensures lived { self.new.homes ≤ max self.old.homes (2 * max 1 (count_by is_some self.old.items)) }
        ensures most { self.new.most ≡ self.old.most }
        ensures err { OnErr result (self.new ≡ self.old) }
    {
        if more > MOST - self.live {
            return Err(NoRoom);
        }
        if self.values.reserve(more as usize).is_err() {
            return Err(NoRoom);
        }
        match self.table.reserve(self.live, more) {
            Ok(()) => {
                self.room = more;
                Ok(())
            }
            Err(_) => Err(NoRoom),
        }
    }

    /// The value of a number.
    #[inline(always)]
    pub fn get(&self, n: u64) -> Option<&X>
        ensures { option_copied result ≡ at self.now.items n }
    {
        match self.table.get(n) {
            Some(key) => self.values.get(*key),
            None => None,
        }
    }

    /// The value of a number, to write.
    #[inline(always)]
    pub fn get_mut(&mut self, n: u64) -> Option<&mut X>
        ensures* writes_back { sem 𝓛 (lends_value X.row self.entry n result) }
        ensures value { option_copied_mut result ≡ at self.old.items n }
    {
        match self.table.get(n) {
            Some(key) => {
                let key = *key;
                self.values.get_mut(key)
            }
            None => None,
        }
    }

    /// Makes the list long enough for a number. It takes no memory.
    pub fn reach(&mut self, n: u64)
        requires { n < 2 ^ 64 - 1 }
        ensures long { n < length self.new.items }
        ensures same { (m : ℕ) → at self.new.items m ≡ at self.old.items m }
        ensures room { self.new.room ≡ self.old.room }
        ensures homes { self.new.homes ≡ self.old.homes }
        ensures most { self.new.most ≡ self.old.most }
    {
        if self.end <= n {
            self.end = n + 1;
        }
    }

    /// Puts a value under a number that has none. It takes no memory.
    pub fn fill(&mut self, n: u64, value: X)
        requires place { n < length self.old.items }
        requires vacant { at self.old.items n ≡ None }
        requires room { 0 < self.old.room }
        ensures items { self.new.items ≡ slice_set self.old.items n (Some value) }
        ensures room { self.new.room + 1 ≡ self.old.room }
        ensures homes { self.new.homes ≡ self.old.homes }
        ensures most { self.new.most ≡ max self.old.most (count_by is_some self.new.items) }
    {
        let key = self.values.insert_reserved(value);
        self.table.put(n, key);
        self.live += 1;
        self.room -= 1;
        self.most = self.most.max(self.live);
    }

    /// Takes the value of a number away. Its room stays with the values for the next one that is made room for. For those who use this crate elsewhere: the driver drops its values by `clear`.
    pub fn remove(&mut self, n: u64) -> Option<X>
        ensures value { result ≡ at self.old.items n }
        ensures items { self.new.items ≡ slice_set self.old.items n None }
        ensures room { self.new.room ≡ self.old.room }
        ensures homes { self.new.homes ≡ self.old.homes }
        ensures most { self.new.most ≡ self.old.most }
    {
        match self.table.take(n) {
            Some(key) => {
                self.live -= 1;
                Some(self.values.remove(key))
            }
            None => None,
        }
    }

    /// Drops the value of a number. Its room stays with the values, as after `remove`.
    #[inline(always)]
    pub fn clear(&mut self, n: u64)
        requires stored { IsSome (at self.old.items n) }
        ensures items { self.new.items ≡ slice_set self.old.items n None }
        ensures room { self.new.room ≡ self.old.room }
        ensures homes { self.new.homes ≡ self.old.homes }
        ensures most { self.new.most ≡ self.old.most }
    {
        match self.table.take(n) {
            Some(key) => {
                self.values.remove(key);
                self.live -= 1;
            }
            None => unreachable!(),
        }
    }

    /// There are few values, and at most twice as many homes as there were values at one time, or two. This is a law: there is nothing to run.
    pub fn few(&self)
        ensures few { count_by is_some self.now.items + self.now.room < 2 ^ 32 }
        ensures long { length self.now.items < 2 ^ 64 }
        ensures most { count_by is_some self.now.items ≤ self.now.most }
        ensures homes { self.now.homes ≤ 2 * max 1 self.now.most }
    {
        let _end = self.end;
    }
}
