//! Where values by number stand.

ghost use Rattle.std.specs.Prelude.{◌≡◌, ℕ, ◌+◌, ◌*◌, ◌<◌, ◌≤◌, max, is_some, Some, None, true, length, OnOk, OnErr, option_copied};
ghost use Rattle.std.specs.Int.RustNames.{bit_and};
ghost use Rattle.indexmap.specs.IndexMap.{spare};
ghost use Rattle.numbered.specs.Homes.{home_at};
ghost use Rattle.numbered.specs.declared.homes.Home.{Home as State};
ghost use Rattle.numbered.specs.Tables.{found, homed, IsLaid, Puts};

use crate::homes::{Home, split};
use indexmap::IndexMap;
use std::alloc::{AllocError, Global};

// Values by number. Numbers come in order, so those that are there at one time mostly leave different remainders by the
// count of homes, a power of two: such a value is found with no hash. Where a home is taken, the value stands among the others.
#[derive(Drop)]
pub(crate) struct Table<X: Drop> {
    homes: Vec<Home<X>>,
    mask: u64,
    others: IndexMap<u64, X>,
}

impl<X: Drop> Table<X> {
    pub(crate) fn new(alloc: Global) -> Self
        ensures none { (n : ℕ) → found result n ≡ None }
        ensures laid { IsLaid result }
        ensures homes { length result.homes.items ≡ 0 }
    {
        Table {
            homes: Vec::new(alloc),
            mask: 0,
            others: IndexMap::new(alloc),
        }
    }

    fn place(&self, n: u64) -> usize
        ensures { result ≡ bit_and n self.now.mask }
    {
        (n & self.mask) as usize
    }

    // The value of a number that is at home.
    fn home(&self, n: u64) -> Option<&X>
        ensures { option_copied result ≡ homed self.now n }
    {
        match self.homes.get(self.place(n)) {
            Some(home) => home.value(n),
            None => None,
        }
    }

    // The value of a number that isn't at home. What is done among the others is long and rare, so it is kept out of the
    // callers, and what is done at home is short enough to be inlined.
    #[inline(never)]
    fn other(&self, n: u64) -> Option<&X>
        requires { homed self.now n ≡ None }
        ensures { option_copied result ≡ found self.now n }
    {
        self.others.get(&n)
    }

    #[inline(always)]
    pub(crate) fn get(&self, n: u64) -> Option<&X>
        ensures { option_copied result ≡ found self.now n }
    {
        match self.home(n) {
            Some(value) => Some(value),
            None => self.other(n),
        }
    }

    // Whether the home is there, and vacant.
    fn is_free(&self, place: usize) -> bool
        ensures { result ≡ true → (place < length self.now.homes.items) × (home_at self.now.homes.items place ≡ State.Vacant) }
    {
        match self.homes.get(place) {
            Some(home) => home.is_vacant(),
            None => false,
        }
    }

    // Puts a value under a number that has none.
    pub(crate) fn put(&mut self, n: u64, value: X)
        requires laid { IsLaid self.old }
        requires vacant { found self.old n ≡ None }
        requires room { 0 < spare self.old.others }
        ensures put { Puts self.old self.new n (Some value) }
        ensures room { spare self.old.others ≤ spare self.new.others + 1 }
    {
        let place = self.place(n);
        if self.is_free(place) {
            self.homes[place] = Home::Taken(n, value);
            return;
        }
        match self.others.insert(n, value) {
            Ok(_) => {}
            Err(_) => unreachable!(),
        }
    }

    #[inline(never)]
    fn take_other(&mut self, n: u64) -> Option<X>
        requires away { homed self.old n ≡ None }
        requires laid { IsLaid self.old }
        ensures value { result ≡ found self.old n }
        ensures taken { Puts self.old self.new n None }
        ensures room { spare self.old.others ≤ spare self.new.others }
    {
        self.others.swap_remove(&n)
    }

    #[inline(always)]
    pub(crate) fn take(&mut self, n: u64) -> Option<X>
        requires laid { IsLaid self.old }
        ensures value { result ≡ found self.old n }
        ensures taken { Puts self.old self.new n None }
        ensures room { spare self.old.others ≤ spare self.new.others }
    {
        if self.home(n).is_some() {
            let place = self.place(n);
            self.homes[place].take()
        } else {
            self.take_other(n)
        }
    }

    // Twice as many homes. With no memory there stay as many as there are, and the others take what comes.
    fn widen(&mut self)
        requires laid { IsLaid self.old }
        ensures found { (n : ℕ) → found self.new n ≡ found self.old n }
        ensures laid { IsLaid self.new }
        ensures others { self.new.others ≡ self.old.others }
        ensures homes { length self.new.homes.items ≤ max 1 (2 * length self.old.homes.items) }
    {
        let count = self.homes.len();
        if self.homes.reserve(count.max(1)).is_err() {
            return;
        }
        if count == 0 {
            self.homes.push_reserved(Home::Vacant);
            return;
        }
        split(&mut self.homes, count);
        self.mask = 2 * count as u64 - 1;
    }

    // Makes room for so many more values, beside those that there are.
    pub(crate) fn reserve(&mut self, values: u64, more: u64) -> Result<(), AllocError>
        requires laid { IsLaid self.old }
        ensures found { (n : ℕ) → found self.new n ≡ found self.old n }
        ensures laid { IsLaid self.new }
        ensures ok { OnOk result (more ≤ spare self.new.others) }
        ensures room { spare self.old.others ≤ spare self.new.others }
        ensures homes { length self.new.homes.items ≤ max (length self.old.homes.items) (2 * (values + more)) }
        ensures lived { length self.new.homes.items ≤ max (length self.old.homes.items) (2 * max 1 values) }
        ensures err { OnErr result (length self.new.homes.items ≡ length self.old.homes.items) }
    {
        self.others.reserve(more as usize)?;
        // Where each home may be taken, one more value may find none.
        if more > 0 && self.homes.len() as u64 <= values {
            self.widen();
        }
        Ok(())
    }
}
