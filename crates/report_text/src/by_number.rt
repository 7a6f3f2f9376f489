//! Values by number.

ghost use Rattle.std.specs.Prelude.{◌≡◌, ◌<◌, [], length, IfOk, OnOk};
ghost use Rattle.std.specs.Option.{option_copied};
ghost use Rattle.std.specs.Map.{lookup};
ghost use Rattle.std.specs.BTreeMap.{insert_entry, is_at};
ghost use Rattle.std.specs.Ordering.{nat_cmp};

use quota_table::OutOfMemory;
use std::alloc::Global;
use std::collections::BTreeMap;
use std::marker::Model;

#[cfg(test)]
mod tests;

/// Values by number. Contracts see them with their numbers, rising.
///
/// The values of 0, 1, 2 and so on stand in a list as far as there is no gap, and the others in a tree. A run leaves few
/// gaps, and none for long: of most numbers a look-up is O(1), of the others O(log n).
#[derive(Drop)]
pub struct ByNumber<V> {
    /// The values of the least numbers.
    first: Vec<V>,
    /// The values of numbers that are no less than how many stand in the list.
    rest: BTreeMap<u64, V>,
}

impl<V> Model for ByNumber<V> {
    ghost use Rattle.std.specs.Prelude.{ℕ, List};

    ghost Value = { List (ℕ × V) };

    ghost use Rattle.report_text.specs.inside.Numbers.{by_number, IsByNumber};

    ghost view = { by_number };

    ghost invariant = { IsByNumber };
}

impl<V: Copy + Drop> ByNumber<V> {
    /// No value. It takes no memory.
    pub fn new(alloc: Global) -> ByNumber<V>
        ensures { result ≡ [] }
    {
        ByNumber {
            first: Vec::new(alloc),
            rest: BTreeMap::new(alloc),
        }
    }

    /// The value of a number.
    pub fn get(&self, number: u64) -> Option<V>
        ensures { result ≡ lookup (is_at (nat_cmp number)) self.now }
    {
        match self.first.get(number as usize) {
            Some(value) => Some(*value),
            None => self.rest.get(&number).copied(),
        }
    }

    /// The number has this value from now on.
    pub fn put(&mut self, number: u64, value: V) -> Result<(), OutOfMemory>
        ensures { OnOk result (self.new ≡ insert_entry nat_cmp self.old number value) }
    {
        let at = number as usize;
        if at < self.first.len() {
            self.first[at] = value;
            return Ok(());
        }
        if at == self.first.len() && self.rest.is_empty() {
            self.first.push(value)?;
            return Ok(());
        }
        self.rest.insert(number, value)?;
        self.close_gap()
    }

    /// What follows the list without a gap goes to its end, at the cost of what goes there.
    fn close_gap(&mut self) -> Result<(), OutOfMemory>
        ensures { self.new ≡ self.old }
    {
        for _entry in 0..self.rest.len() {
            if !self.take_next()? {
                break;
            }
        }
        Ok(())
    }

    /// The value that follows the list goes to its end. Whether there is one.
    fn take_next(&mut self) -> Result<bool, OutOfMemory>
        ensures { self.new ≡ self.old }
    {
        self.first.reserve(1)?;
        let len = self.first.len() as u64;
        let Some((number, _)) = self.rest.first_key_value() else {
            return Ok(false);
        };
        if *number == len {
            if let Some(next) = self.rest.pop_first() {
                self.first.push_reserved(next.1);
                return Ok(true);
            }
        }
        Ok(false)
    }

    /// All numbers with their values, rising.
    pub fn rows(&self, alloc: Global) -> Result<Vec<(u64, V)>, OutOfMemory>
        ensures { IfOk result (λ rows. rows.items ≡ self.now) }
    {
        let mut rows = Vec::with_capacity(alloc, self.first.len() + self.rest.len())?;
        for (number, value) in self.first.iter().enumerate() {
            rows.push((number as u64, *value))?;
        }
        for (number, value) in self.rest.iter() {
            rows.push((*number, *value))?;
        }
        Ok(rows)
    }
}
