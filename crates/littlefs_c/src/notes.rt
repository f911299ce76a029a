// A record of a device's programs and erases, which C can fetch.

ghost use Rattle.std.specs.Prelude.{◌≡◌, ◌≤◌, ◌<◌, ◌+◌, ◌^◌, ◌∷◌, ◌++◌, [], List, IfSome, length, slice_get, Some, true};
ghost use Rattle.lfs_model.specs.session.History.{DeviceCall};
ghost use Rattle.lfs_model.specs.session.History.DeviceCall.{Program, Erase};
ghost use Rattle.littlefs_c.specs.ChangeLog.{AreRecordedChanges, change_call};

use std::alloc::Global;
use std::cell::Cell;

// 2^62, the largest value of `first`. Once `first` reaches it, change numbers have run out.
const NUMBERS: u64 = 4_611_686_018_427_387_904;

// The value of `wanted` until a caller asks for changes. No change is kept until then.
const NONE_WANTED: u64 = u64::MAX;

/// One change of a block.
#[derive(Drop)]
pub enum Change {
    /// A program of a block: its index, the offset in bytes, and the programmed bytes.
    Program(u32, u32, Vec<u8>),
    /// An erase of the block with this index.
    Erase(u32),
}

/// The latest changes of a device, oldest first. Changes are numbered from 0. A change may be
/// dropped once its reader wants only later ones.
#[derive(Drop)]
pub struct ChangeRecord {
    alloc: Global,
    first: u64,
    changes: Vec<Change>,
    // The number of the first change that is wanted. A `Cell`, because callers only borrow the
    // device.
    wanted: Cell<u64>,
    ghost small: { first ≤ 2 ^ 62 },
}

impl ChangeRecord {
    /// Returns an empty record for a device without any program or erase. Keeps no changes until
    /// `begin` is called.
    pub fn new(alloc: Global) -> ChangeRecord
        ensures { AreRecordedChanges result.first result.changes.items [] }
    {
        ChangeRecord {
            alloc,
            first: 0,
            changes: Vec::new(alloc),
            wanted: Cell::new(NONE_WANTED),
        }
    }

    // Returns the number of the next change.
    fn next(&self) -> u64
        ensures { result ≡ self.now.first + length self.now.changes.items }
    {
        self.first + self.changes.len() as u64
    }

    // Drops all changes, and counts the next one without keeping it.
    fn skip_change(&mut self)
        ensures { (before : List DeviceCall) (call : DeviceCall) → AreRecordedChanges self.old.first self.old.changes.items before → AreRecordedChanges self.new.first self.new.changes.items (before ++ call ∷ []) }
    {
        self.first = self.next().saturating_add(1).min(NUMBERS);
        self.changes.clear();
    }

    // Drops all changes if none of them is wanted.
    fn let_go(&mut self)
        ensures { (before : List DeviceCall) → AreRecordedChanges self.old.first self.old.changes.items before → AreRecordedChanges self.new.first self.new.changes.items before }
    {
        let next = self.next();
        if self.wanted.get() >= next {
            self.first = next.min(NUMBERS);
            self.changes.clear();
        }
    }

    // Appends a change. Drops all changes, including this one, if memory can't be allocated.
    fn keep_change(&mut self, change: Change)
        ensures { (before : List DeviceCall) → AreRecordedChanges self.old.first self.old.changes.items before → AreRecordedChanges self.new.first self.new.changes.items (before ++ change_call change ∷ []) }
    {
        self.let_go();
        if self.changes.push(change).is_err() {
            self.skip_change();
        }
    }

    /// Counts a program. Also keeps the program if a caller asked for changes and memory can be
    /// allocated.
    pub fn note_program(&mut self, block: u32, off: u32, bytes: &[u8])
        ensures { (before : List DeviceCall) → AreRecordedChanges self.old.first self.old.changes.items before → AreRecordedChanges self.new.first self.new.changes.items (before ++ Program block off bytes.now ∷ []) }
    {
        if self.wanted.get() == NONE_WANTED {
            self.skip_change();
            return;
        }
        match Vec::from_slice(self.alloc, bytes) {
            Ok(bytes) => self.keep_change(Change::Program(block, off, bytes)),
            Err(_) => self.skip_change(),
        }
    }

    /// Counts an erase. Also keeps the erase if a caller asked for changes and memory can be
    /// allocated.
    pub fn note_erase(&mut self, block: u32)
        ensures { (before : List DeviceCall) → AreRecordedChanges self.old.first self.old.changes.items before → AreRecordedChanges self.new.first self.new.changes.items (before ++ Erase block ∷ []) }
    {
        if self.wanted.get() == NONE_WANTED {
            self.skip_change();
        } else {
            self.keep_change(Change::Erase(block));
        }
    }

    /// Returns the number of the next change, or None if change numbers have run out. Keeps changes
    /// from that number on, unless a caller already asked for changes.
    pub fn begin(&self) -> Option<u64>
        ensures number { IfSome result (λ n. (calls : List DeviceCall) → AreRecordedChanges self.now.first self.now.changes.items calls → n ≡ length calls) }
        ensures small { IfSome result (λ n. n < 2 ^ 63) }
    {
        if self.first >= NUMBERS || self.changes.len() as u64 >= NUMBERS {
            return None;
        }
        let next = self.next();
        if self.wanted.get() == NONE_WANTED {
            self.wanted.set(next);
        }
        Some(next)
    }

    /// Marks all changes before `number` as unwanted, so that the record may drop them.
    pub fn want(&self, number: u64) {
        self.wanted.set(number);
    }

    /// Returns whether the change with this number is yet to be made. Returns false if change
    /// numbers have run out.
    pub fn is_future(&self, number: u64) -> bool
        ensures { (calls : List DeviceCall) → AreRecordedChanges self.now.first self.now.changes.items calls → result ≡ true → length calls ≤ number }
    {
        self.first < NUMBERS && number >= self.next()
    }

    /// Borrows the change with this number, or returns None if it isn't kept.
    pub fn change(&self, number: u64) -> Option<&Change>
        ensures { IfSome result (λ c. (calls : List DeviceCall) → AreRecordedChanges self.now.first self.now.changes.items calls → slice_get calls number ≡ Some (change_call c.now)) }
    {
        if self.first >= NUMBERS || number < self.first {
            return None;
        }
        self.changes.get((number - self.first) as usize)
    }
}
