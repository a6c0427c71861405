// What the cases of a file go by.
ghost use Rattle.std.specs.Prelude.{◌≡◌, ◌≤◌, List, true, take};
ghost use Rattle.std.specs.Fn.{FnOnceReturnsAtMut};

use crate::changes::{Stored, make_changes};
use crate::records::BadRecord;
use paper::MOST_WORDS;
use std::io::Read;

// Room for the longest, how much of it the last record gave, none before the first, and room to try a case on a copy of that much.
#[derive(Drop)]
pub struct Standing<T, const N: usize> {
    pub room: [T; N],
    pub trial: [T; N],
    pub held: usize,
    ghost in_room: { held ≤ N },
}

// The image that cases go by.
pub type Image = Standing<u16, MOST_WORDS>;

impl<T: Stored, const N: usize> Standing<T, N> {
    // Nothing to go by yet.
    pub fn new(blank: T) -> Standing<T, N>
        ensures { result.held ≡ 0 }
    {
        Standing {
            room: [blank; N],
            trial: [blank; N],
            held: 0,
        }
    }

    // Reads so many as what to go by.
    pub fn read<R: Read>(&mut self, source: &mut R, count: usize) -> Result<(), BadRecord> {
        if count > N {
            return Err(BadRecord);
        }
        T::read_all(source, &mut self.room[..count])?;
        self.held = count;
        Ok(())
    }

    // Makes the next count changes of the file, and answers whether some items are what then stands: a yes means that all are.
    pub fn becomes<R: Read>(
        &mut self,
        source: &mut R,
        count: usize,
        items: &[T],
    ) -> Result<bool, BadRecord>
        ensures { result ≡ Ok true → items.now ≡ take self.old.held self.new.room }
    {
        let held = self.held;
        make_changes(source, &mut self.room[..held], count)?;
        Ok(items == &self.room[..held])
    }

    // Makes the next count changes of the file, and answers whether a call on a copy of what stood says yes and leaves what then stands: a yes means both.
    pub fn is_changed_by<R: Read, F: FnOnce(&mut [T]) -> bool>(
        &mut self,
        source: &mut R,
        count: usize,
        call: F,
    ) -> Result<bool, BadRecord>
        requires { F.IsAlwaysCallable call }
        ensures { result ≡ Ok true → (left : List T) × FnOnceReturnsAtMut F.FnOnce call (take self.old.held self.old.room) true left × (left ≡ take self.old.held self.new.room) }
    {
        let held = self.held;
        let items = &mut self.trial[..held];
        items.copy_from_slice(&self.room[..held]);
        let yes = call(items);
        make_changes(source, &mut self.room[..held], count)?;
        Ok(yes && &*items == &self.room[..held])
    }
}
