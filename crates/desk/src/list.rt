// A list in a lent buffer. What has no room is left out.
ghost use Rattle.std.specs.Prelude.{◌≡◌, ◌+◌, ◌≤◌, ◌↔◌, IsTrue, length, min, take};

#[derive(Drop)]
pub struct List<'a, T> {
    pub(crate) room: &'a mut [T],
    pub(crate) count: usize, // how many of the buffer's items are the list's
    ghost fits: { count ≤ length room.now },
}

impl<'a, T: Copy> List<'a, T> {
    pub fn new(room: &'a mut [T]) -> Self
        ensures empty { result.count ≡ 0 }
        ensures room { length result.room.now ≡ length room.old }
    {
        Self { room, count: 0 }
    }

    pub fn as_slice(&self) -> &[T]
        ensures { result.now ≡ take self.now.count self.now.room.now }
    {
        &self.room[..self.count]
    }

    pub fn is_full(&self) -> bool
        ensures { IsTrue result ↔ (length self.now.room.now ≤ self.now.count) }
    {
        self.room.len() <= self.count
    }

    pub fn clear(&mut self)
        ensures empty { self.new.count ≡ 0 }
        ensures room { length self.new.room.now ≡ length self.old.room.now }
    {
        self.count = 0;
    }

    // One item more.
    pub fn push(&mut self, item: T)
        ensures count { self.new.count ≡ min (self.old.count + 1) (length self.old.room.now) }
        ensures room { length self.new.room.now ≡ length self.old.room.now }
    {
        if self.count < self.room.len() {
            self.room[self.count] = item;
            self.count += 1;
        }
    }

    // As many more as there is room for.
    pub fn extend(&mut self, items: &[T])
        ensures count { self.new.count ≡ min (self.old.count + length items.now) (length self.old.room.now) }
        ensures room { length self.new.room.now ≡ length self.old.room.now }
    {
        let rest = &mut self.room[self.count..];
        let n = items.len().min(rest.len());
        rest[..n].copy_from_slice(&items[..n]);
        self.count += n;
    }
}
