// What a stack does, told of the list that it stands for.
ghost use Rattle.std.specs.Prelude.{◌≡◌, ℕ, ◌-◌, List, [], length, drop};
ghost use Rattle.tree.specs.Stacks.{items, lent, Pushed, Popped, Topped};

use super::Stack;

impl<'a, T: Copy> Stack<'a, T> {
    pub fn new(slots: &'a mut [T]) -> Stack<'a, T>
        ensures items { items result ≡ [] }
        ensures slots { lent result ≡ slots.old }
        ensures same_reference { result.slots.ghost_name ≡ slots.entry.ghost_name }
    {
        Stack { slots, len: 0 }
    }

    pub fn len(&self) -> usize
        ensures { result ≡ length (items self.now) }
    {
        let Stack { len, .. } = self;
        *len
    }

    // Puts an item on top, or hands it back where the slots are full.
    pub fn push(&mut self, item: T) -> Result<(), T>
        ensures pushed { Pushed self.old item result self.new }
        ensures same_reference { self.new.slots.ghost_name ≡ self.old.slots.ghost_name }
    {
        if self.len == self.slots.len() {
            return Err(item);
        }
        self.slots[self.len] = item;
        self.len += 1;
        Ok(())
    }

    pub fn pop(&mut self) -> Option<T>
        ensures items { Popped (items self.old) result (items self.new) }
        ensures slots { lent self.new ≡ lent self.old }
        ensures same_reference { self.new.slots.ghost_name ≡ self.old.slots.ghost_name }
    {
        if self.len == 0 {
            return None;
        }
        self.len -= 1;
        Some(self.slots[self.len])
    }

    pub fn top(&self) -> Option<T>
        ensures { Topped (items self.now) result }
    {
        self.slots[..self.len].last().copied()
    }

    // Takes items off the top until at most `height` are left.
    pub fn cut(&mut self, height: usize)
        ensures items { items self.new ≡ drop (length (items self.old) - height) (items self.old) }
        ensures slots { lent self.new ≡ lent self.old }
        ensures same_reference { self.new.slots.ghost_name ≡ self.old.slots.ghost_name }
    {
        if height < self.len {
            self.len = height;
        }
    }
}
