// A stack over memory that the caller lends, good for every kind of element, and the clearing of lent
// memory. The reader keeps its open groups in one.
#![tactic(auto)]

ghost use Rattle.std.specs.Prelude.{◌≡◌, ◌+◌, ◌-◌, ◌<◌, ◌≤◌, [], ◌∷◌, ◌↔◌, length, replicate, Some, None, IsOk, OnOk, IfErr, slice_set};
ghost use Rattle.stack.specs.Lent.{Same, cleared_from};

// The first `used` slots hold the stack, the last of them its top. The library takes no memory of its own, so
// this is what a `Vec` would be.
#[derive(Drop)]
pub struct Stack<'a, T> {
    slots: &'a mut [T],
    used: usize,
    ghost fits: { used ≤ length slots.now },
}

impl<'a, T: Copy> Stack<'a, T> {
    ghost use Rattle.stack.specs.Stacked.{lent, memory, count, stacked};

    // An empty stack over the lent slots; they are not touched.
    pub fn over(slots: &'a mut [T]) -> Self
        ensures empty { count result ≡ 0 }
        ensures lent { Same (lent result) slots.entry }
        ensures untouched { memory result ≡ slots.old }
    {
        Stack { slots, used: 0 }
    }

    // How many elements the stack holds.
    pub fn len(&self) -> usize
        ensures used { result ≡ count self.now }
        ensures held { result ≡ length (stacked self.now) }
    {
        self.used
    }

    // Puts an element on top, if a slot is left for it; otherwise gives it back.
    pub fn push(&mut self, item: T) -> Result<(), T>
        ensures lent { Same (lent self.new) (lent self.old) }
        ensures room { IsOk result ↔ count self.old < length (memory self.old) }
        ensures pushed { OnOk result (stacked self.new ≡ item ∷ stacked self.old) }
        ensures written { OnOk result (memory self.new ≡ slice_set (memory self.old) (count self.old) item) }
        ensures count { OnOk result (count self.new ≡ count self.old + 1) }
        ensures full { IfErr result (λ back. (back ≡ item) × (self.new ≡ self.old)) }
    {
        if self.used < self.slots.len() {
            self.slots[self.used] = item;
            self.used += 1;
            Ok(())
        } else {
            Err(item)
        }
    }

    // Takes the top element off; its slot keeps what it holds.
    pub fn pop(&mut self) -> Option<T>
        ensures lent { Same (lent self.new) (lent self.old) }
        ensures untouched { memory self.new ≡ memory self.old }
        ensures popped { elim result [ None ↦ (count self.old ≡ 0) × (stacked self.old ≡ []) × (self.new ≡ self.old) | Some x ↦ (count self.new + 1 ≡ count self.old) × (stacked self.old ≡ x ∷ stacked self.new) ] }
    {
        if self.used == 0 {
            None
        } else {
            self.used -= 1;
            Some(self.slots[self.used])
        }
    }

    // Gives the lent slots back cleared: all of them, not only those that were used.
    pub fn clear(self, blank: T)
        ensures { self.exit.0.now ≡ replicate (length (memory self.entry)) blank }
    {
        let Stack { slots, .. } = self;
        clear_from(slots, 0, blank);
    }
}

// Clears lent memory from a place on.
pub fn clear_from<T: Copy>(slots: &mut [T], from: usize, blank: T)
    ensures { slots.new ≡ cleared_from from blank slots.old }
{
    let start = from.min(slots.len());
    // not `fill`, which asks for a clone that cannot fail: `Copy` does not say so
    for slot in &mut slots[start..] {
        *slot = blank;
    }
}
