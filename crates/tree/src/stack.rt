// A bounded stack over lent slots.
ghost use Rattle.std.specs.Prelude.{ℕ, ◌≤◌, length};

pub mod methods;

// The items are the first `len` slots, the last of them on top: the slots are lent, so their count stands beside them.
#[derive(Drop)]
pub struct Stack<'a, T> {
    slots: &'a mut [T],
    len: usize,
    ghost within: { len ≤ length slots.now },
}
