// The nodes that wait while a term's nodes are made.
ghost use Rattle.std.specs.Prelude.{◌≡◌, ◌<◌, ◌≤◌, List, [], ◌∷◌, length, reverse, take};
ghost use Rattle.kinds.specs.declared.numbered.Node.{Node};
ghost use Rattle.routine.specs.Limits.{most_waiting};

use kinds::numbered::Node;
use routine::limits::MOST_WAITING;
use std::marker::Model;

// A clause sees the nodes that wait as a list, the last first.
#[derive(Drop)]
pub struct Stack {
    slots: [Node; MOST_WAITING as usize],
    height: usize,
}

impl Model for Stack {
    ghost Value = { List Node };

    ghost view = { λ k. reverse (take k.height k.slots) };

    ghost invariant = { λ k. k.height ≤ most_waiting };
}

impl Stack {
    pub fn new() -> Stack
        ensures { result ≡ [] }
    {
        Stack {
            slots: [Node(0); MOST_WAITING as usize],
            height: 0,
        }
    }

    pub fn push(&mut self, n: Node)
        requires { length self.old < most_waiting }
        ensures { self.new ≡ n ∷ self.old }
    {
        self.slots[self.height] = n;
        self.height += 1;
    }

    pub fn pop(&mut self) -> Node
        requires { 0 < length self.old }
        ensures popped { self.old ≡ result ∷ self.new }
        ensures few { length self.new < most_waiting }
    {
        self.height -= 1;
        self.slots[self.height]
    }
}
