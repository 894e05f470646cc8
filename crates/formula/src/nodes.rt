// The nodes of a store, and an item for each of them from 2 on.
ghost use Rattle.std.specs.Prelude.{◌-◌, ◌≤◌, vec_len};
ghost use Rattle.formula.specs.Store.{capacity_of};

use crate::stores::capacity_of;
use kinds::numbered::Node;
use kinds::refusals::Refusal;

// The nodes below the count are in use. Node 2 + i has item i after the `front` ones, which are no node's.
#[derive(Drop)]
pub struct Nodes<T> {
    pub items: Vec<T>,
    pub front: u32,
    pub count: u32,
    ghost within: { front ≤ vec_len items },
    ghost two: { 2 ≤ count },
    ghost placed: { count ≤ capacity_of (vec_len items - front) },
}

impl<T> Nodes<T> {
    ghost use Rattle.std.specs.Prelude.{◌≡◌, min};
    ghost use Rattle.formula.specs.Store.{below};
    ghost use Rattle.formula.specs.Nodes.{place_of, room_of};

    // No nodes but 0 and 1: each item after the front ones gives a place.
    pub fn new(items: Vec<T>, front: u32) -> Nodes<T>
        ensures count { result.count ≡ 2 }
        ensures front { result.front ≡ min front (vec_len items) }
        ensures items { result.items ≡ items }
    {
        let front = items.len().min(front as usize) as u32;
        Nodes {
            items,
            front,
            count: 2,
        }
    }

    // How many nodes there is room for.
    pub fn capacity(&self) -> u32
        ensures { result ≡ room_of self.now }
    {
        capacity_of(self.items.len() - self.front as usize)
    }

    // Whether a node is in use.
    pub fn in_use(&self, node: Node) -> bool
        ensures { result ≡ below self.now.count node }
    {
        node.0 < self.count
    }

    // Where the item of a node from 2 on stands.
    fn place_of(&self, node: Node) -> usize
        requires { 2 ≤ node.0 }
        ensures { result ≡ place_of self.now node.0 }
    {
        self.front as usize + (node.0 - 2) as usize
    }
}

impl<T: Copy> Nodes<T> {
    ghost use Rattle.std.specs.Prelude.{◌≡◌, ◌<◌, slice_index_or, vec_items};
    ghost use Rattle.formula.specs.Store.{DoneOrRefused};
    ghost use Rattle.formula.specs.Nodes.{place_of, no_place, NodeAdded};

    // The item of a node in use from 2 on.
    pub fn item(&self, node: Node) -> T
        requires from_two { 2 ≤ node.0 }
        requires used { node.0 < self.now.count }
        ensures { (other : T) → result ≡ slice_index_or (vec_items self.now.items) (place_of self.now node.0) other }
    {
        self.items[self.place_of(node)]
    }

    // Gives the next node this item.
    pub fn add(&mut self, item: T) -> Result<Node, Refusal>
        ensures { DoneOrRefused (no_place self.old) (NodeAdded self.old item) self.old result self.new }
    {
        if self.count >= self.capacity() {
            return Err(Refusal::Places);
        }
        let node = Node(self.count);
        let place = self.place_of(node);
        self.items[place] = item;
        self.count += 1;
        Ok(node)
    }
}
