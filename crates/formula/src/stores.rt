// What a store of nodes is: the meaning that it states, the questions that it answers and the calls that make a node.
ghost use Rattle.std.specs.Prelude.{◌≡◌};
ghost use Rattle.kinds.specs.declared.numbered.Node.{Node};
ghost use Rattle.formula.specs.declared.stores.Making.{Making};
ghost use Rattle.formula.specs.declared.stores.Making.TheVariants as making;
ghost use Rattle.formula.specs.Store.{Meaning, Lawful, Makes, Answered, capacity_of};

use kinds::kind::Kind;
use kinds::numbered::{Name, Node};
use kinds::refusals::Refusal;

// The calls that make a node: a literal of this number, a name, the operation of this number on two nodes, and four of
// nodes alone.
#[derive(Clone, Copy, Debug, PartialEq, Eq)]
pub enum Making {
    Literal(u16),
    Name(Name),
    Operation(u16, Node, Node),
    Same(Node, Node),
    Not(Node),
    And(Node, Node),
    Or(Node, Node),
}

pub trait Store {
    // The kind of the values of its nodes.
    type Value: Kind;

    // Its capacity, width, count, nodes in use, covered assignments and values.
    ghost meaning: { Meaning Self.Value Self };

    // What an accepted making call does: the store before, the call, the node answered, the store after.
    ghost steps: { Self → Making → Node → Self → Type 0 };

    // How many nodes it has room for.
    fn capacity(&self) -> u32
        ensures { result ≡ meaning.capacity self.now };

    // How many names an assignment has a value for.
    fn width(&self) -> u32
        ensures { result ≡ meaning.width self.now };

    // How many nodes are in use.
    fn count(&self) -> u32
        ensures { result ≡ meaning.count self.now };

    // The kind's value for a number.
    fn literal(&mut self, n: u16) -> Result<Node, Refusal>
        ensures { Answered Self.Value.Kind.kind meaning steps self.old (making.Literal n) result self.new };

    // The assignment's value for a name.
    fn name(&mut self, f: Name) -> Result<Node, Refusal>
        ensures { Answered Self.Value.Kind.kind meaning steps self.old (making.Name f) result self.new };

    // The kind's operation on the values of two nodes.
    fn operation(&mut self, op: u16, p: Node, q: Node) -> Result<Node, Refusal>
        ensures { Answered Self.Value.Kind.kind meaning steps self.old (making.Operation op p q) result self.new };

    // Whether two nodes have the same value.
    fn same(&mut self, p: Node, q: Node) -> Result<Node, Refusal>
        ensures { Answered Self.Value.Kind.kind meaning steps self.old (making.Same p q) result self.new };

    // Whether a node is not true.
    fn not(&mut self, p: Node) -> Result<Node, Refusal>
        ensures { Answered Self.Value.Kind.kind meaning steps self.old (making.Not p) result self.new };

    // Whether two nodes are both true.
    fn and(&mut self, p: Node, q: Node) -> Result<Node, Refusal>
        ensures { Answered Self.Value.Kind.kind meaning steps self.old (making.And p q) result self.new };

    // Whether one of two nodes is true.
    fn or(&mut self, p: Node, q: Node) -> Result<Node, Refusal>
        ensures { Answered Self.Value.Kind.kind meaning steps self.old (making.Or p q) result self.new };

    // The count is from 2 to the capacity, node 0 is no and node 1 is yes.
    ghost lawful: { (s : Self) → Lawful Self.Value.Kind.kind meaning s };

    // The node answered is in use and has the value that the call states, and all nodes before stay as they were.
    ghost sound: { (s : Self) (c : Making) (n : Node) (t : Self) → steps s c n t → Makes Self.Value.Kind.kind meaning s c n t };
}

// How many nodes a store may have.
const MOST_NODES: usize = 1_000_000;

// The capacity where this many places are given for nodes from 2 on.
pub fn capacity_of(places: usize) -> u32
    ensures { result ≡ capacity_of places }
{
    2 + places.min(MOST_NODES - 2) as u32
}
