// A store that keeps a row for each node.
ghost use Rattle.std.specs.Prelude.{◌≡◌};

use crate::nodes::Nodes;
use crate::stores::Making;
use std::marker::PhantomData;

pub mod making;

// How a node was made: by the making call of this tag, 1 to 7 in the order of the calls. A literal or a name stands in
// the first operand, and what a call does not have is 0.
#[derive(Clone, Copy, Debug, PartialEq, Eq)]
pub struct NodeRow {
    pub tag: u32,
    pub operation: u32,
    pub first: u32,
    pub second: u32,
}

impl NodeRow {
    // A row that is yet to be written.
    pub const BLANK: NodeRow = NodeRow {
        tag: 0,
        operation: 0,
        first: 0,
        second: 0,
    };
}

impl From<Making> for NodeRow {
    ghost use Rattle.std.specs.Prelude.{◌≡◌};
    ghost use Rattle.formula.specs.Tables.{row_of};

    ghost from_gives = { λ call row. row ≡ row_of call };

    fn from(call: Making) -> NodeRow {
        let (tag, operation, first, second) = match call {
            Making::Literal(n) => (1, 0, u32::from(n), 0),
            Making::Name(f) => (2, 0, u32::from(f.0), 0),
            Making::Operation(op, p, q) => (3, u32::from(op), p.0, q.0),
            Making::Same(p, q) => (4, 0, p.0, q.0),
            Making::Not(p) => (5, 0, p.0, 0),
            Making::And(p, q) => (6, 0, p.0, q.0),
            Making::Or(p, q) => (7, 0, p.0, q.0),
        };
        NodeRow {
            tag,
            operation,
            first,
            second,
        }
    }
}

// Node 0 is no and node 1 is yes; a node from 2 on has the row of the call that made it.
#[derive(Drop)]
pub struct TableStore<K> {
    nodes: Nodes<NodeRow>,
    width: u32,
    kind: PhantomData<K>,
    ghost all: { nodes.front ≡ 0 },
}
