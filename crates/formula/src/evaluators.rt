// A store that keeps the value of each node under one assignment.
use crate::nodes::Nodes;

pub mod making;

// The values in front are the assignment. Node 0 is no and node 1 is yes; a node from 2 on has its value.
#[derive(Drop)]
pub struct Evaluator<K> {
    nodes: Nodes<K>,
}
