// The nodes of a row of a passive form: those that say whether it may end normally, raised or wrong, in this order.
ghost use Rattle.std.specs.Prelude.{[], ◌∷◌};
ghost use Rattle.passive.specs.Outcomes.{joint_nodes};
ghost use Rattle.conditions.specs.Reading.{items, reading};
ghost use Rattle.conditions.specs.Made.{OrAndMade, JointMade, RowMade};
ghost use Rattle.conditions.specs.Valued.{EndsUsed};
ghost use Rattle.conditions.specs.Asks.{NodesUsed, Room, ends_of, reading_nodes, ReadingWorkable};

use crate::making::make;
use crate::terms::term_node;
use formula::stores::{Making, Store};
use kinds::numbered::Node;
use passive::rows::{PassiveRow, PassiveTag, PassiveTermRow};
use routine::rows::Joint;

pub const NO: Node = Node(0);

const YES: Node = Node(1);

// The node of p or (q and r).
fn or_and<S: Store>(store: &mut S, p: Node, q: Node, r: Node) -> Node
    requires used { NodesUsed S.meaning store.old (p ∷ q ∷ r ∷ []) }
    requires room { Room S.meaning store.old 2 }
    ensures { OrAndMade S.steps store.old p q r store.new result }
{
    let both = make(store, Making::And(q, r));
    make(store, Making::Or(p, both))
}

// The nodes of a row that joins two parts with these nodes.
fn joint_nodes<S: Store>(
    store: &mut S,
    joint: Joint,
    left: (Node, Node, Node),
    right: (Node, Node, Node),
) -> (Node, Node, Node)
    requires left { EndsUsed S.meaning store.old (ends_of left) }
    requires right { EndsUsed S.meaning store.old (ends_of right) }
    requires room { Room S.meaning store.old (joint_nodes joint) }
    ensures { JointMade S.steps store.old joint (ends_of left) (ends_of right) store.new (ends_of result) }
{
    match joint {
        Joint::Sequence => {
            let normal = make(store, Making::And(left.0, right.0));
            let raised = or_and(store, left.1, left.0, right.1);
            let wrong = or_and(store, left.2, left.0, right.2);
            (normal, raised, wrong)
        }
        Joint::Choice => {
            let normal = make(store, Making::Or(left.0, right.0));
            let raised = make(store, Making::Or(left.1, right.1));
            let wrong = make(store, Making::Or(left.2, right.2));
            (normal, raised, wrong)
        }
        Joint::Catch => {
            let normal = or_and(store, left.0, left.1, right.0);
            let raised = make(store, Making::And(left.1, right.1));
            let wrong = or_and(store, left.2, left.1, right.2);
            (normal, raised, wrong)
        }
    }
}

// The nodes of a row whose term is `terms`, where its left part has the nodes `left`, and the row before it `right`.
pub fn row_nodes<S: Store>(
    store: &mut S,
    row: PassiveRow,
    terms: &[PassiveTermRow],
    left: (Node, Node, Node),
    right: (Node, Node, Node),
) -> (Node, Node, Node)
    requires workable { ReadingWorkable S.Value.kind.ops (S.meaning.width store.old) (reading row (items terms.now)) }
    requires left { EndsUsed S.meaning store.old (ends_of left) }
    requires right { EndsUsed S.meaning store.old (ends_of right) }
    requires room { Room S.meaning store.old (reading_nodes (reading row (items terms.now))) }
    ensures { RowMade S.steps store.old (reading row (items terms.now)) (ends_of left) (ends_of right) store.new (ends_of result) }
{
    match PassiveTag::try_from(row.tag).unwrap_or(PassiveTag::Stop) {
        PassiveTag::Assert => {
            let normal = term_node(store, terms);
            let wrong = make(store, Making::Not(normal));
            (normal, NO, wrong)
        }
        PassiveTag::Assume => (term_node(store, terms), NO, NO),
        PassiveTag::Skip => (YES, NO, NO),
        PassiveTag::Raise => (NO, YES, NO),
        PassiveTag::Join(joint) => joint_nodes(store, joint, left, right),
        PassiveTag::Let => {
            let name = make(store, Making::Name(row.f));
            let value = term_node(store, terms);
            (make(store, Making::Same(name, value)), NO, NO)
        }
        PassiveTag::Stop => (NO, NO, NO),
    }
}
