// The nodes of a term.
ghost use Rattle.std.specs.Prelude.{◌<◌, [], length};
ghost use Rattle.passive.specs.Uses.{WorkableUnder};
ghost use Rattle.conditions.specs.Reading.{items};
ghost use Rattle.conditions.specs.Made.{ItemMade, TermMade};
ghost use Rattle.conditions.specs.Asks.{NodesUsed, Room, ItemWorkable};

use crate::making::make;
use crate::stacks::Stack;
use formula::stores::{Making, Store};
use kinds::numbered::{Name, Node};
use passive::rows::PassiveTermRow;
use routine::rows::Item;

// The node of one item of a term, which then waits in place of those that it took.
fn item_node<S: Store>(store: &mut S, stack: &mut Stack, item: Item<Name>)
    requires workable { ItemWorkable S.Value.kind.ops (S.meaning.width store.old) item (length stack.old) }
    requires used { NodesUsed S.meaning store.old stack.old }
    requires room { Room S.meaning store.old 1 }
    ensures { ItemMade S.steps store.old stack.old item store.new stack.new }
{
    match item {
        Item::Literal(n) => stack.push(make(store, Making::Literal(n))),
        Item::Reference(f) => stack.push(make(store, Making::Name(f))),
        Item::Operation(op) => {
            let q = stack.pop();
            let p = stack.pop();
            stack.push(make(store, Making::Operation(op, p, q)));
        }
    }
}

// The node of a term: one node for each of its rows, in order.
pub fn term_node<S: Store>(store: &mut S, terms: &[PassiveTermRow]) -> Node
    requires workable { WorkableUnder S.Value.kind.ops (S.meaning.width store.old) (items terms.now) }
    requires room { Room S.meaning store.old (length terms.now) }
    ensures { TermMade S.steps store.old [] (items terms.now) store.new result }
{
    let mut stack = Stack::new();
    for row in terms {
        item_node(store, &mut stack, Item::from(*row));
    }
    stack.pop()
}
