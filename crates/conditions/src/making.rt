// How a call is made, and one that is never refused.
ghost use Rattle.formula.specs.Store.{Answered};
ghost use Rattle.conditions.specs.Asks.{Accepted};

use formula::stores::{Making, Store};
use kinds::numbered::Node;
use kinds::refusals::Refusal;

fn answer<S: Store>(store: &mut S, call: Making) -> Result<Node, Refusal>
    ensures { Answered S.Value.kind S.meaning S.steps store.old call result store.new }
{
    match call {
        Making::Literal(n) => store.literal(n),
        Making::Name(f) => store.name(f),
        Making::Operation(op, p, q) => store.operation(op, p, q),
        Making::Same(p, q) => store.same(p, q),
        Making::Not(p) => store.not(p),
        Making::And(p, q) => store.and(p, q),
        Making::Or(p, q) => store.or(p, q),
    }
}

// The node of a call that is not refused.
pub fn make<S: Store>(store: &mut S, call: Making) -> Node
    requires { Accepted S.Value.kind S.meaning store.old call }
    ensures { S.steps store.old call result store.new }
{
    match answer(store, call) {
        Ok(node) => node,
        Err(_) => unreachable!(),
    }
}
