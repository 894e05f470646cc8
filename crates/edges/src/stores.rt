// Both stores at their limits: each refusal, exactly the places given, and both kinds.
use formula::evaluators::Evaluator;
use formula::stores::Store;
use formula::tables::{NodeRow, TableStore};
use kinds::flags::Flag;
use kinds::kind::Kind;
use kinds::numbered::{Name, Node};
use kinds::numbers::Number;
use kinds::refusals::Refusal;
use std::test::Fail;

// Each refusal comes before the next, and leaves the store as it was.
#[test]
fn table_refusals(rt: HostRuntime) -> Result<(), Fail> {
    let mut store: TableStore<Number> = TableStore::new(vec![in rt.alloc(); NodeRow::BLANK; 1]?, 2);
    assert_eq!(rt; store.operation(5, Node(2), Node(0)), Err(Refusal::Term));
    assert_eq!(rt;
        store.operation(4, Node(2), Node(0)),
        Err(Refusal::NotInUse)
    );
    assert_eq!(rt; store.name(Name(2)), Err(Refusal::Names));
    assert_eq!(rt; store.name(Name(1)), Ok(Node(2)));
    assert_eq!(rt; store.same(Node(2), Node(3)), Err(Refusal::NotInUse));
    assert_eq!(rt; store.same(Node(2), Node(1)), Err(Refusal::Places));
    assert_eq!(rt; store.count(), 3);
    Ok(())
}

// The rows given are exactly enough.
#[test]
fn table_rows(rt: HostRuntime) -> Result<(), Fail> {
    let mut store: TableStore<Flag> = TableStore::new(vec![in rt.alloc(); NodeRow::BLANK; 2]?, 0);
    assert_eq!(rt; store.capacity(), 4);
    assert_eq!(rt; store.operation(15, Node(0), Node(1)), Ok(Node(2)));
    assert_eq!(rt; store.not(Node(2)), Ok(Node(3)));
    assert_eq!(rt; store.literal(0), Err(Refusal::Places));
    assert_eq!(rt; store.row(Node(1)), Err(Refusal::NotInUse));
    assert_eq!(rt;
        store.row(Node(2)),
        Ok(NodeRow {
            tag: 3,
            operation: 15,
            first: 0,
            second: 1,
        })
    );
    assert_eq!(rt;
        store.row(Node(3)),
        Ok(NodeRow {
            tag: 5,
            operation: 0,
            first: 2,
            second: 0,
        })
    );
    Ok(())
}

// A width of one, and two places: 7 - 7 is no, and so its negation is yes.
#[test]
fn evaluator_values(rt: HostRuntime) -> Result<(), Fail> {
    let mut store: Evaluator<Number> = Evaluator::new(vec![in rt.alloc(); Number(7); 4]?, 1);
    assert_eq!(rt; store.name(Name(1)), Err(Refusal::Names));
    assert_eq!(rt; store.name(Name(0)), Ok(Node(2)));
    assert_eq!(rt; store.operation(1, Node(2), Node(2)), Ok(Node(3)));
    assert_eq!(rt; store.not(Node(3)), Ok(Node(4)));
    assert_eq!(rt; store.or(Node(4), Node(5)), Err(Refusal::NotInUse));
    assert_eq!(rt; store.or(Node(4), Node(3)), Err(Refusal::Places));
    assert_eq!(rt; store.value(Node(4)), Ok(Number(1)));
    assert_eq!(rt; store.value(Node(5)), Err(Refusal::NotInUse));
    Ok(())
}

// All values are the assignment, and no place is left.
#[test]
fn evaluator_width(rt: HostRuntime) -> Result<(), Fail> {
    let mut store: Evaluator<Flag> = Evaluator::new(vec![in rt.alloc(); Flag(true); 3]?, 4);
    assert_eq!(rt; store.width(), 3);
    assert_eq!(rt; store.capacity(), 2);
    assert_eq!(rt; store.name(Name(2)), Err(Refusal::Places));
    assert_eq!(rt; store.value(Node(1)), Ok(Flag(true)));
    Ok(())
}
