// Conditions and registers at their limits, and what somebody would try who wants an entry to say something else.
use conditions::calls::make_condition;
use formula::evaluators::Evaluator;
use formula::stores::Store;
use formula::tables::{NodeRow, TableStore};
use kinds::flags::Flag;
use kinds::numbered::Node;
use kinds::numbers::{LESS, Number};
use kinds::refusals::Refusal;
use passive::rows::{PassiveRow, PassiveTermRow};
use register::entries::{Joining, Reading};
use register::registers::Register;
use routine::{command_row, term_row};
use std::test::Fail;
use worked::{Routine, first, second};

// Exactly the places that were measured suffice; one fewer is refused, and store and table are as before. So are too few names and rows.
#[test]
fn places_and_tables(rt: HostRuntime) -> Result<(), Fail> {
    let Routine { v, commands, terms } = first();
    let mut rows = [PassiveRow::BLANK; 5];
    let mut out = [PassiveTermRow::BLANK; 11];
    let mut store: TableStore<Number> = TableStore::new(
        vec![in rt.alloc(); NodeRow::BLANK; 24]?,
        2,
    );
    let answer = make_condition(&mut store, v, commands, terms, &mut rows, &mut out);
    assert_eq!(rt; answer, Err(Refusal::Places));
    assert_eq!(rt; store.count(), 2);
    assert!(rt; rows[0] == PassiveRow::BLANK);
    let mut store: TableStore<Number> = TableStore::new(
        vec![in rt.alloc(); NodeRow::BLANK; 25]?,
        1,
    );
    let answer = make_condition(&mut store, v, commands, terms, &mut rows, &mut out);
    assert_eq!(rt; answer, Err(Refusal::Names));
    let mut store: TableStore<Number> = TableStore::new(
        vec![in rt.alloc(); NodeRow::BLANK; 25]?,
        2,
    );
    let answer = make_condition(
        &mut store,
        v,
        commands,
        terms,
        &mut [PassiveRow::BLANK; 4],
        &mut out,
    );
    assert_eq!(rt; answer, Err(Refusal::WorkTable));
    let answer = make_condition(
        &mut store,
        v,
        commands,
        terms,
        &mut rows,
        &mut [PassiveTermRow::BLANK; 10],
    );
    assert_eq!(rt; answer, Err(Refusal::WorkTable));
    assert_eq!(rt; store.count(), 2);
    let answer = make_condition(&mut store, v, commands, terms, &mut rows, &mut out);
    assert!(rt; answer.is_ok());
    assert_eq!(rt; store.count(), 27);
    assert_eq!(rt; rows[0].n, Node(4));
    Ok(())
}

// A condition over flags: operation 15 is yes for any two flags, and there is no operation 16.
#[test]
fn flags(rt: HostRuntime) -> Result<(), Fail> {
    let mut rows = [PassiveRow::BLANK; 1];
    let mut out = [PassiveTermRow::BLANK; 5];
    let commands = [command_row!(assert term 0 + 5)];
    let terms = [
        term_row!(variable 0),
        term_row!(variable 0),
        term_row!(variable 0),
        term_row!(operation 15),
        term_row!(operation 15),
    ];
    let values = vec![in rt.alloc(); Flag(true); 8]?;
    let mut store: Evaluator<Flag> = Evaluator::new(values, 1);
    let answer = make_condition(&mut store, 1, &commands, &terms, &mut rows, &mut out);
    assert!(rt; answer.is_ok());
    assert_eq!(rt; store.value(Node(8)), Ok(Flag(true)));
    let unknown = [
        term_row!(variable 0),
        term_row!(variable 0),
        term_row!(operation 16),
    ];
    let answer = make_condition(
        &mut store,
        1,
        &[command_row!(assert term 0 + 3)],
        &unknown,
        &mut rows,
        &mut out,
    );
    assert_eq!(rt; answer, Err(Refusal::Term));
    Ok(())
}

// The same tables filed again, changed in place: the first entry still says what it said.
#[test]
fn changed_in_place(rt: HostRuntime) -> Result<(), Fail> {
    let mut rows = [PassiveRow::BLANK; 5];
    let mut out = [PassiveTermRow::BLANK; 11];
    let store: TableStore<Number> = TableStore::new(vec![in rt.alloc(); NodeRow::BLANK; 40]?, 2);
    let mut register = Register::new(store, 0);
    let mut commands = [command_row!(assert term 0 + 1)];
    let terms = [term_row!(literal 1)];
    assert!(rt;
        register
            .file(&commands, &terms, &mut rows, &mut out)
            .is_ok()
    );
    let before = register.read(0);
    commands[0] = command_row!(assume term 0 + 1);
    assert!(rt;
        register
            .file(&commands, &terms, &mut rows, &mut out)
            .is_ok()
    );
    assert_eq!(rt; register.read(0), before);
    assert_eq!(rt;
        register.read(1),
        Ok(Reading {
            node: Node(6),
            names: 0,
            rise: 2,
        })
    );
    Ok(())
}

// An entry joined with itself, a join joined, a struck entry in a join.
#[test]
fn joins(rt: HostRuntime) -> Result<(), Fail> {
    let mut rows = [PassiveRow::BLANK; 5];
    let mut out = [PassiveTermRow::BLANK; 11];
    let store: TableStore<Number> = TableStore::new(vec![in rt.alloc(); NodeRow::BLANK; 60]?, 2);
    let mut register = Register::new(store, 1);
    let Routine {
        commands,
        terms,
        ..
    } = second();
    assert!(rt; register.file(commands, terms, &mut rows, &mut out).is_ok());
    assert_eq!(rt;
        register.join(0, 0),
        Ok(Joining {
            entry: 1,
            node: Node(19),
        })
    );
    assert_eq!(rt;
        register.join(1, 0),
        Ok(Joining {
            entry: 2,
            node: Node(20),
        })
    );
    assert_eq!(rt; register.join(3, 0), Err(Refusal::NotInUse));
    assert_eq!(rt; register.strike(0), Ok(()));
    assert_eq!(rt; register.strike(0), Err(Refusal::Struck));
    assert_eq!(rt; register.join(2, 0), Err(Refusal::Struck));
    assert_eq!(rt; register.read(0), Err(Refusal::Struck));
    assert_eq!(rt;
        register.read(2),
        Ok(Reading {
            node: Node(20),
            names: 2,
            rise: 1,
        })
    );
    assert_eq!(rt; register.store().count(), 21);
    Ok(())
}

// The 64th entry is the last; on a full store the places are tried first.
#[test]
fn full(rt: HostRuntime) -> Result<(), Fail> {
    let mut rows = [PassiveRow::BLANK; 5];
    let mut out = [PassiveTermRow::BLANK; 11];
    let skip = [command_row!(skip)];
    let store: TableStore<Number> = TableStore::new(vec![in rt.alloc(); NodeRow::BLANK; 65]?, 0);
    let mut register = Register::new(store, 0);
    assert!(rt; register.file(&skip, &[], &mut rows, &mut out).is_ok());
    for _ in 0..63 {
        assert!(rt; register.join(0, 0).is_ok());
    }
    assert_eq!(rt; register.join(0, 0), Err(Refusal::Entries));
    assert_eq!(rt;
        register.file(&skip, &[], &mut rows, &mut out),
        Err(Refusal::Entries)
    );
    assert_eq!(rt; register.store().count(), 66);
    let store: TableStore<Number> = TableStore::new(vec![in rt.alloc(); NodeRow::BLANK; 1]?, 0);
    let mut register = Register::new(store, 0);
    assert!(rt; register.file(&skip, &[], &mut rows, &mut out).is_ok());
    assert_eq!(rt; register.join(0, 0), Err(Refusal::Places));
    assert_eq!(rt;
        register.file(&skip, &[], &mut rows, &mut out),
        Err(Refusal::Places)
    );
    Ok(())
}

// The example of the README: assert v0 < 10, over one variable.
#[test]
fn readme(rt: HostRuntime) -> Result<(), Fail> {
    let terms = [
        term_row!(variable 0),
        term_row!(literal 10),
        term_row!(operation LESS),
    ];
    let commands = [command_row!(assert term 0 + 3)];
    let nodes = vec![in rt.alloc(); NodeRow::BLANK; 100]?;
    let store: TableStore<Number> = TableStore::new(nodes, 1);
    let mut register = Register::new(store, 1);
    let mut rows = [PassiveRow::BLANK; 1];
    let mut out = [PassiveTermRow::BLANK; 3];
    match register.file(&commands, &terms, &mut rows, &mut out) {
        Ok(filing) => {
            assert!(rt; filing.node == Node(6) && register.store().row(filing.node).is_ok());
            Ok(())
        },
        Err(refusal) => {
            assert!(rt; refusal.number() == 0);
            Ok(())
        },
    }
}
