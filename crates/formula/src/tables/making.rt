// The calls of the table store.
ghost use Rattle.std.specs.Prelude.{◌≡◌};
ghost use Rattle.formula.specs.Store.{DoneOrRefused, Fixing};
ghost use Rattle.formula.specs.Nodes.{no_place};
ghost use Rattle.formula.specs.Tables.{table_meaning, table_steps, combine_refusal, row_asked, RowsStand, SameTable};
ghost use Rattle.formula.specs.TableLaws.{table_lawful, table_sound};

use crate::nodes::Nodes;
use crate::stores::{Making, Store};
use crate::tables::{NodeRow, TableStore};
use kinds::kind::Kind;
use kinds::numbered::{Name, Node};
use kinds::refusals::Refusal;
use std::marker::PhantomData;

impl<K> TableStore<K> {
    // A store of no nodes but 0 and 1, with a place for each row.
    pub fn new(rows: Vec<NodeRow>, width: u32) -> TableStore<K>
        ensures count { result.nodes.count ≡ 2 }
        ensures width { result.width ≡ width }
        ensures rows { result.nodes.items ≡ rows }
        ensures fixing { Fixing (SameTable {V = K}) table_steps }
    {
        TableStore {
            nodes: Nodes::new(rows, 0),
            width,
            kind: PhantomData,
        }
    }

    // The row of a node from 2 on.
    pub fn row(&self, node: Node) -> Result<NodeRow, Refusal>
        ensures asked { result ≡ row_asked self.now node }
        ensures made { RowsStand K }
    {
        if node.0 < 2 || !self.nodes.in_use(node) {
            return Err(Refusal::NotInUse);
        }
        Ok(self.nodes.item(node))
    }

    // Gives the next node the row of a call.
    fn place(&mut self, call: Making) -> Result<Node, Refusal>
        ensures { DoneOrRefused (no_place self.old.nodes) (table_steps self.old call) self.old result self.new }
    {
        self.nodes.add(NodeRow::from(call))
    }

    // Gives the next node the row of a call that is of these two nodes.
    fn combine(&mut self, call: Making, p: Node, q: Node) -> Result<Node, Refusal>
        ensures { DoneOrRefused (combine_refusal self.old p q) (table_steps self.old call) self.old result self.new }
    {
        if !self.nodes.in_use(p) || !self.nodes.in_use(q) {
            return Err(Refusal::NotInUse);
        }
        self.place(call)
    }
}

impl<K: Kind> Store for TableStore<K> {
    type Value = K;

    ghost meaning = { table_meaning K.kind };

    ghost steps = { table_steps };

    ghost lawful = { table_lawful K.kind };

    ghost sound = { table_sound K.kind };

    fn capacity(&self) -> u32 {
        self.nodes.capacity()
    }

    fn width(&self) -> u32 {
        self.width
    }

    fn count(&self) -> u32 {
        self.nodes.count
    }

    fn literal(&mut self, n: u16) -> Result<Node, Refusal> {
        self.place(Making::Literal(n))
    }

    fn name(&mut self, f: Name) -> Result<Node, Refusal> {
        if u32::from(f.0) >= self.width {
            return Err(Refusal::Names);
        }
        self.place(Making::Name(f))
    }

    fn operation(&mut self, op: u16, p: Node, q: Node) -> Result<Node, Refusal> {
        if op >= K::ops() {
            return Err(Refusal::Term);
        }
        self.combine(Making::Operation(op, p, q), p, q)
    }

    fn same(&mut self, p: Node, q: Node) -> Result<Node, Refusal> {
        self.combine(Making::Same(p, q), p, q)
    }

    // The second node is 0, which is in use.
    fn not(&mut self, p: Node) -> Result<Node, Refusal> {
        self.combine(Making::Not(p), p, Node(0))
    }

    fn and(&mut self, p: Node, q: Node) -> Result<Node, Refusal> {
        self.combine(Making::And(p, q), p, q)
    }

    fn or(&mut self, p: Node, q: Node) -> Result<Node, Refusal> {
        self.combine(Making::Or(p, q), p, q)
    }
}
