// The calls of the evaluator.
ghost use Rattle.std.specs.Prelude.{◌≡◌, min, take, vec_len};
ghost use Rattle.formula.specs.Store.{yes_or_no, Fixing};
ghost use Rattle.formula.specs.Evaluators.{assignment, evaluator_meaning, evaluator_steps, value_asked, values_asked, ValuesStand, SameValues};
ghost use Rattle.formula.specs.EvaluatorLaws.{evaluator_lawful, evaluator_sound};

use crate::evaluators::Evaluator;
use crate::nodes::Nodes;
use crate::stores::Store;
use kinds::kind::Kind;
use kinds::numbered::{Name, Node};
use kinds::refusals::Refusal;

fn yes_or_no<K: Kind>(b: bool) -> K
    ensures { result ≡ yes_or_no K.kind b }
{
    if b { K::yes() } else { K::no() }
}

impl<K> Evaluator<K> {
    // A store of no nodes but 0 and 1: the first values are its assignment, and each value after them gives a place.
    pub fn new(values: Vec<K>, width: u32) -> Evaluator<K>
        ensures count { result.nodes.count ≡ 2 }
        ensures width { result.nodes.front ≡ min width (vec_len values) }
        ensures front { assignment result ≡ take width values.items }
        ensures values { result.nodes.items ≡ values }
    {
        Evaluator {
            nodes: Nodes::new(values, width),
        }
    }
}

impl<K: Kind> Evaluator<K> {
    // The value of a node in use.
    pub fn value(&self, node: Node) -> Result<K, Refusal>
        ensures asked { result ≡ value_asked K.kind self.now node }
        ensures made { ValuesStand K.kind }
        ensures fixing { Fixing SameValues (evaluator_steps K.kind) }
    {
        if !self.nodes.in_use(node) {
            return Err(Refusal::NotInUse);
        }
        match node.0 {
            0 => Ok(K::no()),
            1 => Ok(K::yes()),
            _ => Ok(self.nodes.item(node)),
        }
    }

    // The values of two nodes in use.
    fn values(&self, p: Node, q: Node) -> Result<(K, K), Refusal>
        ensures { result ≡ values_asked K.kind self.now p q }
    {
        Ok((self.value(p)?, self.value(q)?))
    }
}

impl<K: Kind> Store for Evaluator<K> {
    type Value = K;

    ghost meaning = { evaluator_meaning K.kind };

    ghost steps = { evaluator_steps K.kind };

    ghost lawful = { evaluator_lawful K.kind };

    ghost sound = { evaluator_sound K.kind };

    fn capacity(&self) -> u32 {
        self.nodes.capacity()
    }

    fn width(&self) -> u32 {
        self.nodes.front
    }

    fn count(&self) -> u32 {
        self.nodes.count
    }

    fn literal(&mut self, n: u16) -> Result<Node, Refusal> {
        self.nodes.add(K::literal(n))
    }

    fn name(&mut self, f: Name) -> Result<Node, Refusal> {
        if u32::from(f.0) >= self.nodes.front {
            return Err(Refusal::Names);
        }
        let value = self.nodes.items[f.0 as usize];
        self.nodes.add(value)
    }

    fn operation(&mut self, op: u16, p: Node, q: Node) -> Result<Node, Refusal> {
        if op >= K::ops() {
            return Err(Refusal::Term);
        }
        let (p, q) = self.values(p, q)?;
        self.nodes.add(K::operate(op, p, q))
    }

    fn same(&mut self, p: Node, q: Node) -> Result<Node, Refusal> {
        let (p, q) = self.values(p, q)?;
        self.nodes.add(yes_or_no(p.same(q)))
    }

    fn not(&mut self, p: Node) -> Result<Node, Refusal> {
        let p = self.value(p)?;
        self.nodes.add(yes_or_no(!p.truth()))
    }

    fn and(&mut self, p: Node, q: Node) -> Result<Node, Refusal> {
        let (p, q) = self.values(p, q)?;
        self.nodes.add(yes_or_no(p.truth() && q.truth()))
    }

    fn or(&mut self, p: Node, q: Node) -> Result<Node, Refusal> {
        let (p, q) = self.values(p, q)?;
        self.nodes.add(yes_or_no(p.truth() || q.truth()))
    }
}
