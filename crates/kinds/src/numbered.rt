// Three sorts of number, which never stand for one another.
ghost use Rattle.std.specs.Prelude.{Some};
ghost use Rattle.kinds.specs.Printed.{variable_text, name_text, node_text};

use std::fmt;

// A variable of a routine, numbered from 0.
#[derive(Clone, Copy, Debug, PartialEq, Eq)]
pub struct Variable(pub u32);

// An incarnation name: the name of a variable between one assignment and the next.
#[derive(Clone, Copy, Debug, PartialEq, Eq)]
pub struct Name(pub u16);

// A node of a formula store.
#[derive(Clone, Copy, Debug, PartialEq, Eq)]
pub struct Node(pub u32);

impl fmt::Display for Variable {
    ghost output = { λ x. Some (variable_text x) };

    fn fmt<W: fmt::Write>(&self, f: &mut fmt::Formatter<W>) -> fmt::Result {
        write!(f, "v{}", self.0)
    }
}

impl fmt::Display for Name {
    ghost output = { λ x. Some (name_text x) };

    fn fmt<W: fmt::Write>(&self, f: &mut fmt::Formatter<W>) -> fmt::Result {
        write!(f, "n{}", self.0)
    }
}

impl fmt::Display for Node {
    ghost output = { λ x. Some (node_text x) };

    fn fmt<W: fmt::Write>(&self, f: &mut fmt::Formatter<W>) -> fmt::Result {
        write!(f, "node {}", self.0)
    }
}
