// How a routine, its passive form, its condition and a register are shown.
ghost use Rattle.std.specs.Prelude.{◌≡◌};
ghost use Rattle.walkthrough.specs.Shown.{operator_sign, label_from};

use formula::tables::{NodeRow, TableStore};
use kinds::numbered::{Node, Variable};
use kinds::numbers::Number;
use passive::rows::{PassiveRow, PassiveTag, PassiveTermRow};
use register::entries::Request;
use routine::rows::{CommandRow, Item, Joint, Tag, TermRow};
use std::alloc::{AllocError, Global};
use std::fmt;

fn operator(operation: u32) -> &'static str
    ensures { result.now ≡ operator_sign operation }
{
    match operation {
        0 => "+",
        1 => "-",
        2 => "*",
        3 => "<",
        4 => "=",
        _ => "?",
    }
}

// A postfix term written with its operators between their operands.
fn term_text<T: Copy + Into<Item<R>>, R: Copy + fmt::Display>(
    heap: Global,
    rows: &[T],
) -> Result<String, AllocError> {
    let mut waiting: Vec<String> = Vec::new(heap);
    for row in rows {
        let text = match (*row).into() {
            Item::Literal(number) => format!(in heap; "{number}")?,
            Item::Reference(read) => format!(in heap; "{read}")?,
            Item::Operation(operation) => {
                let sign = operator(u32::from(operation));
                match (waiting.pop(), waiting.pop()) {
                    (Some(q), Some(p)) => format!(in heap; "({p} {sign} {q})")?,
                    _ => format!(in heap; "{sign}")?,
                }
            }
        };
        waiting.push(text)?;
    }
    Ok(waiting.pop().unwrap_or(String::new(heap)))
}

// The term of `count` rows from `from` on, or nothing where it lies outside the table.
fn term_of<T: Copy + Into<Item<R>>, R: Copy + fmt::Display>(
    heap: Global,
    terms: &[T],
    from: u32,
    count: u32,
) -> Result<String, AllocError> {
    let first = from as usize;
    let rows = terms.get(first..first + count as usize).unwrap_or(&[]);
    term_text(heap, rows)
}

// Prints a line, indented; an empty one is left out.
fn print_line(rt: &HostRuntime, depth: usize, line: &str) -> anyhow::Result<()> {
    if line.is_empty() {
        return Ok(());
    }
    for _ in 0..depth {
        print!(rt; "  ")?;
    }
    println!(rt; "{line}")?;
    Ok(())
}

// A command that has no parts.
fn single_text(heap: Global, terms: &[TermRow], row: CommandRow) -> Result<String, AllocError> {
    let term = term_of(heap, terms, row.from, row.count)?;
    let target = Variable(row.target);
    match Tag::try_from(row.tag) {
        Ok(Tag::Assert) => format!(in heap; "assert {term}"),
        Ok(Tag::Assume) => format!(in heap; "assume {term}"),
        Ok(Tag::Assign) => format!(in heap; "{target} := {term}"),
        Ok(Tag::Skip) => format!(in heap; "skip"),
        Ok(Tag::Raise) => format!(in heap; "raise"),
        _ => format!(in heap; "?"),
    }
}

// Prints the command that ends at row `at`.
fn print_command(
    rt: &HostRuntime,
    commands: &[CommandRow],
    terms: &[TermRow],
    at: usize,
    depth: usize,
) -> anyhow::Result<()> {
    let Some(row) = commands.get(at) else {
        return Ok(());
    };
    let left = row.left as usize;
    let deeper = depth.saturating_add(1);
    let (before, between, inner) = match Tag::try_from(row.tag) {
        Ok(Tag::Join(Joint::Sequence)) if left < at => ("", "", depth),
        Ok(Tag::Join(Joint::Choice)) if left < at => ("either", "or", deeper),
        Ok(Tag::Join(Joint::Catch)) if left < at => ("try", "handle", deeper),
        _ => {
            let line = single_text(rt.alloc(), terms, *row)?;
            return print_line(rt, depth, line.as_str());
        }
    };
    print_line(rt, depth, before)?;
    print_command(rt, commands, terms, left, inner)?;
    print_line(rt, depth, between)?;
    print_command(rt, commands, terms, at - 1, inner)
}

pub fn print_routine(
    rt: &HostRuntime,
    commands: &[CommandRow],
    terms: &[TermRow],
) -> anyhow::Result<()> {
    match commands.len().checked_sub(1) {
        Some(last) => print_command(rt, commands, terms, last, 1),
        None => Ok(()),
    }
}

// Row `at` of a passive form.
fn passive_row_text(
    heap: Global,
    terms: &[PassiveTermRow],
    at: usize,
    row: PassiveRow,
) -> Result<String, AllocError> {
    let term = term_of(heap, terms, row.from, row.count)?;
    let PassiveRow { f, left, .. } = row;
    let right = at.saturating_sub(1);
    match PassiveTag::try_from(row.tag) {
        Ok(PassiveTag::Assert) => format!(in heap; "assert {term}"),
        Ok(PassiveTag::Assume) => format!(in heap; "assume {term}"),
        Ok(PassiveTag::Skip) => format!(in heap; "skip"),
        Ok(PassiveTag::Raise) => format!(in heap; "raise"),
        Ok(PassiveTag::Join(Joint::Sequence)) => {
            format!(in heap; "sequence of {left} and {right}")
        }
        Ok(PassiveTag::Join(Joint::Choice)) => format!(in heap; "choice of {left} and {right}"),
        Ok(PassiveTag::Join(Joint::Catch)) => {
            format!(in heap; "catch by {right} of what {left} raises")
        }
        Ok(PassiveTag::Let) => format!(in heap; "let {f} = {term}"),
        Ok(PassiveTag::Stop) => format!(in heap; "stop"),
        Err(_) => format!(in heap; "?"),
    }
}

// Prints the rows of a passive form, each with its number.
pub fn print_passive_form(
    rt: &HostRuntime,
    rows: &[PassiveRow],
    terms: &[PassiveTermRow],
) -> anyhow::Result<()> {
    for (at, row) in rows.iter().enumerate() {
        let line = passive_row_text(rt.alloc(), terms, at, *row)?;
        println!(rt; "{at:>4}  {line}")?;
    }
    Ok(())
}

// How deep a formula is written out.
const TOP: u32 = 3;

// What a node is called: after the row of which it says whether it may end normally, raised or wrong, and otherwise by its number.
#[derive(Clone, Copy)]
pub enum Label {
    Normal(usize),
    Raised(usize),
    Wrong(usize),
    Numbered(u32),
}

impl fmt::Display for Label {
    fn fmt<W: fmt::Write>(&self, f: &mut fmt::Formatter<W>) -> fmt::Result {
        match self {
            Label::Normal(at) => write!(f, "N{at}"),
            Label::Raised(at) => write!(f, "X{at}"),
            Label::Wrong(at) => write!(f, "W{at}"),
            Label::Numbered(number) => write!(f, "#{number}"),
        }
    }
}

// What a node is called by the first row that has it.
fn label_of(rows: &[PassiveRow], node: Node) -> Label
    ensures { result ≡ label_from 0 rows.now node }
{
    for (at, row) in rows.iter().enumerate() {
        if row.n == node {
            return Label::Normal(at);
        }
        if row.x == node {
            return Label::Raised(at);
        }
        if row.w == node {
            return Label::Wrong(at);
        }
    }
    Label::Numbered(node.0)
}

// A row of the table store, with the formulas of its operands.
fn made_text(heap: Global, row: NodeRow, p: &str, q: &str) -> Result<String, AllocError> {
    let sign = operator(row.operation);
    match row.tag {
        3 => format!(in heap; "({p} {sign} {q})"),
        4 => format!(in heap; "({p} is {q})"),
        5 => format!(in heap; "not {p}"),
        6 => format!(in heap; "({p} and {q})"),
        _ => format!(in heap; "({p} or {q})"),
    }
}

// The formula of a node. Below the top a node of a row is only named, and so is any node at depth 0.
fn node_text(
    heap: Global,
    store: &TableStore<Number>,
    rows: &[PassiveRow],
    node: Node,
    depth: u32,
) -> Result<String, AllocError> {
    let Ok(row) = store.row(node) else {
        return match node {
            Node(0) => format!(in heap; "no"),
            _ => format!(in heap; "yes"),
        };
    };
    let number = row.first;
    match row.tag {
        1 => return format!(in heap; "{number}"),
        2 => return format!(in heap; "n{number}"),
        _ => (),
    }
    let name = label_of(rows, node);
    if depth == 0 || depth < TOP && !matches!(name, Label::Numbered(_)) {
        return format!(in heap; "{name}");
    }
    let p = node_text(heap, store, rows, Node(row.first), depth - 1)?;
    let q = node_text(heap, store, rows, Node(row.second), depth - 1)?;
    made_text(heap, row, p.as_str(), q.as_str())
}

pub fn print_node<L: fmt::Display + Drop>(
    rt: &HostRuntime,
    store: &TableStore<Number>,
    rows: &[PassiveRow],
    what: L,
    node: Node,
) -> anyhow::Result<()> {
    let formula = node_text(rt.alloc(), store, rows, node, TOP)?;
    println!(rt; "{what}: {node} = {formula}")?;
    Ok(())
}

// Prints the nodes of rows 0 and 3 and of the last row.
pub fn print_row_nodes(
    rt: &HostRuntime,
    store: &TableStore<Number>,
    rows: &[PassiveRow],
) -> anyhow::Result<()> {
    let last = rows.len().saturating_sub(1);
    for (at, row) in rows.iter().enumerate() {
        if at == 0 || at == 3 || at == last {
            print_node(rt, store, rows, Label::Normal(at), row.n)?;
            print_node(rt, store, rows, Label::Raised(at), row.x)?;
            print_node(rt, store, rows, Label::Wrong(at), row.w)?;
        }
    }
    Ok(())
}

// The routines that an entry made by this request speaks of.
#[derive(Clone, Copy)]
pub struct Routines<'a>(pub Request<'a>);

impl fmt::Display for Routines<'_> {
    fn fmt<W: fmt::Write>(&self, f: &mut fmt::Formatter<W>) -> fmt::Result {
        match self.0 {
            Request::File(commands, _) => write!(f, "the routine of {} rows", commands.len()),
            Request::Join(j, k) => write!(f, "the routines of entries {j} and {k}"),
            Request::Strike(_) | Request::Read(_) => write!(f, "no routine"),
        }
    }
}
