// Measuring: what the passive form of a command takes, and the maps that it ends with.
ghost use Rattle.std.specs.Prelude.{◌≡◌, ◌≤◌, List, Some, None};
ghost use Rattle.kinds.specs.declared.numbered.Name.{Name};
ghost use Rattle.routine.specs.Limits.{most_variables};
ghost use Rattle.passive.specs.Passive.{passify_single, entry as entry_map};
ghost use Rattle.passive.specs.Outcomes.{joint_nodes as nodes_of_joint};
ghost use Rattle.passify.specs.Measuring.{stop_sizes, guard_size, leaving, joined_sizes, sizes, Fits, AtSingle, SomeSingle, Measurable, Measures};

use crate::maps::{Exits, NameMap, merge};
use kinds::numbered::Name;
use routine::rows::{CommandRow, Joint, Tag, TermRow};

#[derive(Clone, Copy)]
pub struct Measured {
    pub exits: Exits,
    pub next: u32,
    pub rows: u32,
    pub terms: u32,
    pub nodes: u32,
}

// Of a command that control cannot come to.
pub fn measure_stop(next: u32) -> Measured
    ensures { result ≡ stop_sizes next }
{
    Measured {
        exits: Exits {
            normal: None,
            raised: None,
        },
        next,
        rows: 1,
        terms: 0,
        nodes: 0,
    }
}

// Of a single command that ends normally, and of its term.
fn measure_normal(m: NameMap, next: u32, terms: u32, nodes: u32) -> Measured
    ensures { result ≡ record { exits = record { normal = Some m; raised = None }; next = next; rows = 1; terms = terms; nodes = nodes } }
{
    Measured {
        exits: Exits {
            normal: Some(m),
            raised: None,
        },
        terms,
        nodes,
        ..measure_stop(next)
    }
}

pub fn measure_single(row: CommandRow, m: &NameMap, next: u32) -> Measured
    requires { (ts : List TermRow) × SomeSingle ts row (λ c. Fits (sizes (passify_single c m.now next))) }
    ensures { (ts : List TermRow) → AtSingle ts row (λ c. result ≡ sizes (passify_single c m.now next)) }
{
    match Tag::try_from(row.tag) {
        Ok(Tag::Assert) => measure_normal(*m, next, row.count, row.count + 1),
        Ok(Tag::Assume) => measure_normal(*m, next, row.count, row.count),
        Ok(Tag::Assign) => {
            let assigned = m.assigned(row.target, Name(next as u16));
            measure_normal(assigned, next + 1, row.count, row.count + 2)
        }
        Ok(Tag::Skip) => measure_normal(*m, next, 0, 0),
        _ => Measured {
            exits: Exits {
                normal: None,
                raised: Some(*m),
            },
            ..measure_stop(next)
        },
    }
}

// What the right part starts from, where the whole starts from `names`.
pub fn entry<'a>(joint: Joint, names: &'a Option<NameMap>, left: &'a Exits) -> &'a Option<NameMap>
    ensures { (m : List Name) → names.now ≡ Some m → result.now ≡ entry_map joint m left.now.normal left.now.raised }
{
    match joint {
        Joint::Sequence => &left.normal,
        Joint::Choice => names,
        Joint::Catch => &left.raised,
    }
}

// How the left part leaves the whole.
pub fn left_exits(joint: Joint, left: &Exits) -> Exits
    ensures { result ≡ leaving joint left.now }
{
    Exits {
        normal: if joint == Joint::Sequence {
            None
        } else {
            left.normal
        },
        raised: if joint == Joint::Catch {
            None
        } else {
            left.raised
        },
    }
}

fn joint_nodes(joint: Joint) -> u32
    ensures { result ≡ nodes_of_joint joint }
{
    match joint {
        Joint::Sequence | Joint::Catch => 5,
        Joint::Choice => 3,
    }
}

// What guards `renamed` renamings: nothing where there are none; else so much for each, and as much again for the guard.
fn guard_size(renamed: u32, each: u32, guard: u32) -> u32
    requires few { renamed ≤ most_variables }
    requires small { (each ≤ 8) × (guard ≤ 8) }
    ensures { result ≡ guard_size renamed each guard }
{
    if renamed == 0 {
        0
    } else {
        each * renamed + guard
    }
}

pub fn measure_joined(joint: Joint, left: &Measured, right: &Measured) -> Measured
    requires { Fits (joined_sizes joint left.now right.now) }
    ensures { result ≡ joined_sizes joint left.now right.now }
{
    let exits = left_exits(joint, &left.exits);
    let n = merge(exits.normal, right.exits.normal, right.next);
    let x = merge(exits.raised, right.exits.raised, n.next);
    let rows = 2 * (2 * n.renamed + guard_size(x.renamed, 2, 2)) + 1;
    let nodes = 2 * (8 * n.renamed + guard_size(x.renamed, 8, 5)) + joint_nodes(joint);
    Measured {
        exits: Exits {
            normal: n.names,
            raised: x.names,
        },
        next: x.next,
        rows: left.rows + right.rows + rows,
        terms: left.terms + right.terms + 2 * (n.renamed + x.renamed),
        nodes: left.nodes + right.nodes + nodes,
    }
}

// Of the command that ends at row `at`.
pub fn measure_row(commands: &[CommandRow], at: u32, names: &Option<NameMap>, next: u32) -> Measured
    requires { (ts : List TermRow) × Measurable commands.now ts at names.now next }
    ensures { (ts : List TermRow) → Measures commands.now ts at names.now next result }
{
    let Some(m) = names else {
        return measure_stop(next);
    };
    let row = commands[at as usize];
    let Some(joint) = row.joint() else {
        return measure_single(row, m, next);
    };
    let left = &measure_row(commands, row.left, names, next);
    let start = entry(joint, names, &left.exits);
    let right = &measure_row(commands, at - 1, start, left.next);
    measure_joined(joint, left, right)
}
