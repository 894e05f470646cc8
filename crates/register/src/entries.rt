// What a register holds, what it is asked and what it answers.
ghost use Rattle.std.specs.Prelude.{Some};
ghost use Rattle.register.specs.Printed.{request_text, filing_text, joining_text, reading_text, answer_text};

use kinds::numbered::Node;
use routine::rows::{CommandRow, TermRow};
use std::fmt;

// A condition: its node, how many names it speaks of, how far the store's count rose in its making, and whether it is struck.
#[derive(Clone, Copy, Debug, PartialEq, Eq)]
pub struct Entry {
    pub node: Node,
    pub names: u32,
    pub rise: u32,
    pub struck: bool,
}

impl Entry {
    // An entry that is yet to be made.
    pub const BLANK: Entry = Entry {
        node: Node(0),
        names: 0,
        rise: 0,
        struck: false,
    };
}

// A request: a routine to file, two entries to join, an entry to strike or to read.
#[derive(Clone, Copy)]
pub enum Request<'a> {
    File(&'a [CommandRow], &'a [TermRow]),
    Join(u32, u32),
    Strike(u32),
    Read(u32),
}

// What filing a routine answers.
#[derive(Clone, Copy, Debug, PartialEq, Eq)]
pub struct Filing {
    pub entry: u32,
    pub node: Node,
    pub names: u32,
    pub rows: u32,
    pub terms: u32,
    pub rise: u32,
}

// What joining two entries answers.
#[derive(Clone, Copy, Debug, PartialEq, Eq)]
pub struct Joining {
    pub entry: u32,
    pub node: Node,
}

// What reading an entry answers.
#[derive(Clone, Copy, Debug, PartialEq, Eq)]
pub struct Reading {
    pub node: Node,
    pub names: u32,
    pub rise: u32,
}

// What a request that is not refused answers.
#[derive(Clone, Copy, Debug, PartialEq, Eq)]
pub enum Answer {
    Filed(Filing),
    Joined(Joining),
    Marked,
    Shown(Reading),
}

impl fmt::Display for Request<'_> {
    ghost output = { λ x. Some (request_text x) };

    fn fmt<W: fmt::Write>(&self, f: &mut fmt::Formatter<W>) -> fmt::Result {
        match self {
            Request::File(commands, _) => {
                write!(f, "file the routine of {} rows", commands.len())
            }
            Request::Join(j, k) => write!(f, "join {j} and {k}"),
            Request::Strike(j) => write!(f, "strike {j}"),
            Request::Read(j) => write!(f, "read {j}"),
        }
    }
}

impl fmt::Display for Filing {
    ghost output = { λ x. Some (filing_text x) };

    fn fmt<W: fmt::Write>(&self, f: &mut fmt::Formatter<W>) -> fmt::Result {
        let Filing {
            entry,
            node,
            names,
            rows,
            terms,
            rise,
        } = self;
        write!(f, "entry {entry}, {node}, {names} names, ")?;
        write!(f, "{rows} rows, {terms} term rows, nodes made: {rise}")
    }
}

impl fmt::Display for Joining {
    ghost output = { λ x. Some (joining_text x) };

    fn fmt<W: fmt::Write>(&self, f: &mut fmt::Formatter<W>) -> fmt::Result {
        let Joining { entry, node } = self;
        write!(f, "entry {entry}, {node}")
    }
}

impl fmt::Display for Reading {
    ghost output = { λ x. Some (reading_text x) };

    fn fmt<W: fmt::Write>(&self, f: &mut fmt::Formatter<W>) -> fmt::Result {
        let Reading { node, names, rise } = self;
        write!(f, "{node}, {names} names, nodes made: {rise}")
    }
}

impl fmt::Display for Answer {
    ghost output = { λ x. Some (answer_text x) };

    fn fmt<W: fmt::Write>(&self, f: &mut fmt::Formatter<W>) -> fmt::Result {
        match self {
            Answer::Filed(filing) => write!(f, "{filing}"),
            Answer::Joined(joining) => write!(f, "{joining}"),
            Answer::Marked => write!(f, "struck"),
            Answer::Shown(reading) => write!(f, "{reading}"),
        }
    }
}
