// The rows of a routine, raw as callers pass them, and what they say.
ghost use Rattle.std.specs.Prelude.{◌≡◌, Some};
ghost use Rattle.routine.specs.Rows.{tag_of, joint_of, tells_term, item, joint_name};
ghost use Rattle.routine.specs.Standing.{joint_tag};

use kinds::numbered::Variable;
use kinds::refusals::Refusal;
use std::fmt;

// A row of a postfix term. Tags: 1 literal, 2 variable, 3 operation.
#[derive(Clone, Copy, Debug, PartialEq, Eq)]
pub struct TermRow {
    pub tag: u32,
    pub number: u16,
}

// A row of a routine. Tags: 1 assert, 2 assume, 3 assign, 4 skip, 5 raise, 6 sequence, 7 choice, 8 catch.
// The term of tags 1 to 3 is the `count` term rows from row `from` on; tag 3 assigns it to `target`. The left part of tags 6 to 8 ends at
// row `left`, the right part at the row before. Fields that a tag does not use are not read.
#[derive(Clone, Copy, Debug, PartialEq, Eq)]
pub struct CommandRow {
    pub tag: u32,
    pub target: u32,
    pub from: u32,
    pub count: u32,
    pub left: u32,
}

// One item of a postfix term: R is what it may refer to, a variable here and a name in the passive form.
#[derive(Clone, Copy, Debug, PartialEq, Eq)]
pub enum Item<R> {
    Literal(u16),
    Reference(R),
    Operation(u16),
}

// What joins two commands.
#[derive(Clone, Copy, Debug, PartialEq, Eq)]
pub enum Joint {
    Sequence,
    Choice,
    Catch,
}

// The tag of a row that joins.
impl From<Joint> for u32 {
    ghost from_gives = { λ joint number. number ≡ joint_tag joint };

    fn from(joint: Joint) -> u32 {
        match joint {
            Joint::Sequence => 6,
            Joint::Choice => 7,
            Joint::Catch => 8,
        }
    }
}

impl fmt::Display for Joint {
    ghost output = { λ joint. Some (joint_name joint) };

    fn fmt<W: fmt::Write>(&self, f: &mut fmt::Formatter<W>) -> fmt::Result {
        f.write_str(match self {
            Joint::Sequence => "sequence",
            Joint::Choice => "choice",
            Joint::Catch => "catch",
        })
    }
}

// What a command row is.
#[derive(Clone, Copy, Debug, PartialEq, Eq)]
pub enum Tag {
    Assert,
    Assume,
    Assign,
    Skip,
    Raise,
    Join(Joint),
}

impl TryFrom<u32> for Tag {
    type Error = Refusal;

    ghost try_from_gives = { λ number r. r ≡ tag_of number };

    fn try_from(number: u32) -> Result<Tag, Refusal> {
        match number {
            1 => Ok(Tag::Assert),
            2 => Ok(Tag::Assume),
            3 => Ok(Tag::Assign),
            4 => Ok(Tag::Skip),
            5 => Ok(Tag::Raise),
            6 => Ok(Tag::Join(Joint::Sequence)),
            7 => Ok(Tag::Join(Joint::Choice)),
            8 => Ok(Tag::Join(Joint::Catch)),
            _ => Err(Refusal::Tag),
        }
    }
}

impl CommandRow {
    // How the row joins the two commands before it, if it does.
    pub fn joint(self) -> Option<Joint>
        ensures { result ≡ joint_of (tag_of self.tag) }
    {
        match Tag::try_from(self.tag) {
            Ok(Tag::Join(joint)) => Some(joint),
            _ => None,
        }
    }

    // Whether a term belongs to the row.
    pub fn has_term(self) -> bool
        ensures { result ≡ tells_term (tag_of self.tag) }
    {
        matches!(
            Tag::try_from(self.tag),
            Ok(Tag::Assert | Tag::Assume | Tag::Assign)
        )
    }
}

// What a row says in a term that is well formed: tags other than 1 and 2 are 3.
impl From<TermRow> for Item<Variable> {
    ghost from_gives = { λ row i. i ≡ item row };

    fn from(row: TermRow) -> Item<Variable> {
        match row.tag {
            1 => Item::Literal(row.number),
            2 => Item::Reference(Variable(u32::from(row.number))),
            _ => Item::Operation(row.number),
        }
    }
}
