// Maps from variables to names, and merging them.
ghost use Rattle.std.specs.Prelude.{◌≡◌, ◌^◌, ◌<◌, ◌≤◌, cond, [], ◌∷◌, ◌++◌, Some, length, nat_le, slice_index_or, slice_set};
ghost use Rattle.routine.specs.Limits.{most_variables};
ghost use Rattle.passive.specs.Passive.{name, names_from, merge};
ghost use Rattle.passify.specs.Merging.{Merges};

use kinds::numbered::{Name, Variable};
use routine::limits::MOST_VARIABLES;
use std::marker::Model;

// The name of each variable.
#[derive(Clone, Copy)]
pub struct NameMap {
    names: [Name; MOST_VARIABLES],
    len: u16,
}

impl Model for NameMap {
    ghost use Rattle.std.specs.Prelude.{List, take, length};
    ghost use Rattle.kinds.specs.declared.numbered.Name.{Name};
    ghost use Rattle.routine.specs.Limits.{most_variables};
    ghost use Rattle.passive.specs.Passive.{name};
    ghost use Rattle.passify.specs.Padding.{padded, Fills};
    ghost use Rattle.passify.specs.PaddingLaws.{unpadded};

    ghost Value = { List Name };

    ghost view = { λ m. take m.len m.names };

    ghost invariant = { λ m. Fills (name 0) most_variables m.names m.len };

    ghost inverse = { λ names. record { names = padded (name 0) most_variables names; len = length names } };

    ghost inverse_ok = { λ m h i. let u = unpadded (name 0) most_variables m.names m.len h in record { names = u.same_items i; len = u.same_len i } };
}

impl NameMap {
    // A map of no variables.
    fn new() -> NameMap
        ensures { result ≡ [] }
    {
        NameMap {
            names: [Name(0); MOST_VARIABLES],
            len: 0,
        }
    }

    // Gives the next variable this name.
    fn push(&mut self, f: Name)
        requires { length self.old < most_variables }
        ensures { self.new ≡ self.old ++ f ∷ [] }
    {
        self.names[self.len as usize] = f;
        self.len += 1;
    }

    // Gives a variable another name.
    fn set(&mut self, x: u32, f: Name)
        requires { x < length self.old }
        ensures { self.new ≡ slice_set self.old x f }
    {
        self.names[x as usize] = f;
    }

    // Variable i starts with name i.
    pub fn first(v: u32) -> NameMap
        requires { v ≤ most_variables }
        ensures { result ≡ names_from 0 v }
    {
        let mut names = NameMap::new();
        for i in 0..v {
            names.push(Name(i as u16));
        }
        names
    }

    // The names of the variables, in order.
    pub fn as_slice(&self) -> &[Name]
        ensures names { result.now ≡ self.now }
        ensures few { length result.now ≤ most_variables }
    {
        &self.names[..self.len as usize]
    }

    // The name of a variable; 0 for one past the last.
    pub fn name_of(&self, x: Variable) -> Name
        ensures { result ≡ slice_index_or self.now x.0 (name 0) }
    {
        match self.as_slice().get(x.0 as usize) {
            Some(f) => *f,
            None => Name(0),
        }
    }

    // The map with another name for a variable; the same where that is past the last.
    pub fn assigned(self, x: u32, f: Name) -> NameMap
        ensures { result ≡ slice_set self x f }
    {
        let mut map = self;
        if (x as usize) < map.as_slice().len() {
            map.set(x, f);
        }
        map
    }
}

// Two maps made one: the next new name, and how many variables each side renames.
#[derive(Clone, Copy)]
pub struct Merging {
    pub names: Option<NameMap>,
    pub next: u32,
    pub renamed: u32,
}

// The one of fewer names; the first, where they have as many.
fn shorter(a: &NameMap, b: &NameMap) -> NameMap
    ensures { result ≡ cond (nat_le (length a.now) (length b.now)) a.now b.now }
{
    if a.as_slice().len() <= b.as_slice().len() {
        *a
    } else {
        *b
    }
}

fn merge_present(a: &NameMap, b: &NameMap, next: u32) -> Merging
    requires { (merge (Some a.now) (Some b.now) next).next ≤ 2 ^ 16 }
    ensures { Merges result (merge (Some a.now) (Some b.now) next) }
{
    // It has the names on which the two agree.
    let mut both = shorter(a, b);
    let (xs, ys) = (a.as_slice(), b.as_slice());
    let mut k = next;
    let mut renamed = 0;
    for (i, x) in xs[..xs.len().min(ys.len())].iter().enumerate() {
        if *x != ys[i] {
            both.set(i as u32, Name(k as u16));
            k += 1;
            renamed += 1;
        }
    }
    Merging {
        names: Some(both),
        next: k,
        renamed,
    }
}

pub fn merge(a: Option<NameMap>, b: Option<NameMap>, next: u32) -> Merging
    requires { (merge a b next).next ≤ 2 ^ 16 }
    ensures { Merges result (merge a b next) }
{
    match (a, b) {
        (Some(x), Some(y)) => merge_present(&x, &y, next),
        _ => Merging {
            names: a.or(b),
            next,
            renamed: 0,
        },
    }
}

// The maps that a command ends with, where it ends normally and where it ends raised: absent where it does not.
#[derive(Clone, Copy)]
pub struct Exits {
    pub normal: Option<NameMap>,
    pub raised: Option<NameMap>,
}
