// The calls of a register: file, join, strike and read.
ghost use Rattle.std.specs.Prelude.{◌≡◌, List};
ghost use Rattle.register.specs.declared.entries.Answer.TheVariants.{Filed, Joined, Shown};
ghost use Rattle.register.specs.Held.{entry_at, join_tests, unless_refused};
ghost use Rattle.register.specs.Answers.{file_request, join_request, strike_request, read_request, Answered};
ghost use Rattle.register.specs.Histories.{new_held};
ghost use Rattle.register.specs.Views.{held, AnsweredAlone, answer_by, marking};

use crate::entries::{Entry, Filing, Joining, Reading};
use crate::registers::{Entries, Register};
use conditions::calls::{Condition, forecast, make_condition};
use formula::stores::Store;
use kinds::refusals::Refusal;
use passive::rows::{PassiveRow, PassiveTermRow};
use routine::rows::{CommandRow, TermRow};

impl<S> Register<S> {
    // The store with the nodes of all entries: it is looked at, and changed by the register alone.
    pub fn store(&self) -> &S
        ensures { result.now ≡ self.now.store }
    {
        &self.store
    }

    // A register with no entries.
    pub fn new(store: S, v: u32) -> Register<S>
        ensures { (E : List PassiveRow) (T : List PassiveTermRow) → held result E T ≡ new_held v store E T }
    {
        Register {
            v,
            store,
            entries: Entries::new(),
        }
    }
}

impl<S: Store> Register<S> {
    // Two entries that can be joined, or why they cannot, as far as the register can tell.
    fn pair(&self, j: u32, k: u32) -> Result<(Entry, Entry), Refusal>
        ensures { let es = self.now.entries in result ≡ unless_refused (join_tests S.meaning self.now.store es j k None) (entry_at es j, entry_at es k) }
    {
        let all = self.entries.in_use();
        let (Some(left), Some(right)) = (all.get(j as usize), all.get(k as usize)) else {
            return Err(Refusal::NotInUse);
        };
        if left.struck || right.struck {
            return Err(Refusal::Struck);
        }
        if self.store.count() >= self.store.capacity() {
            return Err(Refusal::Places);
        }
        if self.entries.is_full() {
            return Err(Refusal::Entries);
        }
        Ok((*left, *right))
    }

    // Files the condition of a routine. Its passive form, with the nodes of each row, stands at the front of the two tables afterwards.
    // That all entries are taken is said only of a routine that nothing else refuses.
    pub fn file(
        &mut self,
        commands: &[CommandRow],
        terms: &[TermRow],
        rows: &mut [PassiveRow],
        out: &mut [PassiveTermRow],
    ) -> Result<Filing, Refusal>
        ensures { Answered S.Value.kind S.meaning S.steps (held self.old rows.old out.old) (file_request commands.now terms.now) (answer_by Filed result) (held self.new rows.new out.new) }
    {
        if self.entries.is_full() {
            forecast(&self.store, self.v, commands, terms, rows.len(), out.len())?;
            return Err(Refusal::Entries);
        }
        let Condition {
            node,
            names,
            rows,
            terms,
            rise,
        } = make_condition(&mut self.store, self.v, commands, terms, rows, out)?;
        let entry = self.entries.push(Entry {
            node,
            names,
            rise,
            struck: false,
        });
        Ok(Filing {
            entry,
            node,
            names,
            rows,
            terms,
            rise,
        })
    }

    // Makes the entry whose condition is true where both of two are.
    pub fn join(&mut self, j: u32, k: u32) -> Result<Joining, Refusal>
        ensures { AnsweredAlone S.Value.kind S.meaning S.steps self.old (join_request j k) (answer_by Joined result) self.new }
    {
        let (left, right) = self.pair(j, k)?;
        let before = self.store.count();
        let node = self.store.and(left.node, right.node)?;
        let rise = self.store.count() - before;
        let entry = self.entries.push(Entry {
            node,
            names: left.names.max(right.names),
            rise,
            struck: false,
        });
        Ok(Joining { entry, node })
    }

    // Strikes an entry: no later call but the register's own history knows it.
    pub fn strike(&mut self, j: u32) -> Result<(), Refusal>
        ensures { AnsweredAlone S.Value.kind S.meaning S.steps self.old (strike_request j) (answer_by marking result) self.new }
    {
        self.entries.entry(j)?;
        self.entries.mark(j);
        Ok(())
    }

    // The node, names and rise of an entry.
    pub fn read(&self, j: u32) -> Result<Reading, Refusal>
        ensures { AnsweredAlone S.Value.kind S.meaning S.steps self.now (read_request j) (answer_by Shown result) self.now }
    {
        let Entry {
            node,
            names,
            rise,
            ..
        } = self.entries.entry(j)?;
        Ok(Reading { node, names, rise })
    }
}
