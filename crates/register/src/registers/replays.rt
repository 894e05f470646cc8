// A register that answers a list of requests.
ghost use Rattle.std.specs.Prelude.{◌≡◌, ℕ, [], ◌∷◌, length, drop};
ghost use Rattle.register.specs.Answers.{Answered};
ghost use Rattle.register.specs.Histories.{new_held, origins, History};
ghost use Rattle.register.specs.Promise.{Promise, GoesOn};
ghost use Rattle.register.specs.Views.{held, request_of, exchange, exchanges};

use crate::entries::{Answer, Request};
use crate::registers::Register;
use formula::stores::Store;
use kinds::refusals::Refusal;
use passive::rows::{PassiveRow, PassiveTermRow};

impl<S: Store> Register<S> {
    // Makes the call that a request asks for.
    fn perform(
        &mut self,
        request: Request<'_>,
        rows: &mut [PassiveRow],
        terms: &mut [PassiveTermRow],
    ) -> Result<Answer, Refusal>
        ensures { Answered S.Value.kind S.meaning S.steps (held self.old rows.old terms.old) (request_of request.entry) result (held self.new rows.new terms.new) }
    {
        match request {
            Request::File(commands, items) => {
                self.file(commands, items, rows, terms).map(Answer::Filed)
            }
            Request::Join(j, k) => self.join(j, k).map(Answer::Joined),
            Request::Strike(j) => self.strike(j).map(|()| Answer::Marked),
            Request::Read(j) => self.read(j).map(Answer::Shown),
        }
    }

    // Answers one request: whatever was asked before, the promise goes on.
    pub fn answer(
        &mut self,
        request: Request<'_>,
        rows: &mut [PassiveRow],
        terms: &mut [PassiveTermRow],
    ) -> Result<Answer, Refusal>
        ensures answered { Answered S.Value.kind S.meaning S.steps (held self.old rows.old terms.old) (request_of request.entry) result (held self.new rows.new terms.new) }
        ensures promise { GoesOn S.Value.kind S.meaning S.steps (held self.old rows.old terms.old) (exchange (request.entry) result ∷ []) (held self.new rows.new terms.new) }
    {
        self.perform(request, rows, terms)
    }

    // Answers the requests in turn, as many as there are places for answers.
    pub fn answer_all(
        &mut self,
        requests: &[Request<'_>],
        rows: &mut [PassiveRow],
        terms: &mut [PassiveTermRow],
        answers: &mut [Result<Answer, Refusal>],
    )
        ensures history { History S.Value.kind S.meaning S.steps (held self.old rows.old terms.old) (exchanges requests.now answers.new) (held self.new rows.new terms.new) }
        ensures promise { GoesOn S.Value.kind S.meaning S.steps (held self.old rows.old terms.old) (exchanges requests.now answers.new) (held self.new rows.new terms.new) }
        ensures rest { drop (length requests.now) answers.new ≡ drop (length requests.now) answers.old }
    {
        let count = requests.len().min(answers.len());
        for (i, request) in requests[..count].iter().enumerate() {
            answers[i] = self.perform(*request, rows, terms);
        }
    }
}

// A new register, after it answered the requests in turn, as many as there are places for answers.
pub fn replay<S: Store>(
    store: S,
    v: u32,
    requests: &[Request<'_>],
    rows: &mut [PassiveRow],
    terms: &mut [PassiveTermRow],
    answers: &mut [Result<Answer, Refusal>],
) -> Register<S>
    ensures history { History S.Value.kind S.meaning S.steps (new_held v store rows.old terms.old) (exchanges requests.now answers.new) (held result rows.new terms.new) }
    ensures promise { Promise S.Value.kind S.meaning v (held result rows.new terms.new) (origins v S.Value.kind.ops (exchanges requests.now answers.new)) }
    ensures rest { drop (length requests.now) answers.new ≡ drop (length requests.now) answers.old }
{
    let mut register = Register::new(store, v);
    register.answer_all(requests, rows, terms, answers);
    register
}
