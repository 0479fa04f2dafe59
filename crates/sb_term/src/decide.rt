ghost use Rattle.std.specs.Prelude.{◌≡◌, None};

use crate::answer::Answer;
use crate::fault::DecideFault;
use crate::query::Query;
use std::alloc::Global;

/// Whoever answers queries. `stop` is the fault of a certificate that it has answered, `gives` and `after` what it
/// answers to a query by what it holds, and what it holds then.
pub trait Decide {
    ghost use Rattle.std.specs.Prelude.{Option};
    ghost use Rattle.sb_term.specs.declared.query.Query.{Query as QueryValue};
    ghost use Rattle.sb_term.specs.declared.answer.Answer.{Answer as AnswerValue};
    ghost use Rattle.sb_term.specs.declared.fault.DecideFault.{DecideFault as FaultValue};
    ghost use Rattle.sb_term.specs.Answers.{IsLawful};
    ghost use Rattle.sb_term.specs.Asks.{IsDecided};

    ghost stop: { Self → Option FaultValue };

    ghost gives: { Self → QueryValue → AnswerValue };

    ghost after: { Self → QueryValue → Self };

    fn decide(&mut self, alloc: Global, query: &Query) -> Result<Answer, DecideFault>
        requires { stop self.old ≡ None }
        ensures { IsDecided stop gives after self.old query.now self.new result };

    ghost lawful: { (s : Self) (q : QueryValue) → IsLawful q (gives s q) };
}
