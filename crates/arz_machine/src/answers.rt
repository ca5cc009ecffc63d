// What the machine asks, and what it is told.
ghost use Rattle.std.specs.Prelude.{◌≡◌, ◌+◌, ◌↔◌, false, true, List, [], ◌∷◌, ◌++◌, Some, Err, IfOk, OnOk, OnErr, IsErrOf};
ghost use Rattle.arz_flow.specs.declared.bundle.Bundle.{Bundle};
ghost use Rattle.arz_flow.specs.declared.answers.Answer.{Answer};
ghost use Rattle.arz_flow.specs.Verdicts.{Patterned, asks_patterns};
ghost use Rattle.arz_path.specs.Results.{Asked};
ghost use Rattle.arz_rx.specs.Patterns.{Rose};
ghost use Rattle.arz_flow.specs.Valid.{IsValid};
ghost use Rattle.arz_flow.specs.Executions.{end as end_over, IsTold};
ghost use Rattle.arz_machine.specs.At.{standing, At, Tells, rest_told};
ghost use Rattle.arz_machine.specs.Plain.{has_plain_outputs};
ghost use Rattle.arz_machine.specs.Rests.{takes};
ghost use Rattle.arz_machine.specs.States.{is_sending};

use crate::machine::{Machine, MachineFault, Next};
use crate::run::Run;
use crate::state::State;
use arz_cond::CondFault;
use arz_flow::{Answer, Ask, Bundle, End};
use arz_rx::Patterns;
use arz_world::Reply;
use std::alloc::{AllocError, Global};

impl<'a> Machine<'a> {
    /// A machine that was told no answer.
    pub fn start(alloc: Global, bundle: &'a Bundle) -> Result<Machine<'a>, AllocError>
        requires { IsValid bundle.now }
        ensures { IfOk result (λ m. (told : Patterned) → At told (standing m) bundle.now []) }
    {
        let run = Run::begin(alloc, bundle)?;
        let state = run.enter(0)?;
        Ok(Machine {
            run,
            step: 0,
            state,
        })
    }

    /// The ask that is next over the answers so far, or the end of the execution, which is never for
    /// want of an answer.
    pub fn next(&self) -> Next<'_>
        ensures rest { rest_told result ≡ (standing self.now).rest }
        ensures tells { (told : Patterned) (b : Bundle) (r : List Answer) → At told (standing self.now) b r → IsTold told b r → Tells result (end_over told b r) }
    {
        match &self.state {
            State::Sends(ready) => Next::Send(&ready.request),
            State::Ended(end) => Next::Ended(end),
        }
    }

    /// The number of the ask that is next, counted from 1.
    pub fn number(&self) -> u32
        ensures { result ≡ (standing self.now).step + 1 }
    {
        self.step as u32 + 1
    }

    /// Takes the answer to the ask that is next. `rx` searches for the patterns of criteria; `Pattern` comes
    /// only where the count of patterns too big has risen. After a refusal the machine is as before.
    pub fn answer<P: Patterns>(&mut self, answer: Answer, rx: &mut P) -> Result<(), MachineFault>
        ensures taken { OnOk result ((b : Bundle) (r : List Answer) → At (P.patterns rx.old).told (standing self.old) b r
            → At (P.patterns rx.old).told (standing self.new) b (r ++ answer ∷ [])) }
        ensures wrong_kind { (told : Patterned) (b : Bundle) (r : List Answer) → At told (standing self.old) b r → IsTold told b r
            → (result ≡ Err MachineFault.WrongKind) ↔ (takes (end_over told b r) answer ≡ false) }
        ensures pattern { IsErrOf result MachineFault.Pattern → Rose (P.patterns rx.old).too_big (P.patterns rx.new).too_big }
        ensures asks { IsErrOf result MachineFault.Pattern → asks_patterns (standing self.old).bundle ≡ true }
        ensures refused { OnErr result (standing self.new ≡ standing self.old) }
        ensures asked { Asked (P.patterns rx.old) (P.patterns rx.new) }
    {
        match answer {
            Answer::Reply(reply) => self.tell(&reply, rx),
            Answer::Served => Err(MachineFault::WrongKind),
        }
    }

    /// Takes the reply to the request that is to be sent. `rx` searches for the patterns of criteria; `Pattern`
    /// comes only where the count of patterns too big has risen. After a refusal the machine is as before.
    pub fn tell<P: Patterns>(&mut self, reply: &Reply, rx: &mut P) -> Result<(), MachineFault>
        ensures taken { OnOk result ((b : Bundle) (r : List Answer) → At (P.patterns rx.old).told (standing self.old) b r
            → At (P.patterns rx.old).told (standing self.new) b (r ++ Answer.Reply reply.now ∷ [])) }
        ensures wrong_kind { (result ≡ Err MachineFault.WrongKind) ↔ (is_sending (standing self.old).rest ≡ false) }
        ensures pattern { IsErrOf result MachineFault.Pattern → Rose (P.patterns rx.old).too_big (P.patterns rx.new).too_big }
        ensures asks { IsErrOf result MachineFault.Pattern → asks_patterns (standing self.old).bundle ≡ true }
        ensures refused { OnErr result (standing self.new ≡ standing self.old) }
        ensures asked { Asked (P.patterns rx.old) (P.patterns rx.new) }
    {
        let State::Sends(ready) = &self.state else {
            return Err(MachineFault::WrongKind);
        };
        let state = match self.run.verdict(self.step, ready, reply, rx) {
            Ok(succeeded) => {
                let fact = self.run.fact(self.step, ready, reply)?;
                self.run.go_on(fact, self.step, succeeded)?
            }
            Err(CondFault::TooWide) => self.run.too_wide(self.step)?,
            Err(CondFault::Pattern) => return Err(MachineFault::Pattern),
            Err(CondFault::Memory) => return Err(MachineFault::Memory),
        };
        self.step += 1;
        self.state = state;
        Ok(())
    }

    /// The end of the execution over the answers so far: `Out` where it lacks one. No outputs hold a
    /// number with a fraction.
    pub fn into_end(self) -> End
        ensures end { (told : Patterned) (b : Bundle) (r : List Answer) → At told (standing self.entry) b r → IsTold told b r → end_over told b r ≡ Some result }
        ensures plain { has_plain_outputs result ≡ true }
    {
        let Machine { run, step, state } = self;
        match state {
            State::Sends(ready) => End::Out(Ask::Send(ready.request)),
            State::Ended(end) => end,
        }
    }
}
