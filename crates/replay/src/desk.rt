// The session that is open.
ghost use Rattle.std.specs.Prelude.{◌≡◌, IfOk};
ghost use Rattle.replay.specs.declared.call.Call.TheVariants.{Survey};
ghost use Rattle.replay.specs.declared.call.Line.TheVariants.{Call as a_call};
ghost use Rattle.replay.specs.Desks.{Open, Holds, made_new, line_reply, line_next, opened, opened_new, LineAnswers, opened_next};
ghost use Rattle.replay.specs.Replies.{said};

use crate::answer::Answer;
use crate::call::{Call, Line};
use crate::reply::{reply, surveyed};
use hosts::known::KnownKind;
use jobs::session::Session;
use kinds::{Truth, Words};
use std::alloc::{AllocError, Global};

// Sessions, and no jobs: no call of a script looks at the sequential program, which takes many times as long to make.
#[derive(Drop)]
pub enum Desk {
    Nothing,
    Words(Session<Words>),
    Truth(Session<Truth>),
}

impl Desk {
    // A new session of a kind.
    fn open(heap: Global, kind: KnownKind) -> Result<Desk, AllocError>
        ensures opened { IfOk result (λ d. opened d ≡ opened_new kind) }
        ensures holds { IfOk result (λ d. Holds d (made_new kind)) }
    {
        match kind {
            KnownKind::Words => Ok(Desk::Words(Session::new(heap)?)),
            KnownKind::Truth => Ok(Desk::Truth(Session::new(heap)?)),
        }
    }

    // Goes on with the survey of the session that is open.
    pub fn survey(&mut self, b: u32) -> Answer
        ensures stays { opened self.new ≡ opened self.old }
        ensures goes { (o : Open) → Holds self.old o → (said result ≡ line_reply o (a_call (Survey b))) × Holds self.new (line_next o (a_call (Survey b))) }
    {
        match self {
            Desk::Nothing => Answer::Unreadable,
            Desk::Words(session) => surveyed(session, b),
            Desk::Truth(session) => surveyed(session, b),
        }
    }

    // Answers a line. A call before any new session is unreadable.
    pub fn reply(&mut self, heap: Global, line: &Line) -> Result<Answer, AllocError>
        ensures answer { IfOk result (λ a. LineAnswers (opened self.old) line.now (said a) × (opened self.new ≡ opened_next (opened self.old) line.now)) }
        ensures model { (o : Open) → Holds self.old o → IfOk result (λ a. (said a ≡ line_reply o line.now) × Holds self.new (line_next o line.now)) }
    {
        match line {
            Line::New(kind) => {
                *self = Desk::open(heap, *kind)?;
                Ok(Answer::New)
            }
            Line::Call(Call::Survey(b)) => Ok(self.survey(*b)),
            Line::Call(call) => match self {
                Desk::Nothing => Ok(Answer::Unreadable),
                Desk::Words(session) => reply(session, heap, call),
                Desk::Truth(session) => reply(session, heap, call),
            },
        }
    }
}
