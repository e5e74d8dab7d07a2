// What a session answers to a call.
ghost use Rattle.std.specs.Prelude.{◌≡◌, IfOk};
ghost use Rattle.jobs.specs.Keeps.{KeepsSession};
ghost use Rattle.jobs.specs.Models.{Model, survey_reply, survey as a_survey, next as model_next};
ghost use Rattle.jobs.specs.Sessions.{held};
ghost use Rattle.replay.specs.Replies.{said, survey_said, reply, next, held_play, held_save, Answers, held_next};

use crate::answer::Answer;
use crate::call::Call;
use jobs::session::Session;
use kinds::Kind;
use std::alloc::{AllocError, Global};

// A run over a schedule, with buffers of these lengths.
fn played<V: Kind>(
    session: &Session<V>,
    heap: Global,
    numbers: &[u8],
    count_room: usize,
    cell_room: usize,
) -> Result<Answer, AllocError>
    ensures { IfOk result (λ a. said a ≡ held_play V.meaning (held session.now) numbers.now count_room cell_room) }
{
    let mut counts = vec![in heap; 0; count_room]?;
    let mut cells = vec![in heap; 0; cell_room]?;
    match session.play(numbers, counts.as_mut_slice(), cells.as_mut_slice()) {
        Ok(report) => {
            counts.truncate(report.read as usize);
            cells.truncate(session.cells());
            Ok(Answer::Played {
                report,
                counts,
                cells,
            })
        }
        Err(refusal) => Ok(Answer::Refused(refusal)),
    }
}

// The program's file, with a buffer of this length.
fn saved<V: Kind>(session: &Session<V>, heap: Global, room: usize) -> Result<Answer, AllocError>
    ensures { IfOk result (λ a. said a ≡ held_save V.meaning (held session.now) room) }
{
    let mut file = vec![in heap; 0; room]?;
    match session.save(file.as_mut_slice()) {
        Ok(length) => {
            file.truncate(length);
            Ok(Answer::Saved(file))
        }
        Err(refusal) => Ok(Answer::Refused(refusal)),
    }
}

// The next schedules, or those left. This never wants memory.
pub fn surveyed<V: Kind>(session: &mut Session<V>, b: u32) -> Answer
    ensures stays { held session.new ≡ held session.old }
    ensures goes { (m : Model) → KeepsSession V.meaning session.old m → (said result ≡ survey_said (survey_reply V.meaning m b)) × KeepsSession V.meaning session.new (model_next V.meaning m (a_survey b)) }
{
    match session.survey(b) {
        Ok(counts) => Answer::Surveyed(counts),
        Err(refusal) => Answer::Refused(refusal),
    }
}

// The answer is told by what the session holds, and so is what it holds then, where memory is short too. Of a session that
// keeps a model both are the model's.
pub fn reply<V: Kind>(
    session: &mut Session<V>,
    heap: Global,
    call: &Call,
) -> Result<Answer, AllocError>
    ensures answer { IfOk result (λ a. Answers V.meaning (held session.old) call.now (said a)) }
    ensures after { held session.new ≡ held_next V.meaning (held session.old) call.now }
    ensures model { (m : Model) → KeepsSession V.meaning session.old m → IfOk result (λ a. said a ≡ reply V.meaning m call.now) }
    ensures keeps { (m : Model) → KeepsSession V.meaning session.old m → KeepsSession V.meaning session.new (next V.meaning m call.now) }
{
    match call {
        Call::Load(file) => match session.load(file.as_slice()) {
            Ok(()) => Ok(Answer::Loaded),
            Err(e) => Ok(Answer::RefusedFile(e)),
        },
        Call::Translate(rounds) => match session.translate(*rounds) {
            Ok(()) => Ok(Answer::Translated),
            Err(refusal) => Ok(Answer::Refused(refusal)),
        },
        Call::Survey(b) => Ok(surveyed(session, *b)),
        Call::Play {
            numbers,
            counts,
            cells,
        } => played(session, heap, numbers.as_slice(), *counts, *cells),
        Call::Save { room } => saved(session, heap, *room),
    }
}
