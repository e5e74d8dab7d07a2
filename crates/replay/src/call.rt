// The calls of a script.
ghost use Rattle.std.specs.Prelude.{◌≡◌, ◌≤◌, length, IfSome, IfOk};
ghost use Rattle.replay.specs.Scripts.{room, room_at, Slash, Loads, Translates, Surveys, Plays, Saves, News, Named, Says, LineSays};

use crate::hex::bytes_of;
use hosts::known::KnownKind;
use hosts::numbers::numbers_of;
use std::alloc::{AllocError, Global};
use std::str::from_utf8;

// As long as any buffer has to be.
pub const AMPLE: usize = 65_536;

// A call on a job. A number of `counts`, `cells` or `room` is the length of a buffer that is lent.
#[derive(Drop)]
pub enum Call {
    Load(Vec<u8>),
    Translate(u32),
    Survey(u32),
    Play {
        numbers: Vec<u8>,
        counts: usize,
        cells: usize,
    },
    Save {
        room: usize,
    },
}

// A line of a script: a new job, or a call on the one that is open.
#[derive(Drop)]
pub enum Line {
    New(KnownKind),
    Call(Call),
}

// The length of a buffer. None has to be longer than `AMPLE`.
fn room_of(word: &str) -> Option<usize>
    ensures { IfSome result (λ n. n ≡ room word.now) }
{
    let n = word.parse::<usize>().ok()?;
    Some(n.min(AMPLE))
}

// The index of the first `/`, or the number of words where there is none.
fn slash_in(words: &[&str]) -> usize
    ensures within { result ≤ length words.now }
    ensures found { Slash words.now result }
{
    words
        .iter()
        .position(|word| *word == "/")
        .unwrap_or(words.len())
}

// The lengths of the two buffers of a play, from the `/` on.
fn rooms_of(words: &[&str]) -> Option<(usize, usize)>
    ensures { IfSome result (λ p. (p.0 ≡ room_at words.now 1) × (p.1 ≡ room_at words.now 2)) }
{
    match words {
        [] => Some((AMPLE, AMPLE)),
        ["/", counts, cells] => Some((room_of(counts)?, room_of(cells)?)),
        _ => None,
    }
}

impl Call {
    fn load(heap: Global, words: &[&str]) -> Result<Option<Call>, AllocError>
        ensures { IfOk result (λ o. IfSome o (Loads words.now)) }
    {
        match words {
            [] => Ok(Some(Call::Load(Vec::new(heap)))),
            [hex] => Ok(bytes_of(heap, hex)?.map(Call::Load)),
            _ => Ok(None),
        }
    }

    fn translate(words: &[&str]) -> Option<Call>
        ensures { IfSome result (Translates words.now) }
    {
        match words {
            [rounds] => Some(Call::Translate(rounds.parse().ok()?)),
            _ => None,
        }
    }

    fn survey(words: &[&str]) -> Option<Call>
        ensures { IfSome result (Surveys words.now) }
    {
        match words {
            [b] => Some(Call::Survey(b.parse().ok()?)),
            _ => None,
        }
    }

    fn save(words: &[&str]) -> Option<Call>
        ensures { IfSome result (Saves words.now) }
    {
        match words {
            [] => Some(Call::Save { room: AMPLE }),
            ["/", room] => Some(Call::Save {
                room: room_of(room)?,
            }),
            _ => None,
        }
    }

    fn play(heap: Global, words: &[&str]) -> Result<Option<Call>, AllocError>
        ensures { IfOk result (λ o. IfSome o (Plays words.now)) }
    {
        let slash = slash_in(words);
        let Some(numbers) = numbers_of(heap, &words[0..slash])? else {
            return Ok(None);
        };
        let Some((counts, cells)) = rooms_of(&words[slash..]) else {
            return Ok(None);
        };
        Ok(Some(Call::Play {
            numbers,
            counts,
            cells,
        }))
    }
}

impl Line {
    fn new(words: &[&str]) -> Option<Line>
        ensures { IfSome result (News words.now) }
    {
        match words {
            ["words"] => Some(Line::New(KnownKind::Words)),
            ["truth"] => Some(Line::New(KnownKind::Truth)),
            _ => None,
        }
    }

    // What a name and the words behind it say, or none where they are no call.
    fn named(heap: Global, name: &str, words: &[&str]) -> Result<Option<Line>, AllocError>
        ensures { IfOk result (λ o. IfSome o (Named name.now words.now)) }
    {
        match name {
            "new" => Ok(Line::new(words)),
            "load" => Ok(Call::load(heap, words)?.map(Line::Call)),
            "translate" => Ok(Call::translate(words).map(Line::Call)),
            "survey" => Ok(Call::survey(words).map(Line::Call)),
            "play" => Ok(Call::play(heap, words)?.map(Line::Call)),
            "save" => Ok(Call::save(words).map(Line::Call)),
            _ => Ok(None),
        }
    }

    fn from_words(heap: Global, words: &[&str]) -> Result<Option<Line>, AllocError>
        ensures { IfOk result (λ o. IfSome o (Says words.now)) }
    {
        match words {
            [name, rest @ ..] => Line::named(heap, name, rest),
            [] => Ok(None),
        }
    }

    fn from_text(heap: Global, text: &str) -> Result<Option<Line>, AllocError>
        ensures { IfOk result (λ o. IfSome o (LineSays text.now)) }
    {
        // A number has no sign, and `parse` would take this one.
        if text.contains('+') {
            return Ok(None);
        }
        let words: Vec<&str> = text.split(' ').collect(heap)?;
        Line::from_words(heap, words.as_slice())
    }

    // What a line of a script says, or none where it is no call. A call is plain text.
    pub fn from_bytes(heap: Global, bytes: &[u8]) -> Result<Option<Line>, AllocError>
        ensures { IfOk result (λ o. IfSome o (LineSays bytes.now)) }
    {
        match from_utf8(bytes) {
            Ok(text) => Line::from_text(heap, text),
            Err(_) => Ok(None),
        }
    }
}
