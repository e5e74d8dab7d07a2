// The numbers that words spell.
ghost use Rattle.std.specs.Prelude.{◌≡◌, map, IfSome, IfOk};
ghost use Rattle.hosts.specs.Numerals.{numeral};

use std::alloc::{AllocError, Global};
use std::convert::AsStr;

// The numbers of a schedule, or none where a word is no number.
pub fn numbers_of<S: AsStr>(heap: Global, words: &[S]) -> Result<Option<Vec<u8>>, AllocError>
    ensures { IfOk result (λ o. IfSome o (λ v. v.items ≡ map (λ w. numeral (S.text w)) words.now)) }
{
    let mut numbers = Vec::new(heap);
    for word in words {
        let Ok(n) = word.as_str().parse::<u8>() else {
            return Ok(None);
        };
        numbers.push(n)?;
    }
    Ok(Some(numbers))
}
