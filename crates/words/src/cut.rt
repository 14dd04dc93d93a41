// A line cut into words.
ghost use Rattle.std.specs.Prelude.{map, IfOk};
ghost use Rattle.words.specs.Words.{WordsOf};

use std::alloc::{AllocError, Global};

// The words of a line, which blanks separate.
pub fn cut_words<'a>(heap: Global, line: &'a str) -> Result<Vec<&'a str>, AllocError>
    ensures { IfOk result (λ v. WordsOf line.now (map (λ x. x.now) v.items)) }
{
    // A plain loop, and no `collect`: here a wrong word is refused for what it is, there for any change of form.
    let mut words = Vec::new(heap);
    for word in line.split_whitespace() {
        words.push(word)?;
    }
    Ok(words)
}
