// The words of a line.
ghost use Rattle.std.specs.Prelude.{◌≡◌, IfOk};
ghost use Rattle.schedule_text.specs.Words.{texts, words_of};

use std::alloc::{AllocError, Global};

// The words of a line, which one or more spaces separate, in the place of those that stood there. They are found by their
// places: parts between spaces would be one for each further space, and cost half as much again on long runs of them.
pub fn read_words<'a>(words: &mut Vec<&'a [u8]>, line: &'a [u8]) -> Result<(), AllocError>
    ensures { IfOk result (λ _. texts words.new.items ≡ words_of line.now) }
{
    words.clear();
    let mut start = 0;
    for (i, c) in line.iter().enumerate() {
        if *c == b' ' {
            if start < i {
                words.push(&line[start..i])?;
            }
            start = i + 1;
        }
    }
    if start < line.len() {
        words.push(&line[start..])?;
    }
    Ok(())
}

// The words of one line, in a list of its own.
pub fn words<'a>(heap: Global, line: &'a [u8]) -> Result<Vec<&'a [u8]>, AllocError>
    ensures { IfOk result (λ v. texts v.items ≡ words_of line.now) }
{
    let mut words = Vec::new(heap);
    read_words(&mut words, line)?;
    Ok(words)
}
