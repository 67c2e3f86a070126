//! The words of a row.
use std::alloc::{AllocError, Global};

/// Returns the words of a text, which blanks separate. What is in double quotes is one word, with its blanks, if any.
pub fn words_of(alloc: Global, text: &str) -> Result<Vec<String>, AllocError> {
    let mut words = Vec::new(alloc);
    let mut quoted = false;
    for part in text.split('"') {
        if quoted {
            words.push(String::from_str(alloc, part)?)?;
        } else {
            push_words(alloc, &mut words, part)?;
        }
        quoted = !quoted;
    }
    Ok(words)
}

/// Puts the words of a text after others.
fn push_words(alloc: Global, words: &mut Vec<String>, text: &str) -> Result<(), AllocError> {
    for word in text.split_whitespace() {
        words.push(String::from_str(alloc, word)?)?;
    }
    Ok(())
}
