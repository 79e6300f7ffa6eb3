//! The word that a misspelt one may mean.

use std::alloc::Global;
use strsim::osa_distance;

/// The most letters that are put in, left out, changed or swapped: one in this many of the word's.
const LETTERS_FOR_AN_EDIT: usize = 3;

/// The first of the words that are nearest to a text, if one is near; `None` too when out of
/// memory.
pub fn nearest(alloc: Global, words: &[&'static str], text: &str) -> Option<&'static str> {
    let letters = text.chars().count();
    let mut found = None;
    let mut fewest = usize::MAX;
    for word in words {
        let most = word.len() / LETTERS_FOR_AN_EDIT;
        // A text of another length is not near, however long it takes to compare it.
        if letters.abs_diff(word.len()) > most {
            continue;
        }
        let Ok(edits) = osa_distance(alloc, text, word) else {
            return None;
        };
        if edits < fewest && edits <= most {
            fewest = edits;
            found = Some(*word);
        }
    }
    found
}
