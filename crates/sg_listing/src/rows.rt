// Tables of words: a row has words with blanks between them, a bar, and what is told of them.

use sg_parse_base::same_keyword;

/// Whether one of these words, which have blanks between them, is the one that was written.
pub fn has_word(words: &[u8], written: &[u8]) -> bool {
    for word in words.split(|byte| *byte == b' ') {
        if same_keyword(written, word) {
            return true;
        }
    }
    false
}

// What a row tells of the word, where it is one of it.
fn row_tells<'a>(row: &'a [u8], written: &[u8]) -> Option<&'a [u8]> {
    let bar = row.iter().position(|byte| *byte == b'|')?;
    let words = row.get(..bar)?;
    if !has_word(words, written) {
        return None;
    }
    row.get(bar.saturating_add(1)..)
}

/// What the first row with the word tells of it. The rows have LF between them.
pub fn told_of<'a>(table: &'a [u8], written: &[u8]) -> Option<&'a [u8]> {
    for row in table.split(|byte| *byte == b'\n') {
        if let Some(told) = row_tells(row, written) {
            return Some(told);
        }
    }
    None
}
