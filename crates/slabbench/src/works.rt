//! The words of works.

/// The words of the first work, and those of the later ones, where the word `then` stands between them.
pub fn first_work(words: &[String]) -> (&[String], Option<&[String]>) {
    for (i, word) in words.iter().enumerate() {
        if word.as_str() == "then" {
            return (&words[..i], Some(&words[i + 1..]));
        }
    }
    (words, None)
}

/// How often: 1 where the word is no number.
pub fn times_of(word: &str) -> u16 {
    word.parse().ok().unwrap_or(1)
}

/// A limit of loss or of new slabs: none where the word is no number, as `-`.
pub fn limit_of(word: &str) -> Option<i32> {
    word.parse().ok()
}
