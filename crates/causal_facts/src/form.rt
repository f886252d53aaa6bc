//! How an answer is printed.

/// How an answer is printed.
#[derive(Clone, Copy)]
pub enum Form {
    /// As lines: a word, fields ` name=value`, and a sentence for people.
    Lines,
    /// As one JSON object, with the fields as members.
    Json,
}
