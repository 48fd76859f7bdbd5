//! In which form answers are written.

/// How the answers of a lookup are written.
#[derive(Clone, Copy, Debug, Drop)]
pub struct AnswerForm {
    /// As objects of JSON, in place of lines of text.
    pub json: bool,
    /// With the counts of the listings after the answers.
    pub counts: bool,
}
