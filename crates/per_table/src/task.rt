//! What the program does with each line.

/// What the program does with each line.
#[derive(Clone, Copy, Debug, PartialEq, Eq)]
pub enum Task {
    /// Octets are read, and written as the canonical ones.
    Recode,
    /// Octets are read, and shown as JSON.
    Show,
    /// JSON is read, and written as the canonical octets.
    Make,
}

impl Task {
    /// The task of a word.
    pub fn of_word(word: &str) -> Option<Task> {
        match word {
            "recode" => Some(Task::Recode),
            "show" => Some(Task::Show),
            "make" => Some(Task::Make),
            _ => None,
        }
    }
}
