ghost use Rattle.std.specs.Prelude.{◌≡◌, ◌↔◌, ◌∷◌, [], ℕ, IsTrue, map, decimal, string_bytes, IfSome, IfNone};
ghost use Rattle.aol_program.specs.Words.{IsWorkers};

use aol_allocate::MAX_WORKERS;
use itoa::Buffer;

/// What the words of a call ask for.
#[derive(Clone, Copy, Debug, PartialEq, Eq)]
pub enum Command {
    /// Whether the model is accepted, and how many instances and levels it has.
    Check,
    /// The document itself, as its canonical text.
    Print,
    /// The outputs of the model, by so many workers.
    Run(u32),
    /// The document with the model that its transformations make, and none left.
    Transform,
    /// Which of so many workers runs each instance.
    Place(u32),
    /// A program of the named subset of C, run in one order.
    Exec,
}

/// Whether the word is this text.
fn is_text(word: &String, text: &str) -> bool
    ensures { IsTrue result ↔ (string_bytes word.now ≡ text.now) }
{
    word.as_str() == text
}

/// Whether the words are these texts.
fn are_texts(words: &[String], texts: &[&str]) -> bool
    ensures { IsTrue result ↔ (map string_bytes words.now ≡ map (λ t. t.now) texts.now) }
{
    match (words.split_first(), texts.split_first()) {
        (None, None) => true,
        (Some((word, words)), Some((text, texts))) => is_text(word, text)
            && are_texts(words, texts),
        _ => false,
    }
}

/// Whether the words are this name and this number.
fn are_numbered(words: &[String], name: &str, number: u32) -> bool
    ensures { IsTrue result ↔ (map string_bytes words.now ≡ name.now ∷ decimal number ∷ []) }
{
    let mut digits = Buffer::new();
    are_texts(words, &[name, digits.format(number)])
}

/// The number of workers in these words, where they are this name and such a number.
fn workers_after(words: &[String], name: &str) -> Option<u32>
    ensures words { IfSome result (λ n. map string_bytes words.now ≡ name.now ∷ decimal n ∷ []) }
    ensures workers { IfSome result (λ n. IsWorkers n) }
    ensures none { IfNone result ((n : ℕ) → IsWorkers n → map string_bytes words.now ≡ name.now ∷ decimal n ∷ [] → ⊥) }
{
    for before in 0..MAX_WORKERS {
        if are_numbered(words, name, before + 1) {
            return Some(before + 1);
        }
    }
    None
}

impl Command {
    ghost use Rattle.aol_program.specs.Words.{Means, IsNoCommand};

    /// The command that these words name; none where they name none.
    pub fn of_words(words: &[String]) -> Option<Command>
        ensures command { IfSome result (Means (map string_bytes words.now)) }
        ensures none { IfNone result (IsNoCommand (map string_bytes words.now)) }
    {
        if are_texts(words, &["check"]) {
            return Some(Command::Check);
        }
        if are_texts(words, &["print"]) {
            return Some(Command::Print);
        }
        if are_texts(words, &["transform"]) {
            return Some(Command::Transform);
        }
        if are_texts(words, &["exec"]) {
            return Some(Command::Exec);
        }
        if let Some(workers) = workers_after(words, "run") {
            return Some(Command::Run(workers));
        }
        let workers = workers_after(words, "place")?;
        Some(Command::Place(workers))
    }
}
