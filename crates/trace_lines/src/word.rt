//! The words of lines.
ghost use Rattle.std.specs.Prelude.{◌≡◌, map};
ghost use Rattle.schedule_model.specs.Records as records;
ghost use Rattle.trace_lines.specs.Lines as spec;
ghost use Rattle.trace_lines.specs.Words.{named};

/// What a line tells of, by its first word.
#[derive(Clone, Copy, Debug, PartialEq, Eq)]
pub enum Head {
    Event,
    Sent,
    Commit,
    Answer,
    Client,
    Lead,
    Members,
    Refused,
    Saved,
    Taken,
    Halt,
    Log,
    Rollbacks,
    End,
    Stopped,
}

/// What a committed entry holds.
#[derive(Clone, Copy, Debug, PartialEq, Eq)]
pub enum Content {
    Noop,
    Ask,
    Members,
}

/// What came of a request.
#[derive(Clone, Copy, Debug, PartialEq, Eq)]
pub enum Outcome {
    Done,
    Stale,
    Full,
}

/// The first words, those of many lines first.
const HEADS: [(&'static str, Head); 15] = [
    ("event", Head::Event),
    ("sent", Head::Sent),
    ("commit", Head::Commit),
    ("answer", Head::Answer),
    ("client", Head::Client),
    ("lead", Head::Lead),
    ("members", Head::Members),
    ("refused", Head::Refused),
    ("saved", Head::Saved),
    ("taken", Head::Taken),
    ("halt", Head::Halt),
    ("log", Head::Log),
    ("rollbacks", Head::Rollbacks),
    ("end", Head::End),
    ("stopped", Head::Stopped),
];

const CONTENTS: [(&'static str, Content); 3] = [
    ("noop", Content::Noop),
    ("ask", Content::Ask),
    ("members", Content::Members),
];

const OUTCOMES: [(&'static str, Outcome); 3] = [
    ("done", Outcome::Done),
    ("stale", Outcome::Stale),
    ("full", Outcome::Full),
];

const BOUNDS: [(&'static str, bool); 2] = [("within", true), ("exceeded", false)];

/// What a text means in a list of words with their meanings.
fn meaning<T: Copy>(text: &[u8], words: &[(&'static str, T)]) -> Option<T>
    ensures { result ≡ records.meaning text.now (map named words.now) }
{
    for (name, meaning) in words {
        if text == name.as_bytes() {
            return Some(*meaning);
        }
    }
    None
}

pub fn head_of(text: &[u8]) -> Option<Head>
    ensures { result ≡ records.meaning text.now spec.head_words }
{
    meaning(text, &HEADS)
}

pub fn content_of(text: &[u8]) -> Option<Content>
    ensures { result ≡ records.meaning text.now spec.content_words }
{
    meaning(text, &CONTENTS)
}

pub fn outcome_of(text: &[u8]) -> Option<Outcome>
    ensures { result ≡ records.meaning text.now spec.outcome_words }
{
    meaning(text, &OUTCOMES)
}

/// Whether the rollbacks were within the bound.
pub fn bound_of(text: &[u8]) -> Option<bool>
    ensures { result ≡ records.meaning text.now spec.bound_words }
{
    meaning(text, &BOUNDS)
}
