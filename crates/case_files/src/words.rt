// The first words of lines.

/// What a line of a case file says, by its first word.
#[derive(Clone, Copy)]
pub enum Word {
    /// Nothing: a remark.
    Remark,
    /// What a name stands for.
    Let,
    /// The title of a scenario.
    Title,
    /// The words of a command line, and a file that it finds.
    Command,
    File,
    /// How the scenario is run.
    Moment,
    Words,
    Pieces,
    Fail,
    Fronts,
    /// A request by its caller, method and path, and more of its headers.
    Request,
    Header,
    /// Bytes that are sent.
    SentBytes,
    /// A reply by its status, and that it closes the connection.
    Reply,
    Close,
    /// Bytes that are answered.
    AnsweredBytes,
    /// A fact of the request that the reply above answers, by its name.
    OfRequest(&'static str),
    /// A fact of the whole run, by its name.
    OfRun(&'static str),
}

const WORDS: [(&str, Word); 25] = [
    ("#", Word::Remark),
    ("let", Word::Let),
    ("==", Word::Title),
    ("command", Word::Command),
    ("file", Word::File),
    ("moment", Word::Moment),
    ("words", Word::Words),
    ("pieces", Word::Pieces),
    ("fail", Word::Fail),
    ("fronts", Word::Fronts),
    (">", Word::Request),
    ("header", Word::Header),
    (">>", Word::SentBytes),
    ("<", Word::Reply),
    ("close", Word::Close),
    ("<<", Word::AnsweredBytes),
    ("asks", Word::OfRequest("asks")),
    ("draws", Word::OfRequest("draws")),
    ("end", Word::OfRun("end")),
    ("made", Word::OfRun("made")),
    ("left", Word::OfRun("left")),
    ("status", Word::OfRun("status")),
    ("stderr", Word::OfRun("stderr")),
    ("written", Word::OfRun("written")),
    ("answered", Word::OfRun("answered")),
];

/// What a line with this first word says.
pub fn word_named(name: &str) -> Option<Word> {
    for (spelled, word) in &WORDS {
        if *spelled == name {
            return Some(*word);
        }
    }
    None
}
