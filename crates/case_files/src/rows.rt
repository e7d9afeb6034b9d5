// Rows: scenarios, with what is sent and what is to come back, and single calls.
use crate::settings::Settings;
use std::alloc::{AllocError, Global};

/// A row, and the line of its file that begins it.
#[derive(Drop)]
pub enum Row {
    Scenario(Scenario),
    Call(Call),
}

/// A single call: a text, and what the call is to make of it.
#[derive(Drop)]
pub struct Call {
    pub line: u64,
    pub name: String,
    pub text: String,
    pub expected: String,
}

/// What is sent.
#[derive(Drop)]
pub enum Sent {
    /// A request: its line and headers, and its body. The length of a body is added.
    Request { head: String, body: String },
    Bytes(Vec<u8>),
}

/// What a reply is to be.
#[derive(Drop)]
pub enum Answered {
    /// A reply with this status and phrase, and this body. The other lines are added.
    Reply {
        status: String,
        closes: bool,
        body: String,
    },
    Bytes(Vec<u8>),
}

/// A fact that a row expects: its name, and the text that is to be told of it.
pub type Expected = (&'static str, String);

/// A reply, and what is to be told of the request that it answers.
#[derive(Drop)]
pub struct Reply {
    pub answered: Answered,
    pub facts: Vec<Expected>,
}

impl Reply {
    pub fn new(alloc: Global, answered: Answered) -> Self {
        Reply {
            answered,
            facts: Vec::new(alloc),
        }
    }
}

/// A connection or a run of a command: what is sent, what is to come back, and what is to hold in
/// the end.
#[derive(Drop)]
pub struct Scenario {
    pub line: u64,
    pub title: String,
    /// The words of the command line, where a command is run.
    pub command: Option<String>,
    pub files: Vec<(String, Vec<u8>)>,
    pub settings: Settings,
    pub sent: Vec<Sent>,
    pub replies: Vec<Reply>,
    pub facts: Vec<Expected>,
}

impl Scenario {
    pub fn new(alloc: Global, line: u64, title: &str) -> Result<Self, AllocError> {
        Ok(Scenario {
            line,
            title: String::from_str(alloc, title)?,
            command: None,
            files: Vec::new(alloc),
            settings: Settings::new(alloc),
            sent: Vec::new(alloc),
            replies: Vec::new(alloc),
            facts: Vec::new(alloc),
        })
    }

    /// The bytes that are sent.
    pub fn sent_bytes(&self, alloc: Global) -> Result<Vec<u8>, AllocError> {
        let mut bytes = Vec::new(alloc);
        for sent in &self.sent {
            push_sent(alloc, &mut bytes, sent)?;
        }
        Ok(bytes)
    }

    /// The bytes of all replies.
    pub fn reply_bytes(&self, alloc: Global) -> Result<Vec<u8>, AllocError> {
        let mut bytes = Vec::new(alloc);
        for reply in &self.replies {
            push_reply(alloc, &mut bytes, &reply.answered)?;
        }
        Ok(bytes)
    }
}

// Appends the line with the length of a body.
fn push_length(alloc: Global, bytes: &mut Vec<u8>, body: &str) -> Result<(), AllocError> {
    let length = body.len().to_string(alloc)?;
    bytes.extend_from_slice(b"content-length: ")?;
    bytes.extend_from_slice(length.as_bytes())?;
    bytes.extend_from_slice(b"\r\n")?;
    Ok(())
}

fn push_sent(alloc: Global, bytes: &mut Vec<u8>, sent: &Sent) -> Result<(), AllocError> {
    match sent {
        Sent::Bytes(piece) => bytes.extend_from_slice(piece),
        Sent::Request { head, body } => {
            bytes.extend_from_slice(head.as_bytes())?;
            if !body.is_empty() {
                push_length(alloc, bytes, body.as_str())?;
            }
            bytes.extend_from_slice(b"\r\n")?;
            bytes.extend_from_slice(body.as_bytes())
        }
    }
}

fn push_reply(alloc: Global, bytes: &mut Vec<u8>, answered: &Answered) -> Result<(), AllocError> {
    match answered {
        Answered::Bytes(piece) => bytes.extend_from_slice(piece),
        Answered::Reply {
            status,
            closes,
            body,
        } => {
            bytes.extend_from_slice(b"HTTP/1.1 ")?;
            bytes.extend_from_slice(status.as_bytes())?;
            bytes.extend_from_slice(b"\r\ncontent-type: application/json\r\n")?;
            push_length(alloc, bytes, body.as_str())?;
            if *closes {
                bytes.extend_from_slice(b"connection: close\r\n")?;
            }
            bytes.extend_from_slice(b"\r\n")?;
            bytes.extend_from_slice(body.as_bytes())
        }
    }
}
