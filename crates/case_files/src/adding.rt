// What lines add to a scenario.
use crate::fault::LineFault;
use crate::numbers::number_in;
use crate::quoting::read_quoted;
use crate::requests::new_request;
use crate::rows::{Answered, Expected, Reply, Scenario, Sent};
use crate::settings::{failing_in, pieces_in};
use crate::words::Word;
use std::alloc::Global;

/// What the next piece of a body, or of bytes, belongs to.
#[derive(Clone, Copy, PartialEq, Eq)]
pub enum Open {
    Nothing,
    Request,
    Reply,
    SentBytes,
    AnsweredBytes,
}

/// What is open behind a line of the word.
pub fn opened_by(word: Word, before: Open) -> Open {
    match word {
        Word::Request => Open::Request,
        Word::Reply => Open::Reply,
        Word::SentBytes => Open::SentBytes,
        Word::AnsweredBytes => Open::AnsweredBytes,
        Word::Header | Word::Close => before,
        _ => Open::Nothing,
    }
}

impl Scenario {
    /// Adds a piece to the body of the request or the reply above.
    pub fn add_body(&mut self, open: Open, piece: &str) -> Result<(), LineFault> {
        match (open, self.sent.last_mut(), self.replies.last_mut()) {
            (Open::Request, Some(Sent::Request { body, .. }), _) => Ok(body.push_str(piece)?),
            (Open::Reply, _, Some(reply)) => add_to_reply(reply, piece),
            _ => Err(LineFault::Wrong("no request or reply right above")),
        }
    }

    /// Adds what a line says.
    pub fn add_line(
        &mut self,
        alloc: Global,
        open: Open,
        word: Word,
        rest: &str,
    ) -> Result<(), LineFault> {
        match word {
            Word::Request => self.sent.push(new_request(alloc, rest)?)?,
            Word::Reply => self.replies.push(new_reply(alloc, rest)?)?,
            Word::SentBytes => self.add_sent(open, read_quoted(alloc, rest)?)?,
            Word::AnsweredBytes => {
                let bytes = read_quoted(alloc, rest)?;
                self.add_answered(alloc, open, bytes)?;
            }
            Word::Header => self.add_header(open, rest)?,
            Word::Close => self.close_reply(open, rest)?,
            Word::OfRequest(name) => {
                let text = String::from_str(alloc, rest)?;
                add_fact(&mut self.last_reply()?.facts, name, text)?;
            }
            Word::OfRun(name) => {
                add_fact(&mut self.facts, name, String::from_str(alloc, rest)?)?;
            }
            word => self.add_setting(alloc, word, rest)?,
        }
        Ok(())
    }

    fn add_setting(&mut self, alloc: Global, word: Word, rest: &str) -> Result<(), LineFault> {
        match word {
            Word::Moment => self.settings.moment = number_in(rest)?,
            Word::Words => self.settings.first_word = number_in(rest)?,
            Word::Pieces => self.settings.pieces = pieces_in(alloc, rest)?,
            Word::Fail => self.settings.failing = Some(failing_in(rest)?),
            Word::Fronts if rest.is_empty() => self.settings.fronts = true,
            Word::Command => self.command = Some(String::from_str(alloc, rest)?),
            Word::File => self.add_file(alloc, rest)?,
            _ => return Err(LineFault::Wrong("no such word in a scenario")),
        }
        Ok(())
    }

    // Adds a file by `NAME "TEXT"`.
    fn add_file(&mut self, alloc: Global, line: &str) -> Result<(), LineFault> {
        let Some((name, text)) = line.split_once(' ') else {
            return Err(LineFault::Wrong("no text behind the name of a file"));
        };
        let name = String::from_str(alloc, name)?;
        self.files.push((name, read_quoted(alloc, text)?))?;
        Ok(())
    }

    fn add_sent(&mut self, open: Open, piece: Vec<u8>) -> Result<(), LineFault> {
        match self.sent.last_mut() {
            Some(Sent::Bytes(bytes)) if open == Open::SentBytes => {
                bytes.extend_from_slice(&piece)?;
            }
            _ => self.sent.push(Sent::Bytes(piece))?,
        }
        Ok(())
    }

    fn add_answered(&mut self, alloc: Global, open: Open, piece: Vec<u8>) -> Result<(), LineFault> {
        match self.replies.last_mut() {
            Some(
                Reply {
                    answered: Answered::Bytes(bytes),
                    ..
                },
            ) if open == Open::AnsweredBytes => bytes.extend_from_slice(&piece)?,
            _ => {
                let reply = Reply::new(alloc, Answered::Bytes(piece));
                self.replies.push(reply)?;
            }
        }
        Ok(())
    }

    fn add_header(&mut self, open: Open, line: &str) -> Result<(), LineFault> {
        match (open, self.sent.last_mut()) {
            (Open::Request, Some(sent)) => push_header(sent, line),
            _ => Err(LineFault::Wrong("no head of a request right above")),
        }
    }

    fn close_reply(&mut self, open: Open, rest: &str) -> Result<(), LineFault> {
        match self.replies.last_mut() {
            Some(
                Reply {
                    answered: Answered::Reply { closes, .. },
                    ..
                },
            ) if open == Open::Reply && rest.is_empty() => {
                *closes = true;
                Ok(())
            }
            _ => Err(LineFault::Wrong("no reply right above")),
        }
    }

    fn last_reply(&mut self) -> Result<&mut Reply, LineFault> {
        self.replies
            .last_mut()
            .ok_or(LineFault::Wrong("no reply above"))
    }
}

fn new_reply(alloc: Global, status: &str) -> Result<Reply, LineFault> {
    if status.is_empty() {
        return Err(LineFault::Wrong("no status of a reply"));
    }
    let answered = Answered::Reply {
        status: String::from_str(alloc, status)?,
        closes: false,
        body: String::new(alloc),
    };
    Ok(Reply::new(alloc, answered))
}

fn push_header(sent: &mut Sent, line: &str) -> Result<(), LineFault> {
    match sent {
        Sent::Request { head, body } => {
            if !body.is_empty() {
                return Err(LineFault::Wrong("a header behind a body"));
            }
            head.push_str(line)?;
            head.push_str("\r\n")?;
            Ok(())
        }
        Sent::Bytes(_) => Err(LineFault::Wrong("no head of a request right above")),
    }
}

fn add_to_reply(reply: &mut Reply, piece: &str) -> Result<(), LineFault> {
    match reply {
        Reply {
            answered: Answered::Reply { body, .. },
            ..
        } => Ok(body.push_str(piece)?),
        _ => Err(LineFault::Wrong("no reply right above")),
    }
}

fn add_fact(facts: &mut Vec<Expected>, name: &'static str, text: String) -> Result<(), LineFault> {
    for (said, _) in facts.iter() {
        if *said == name {
            return Err(LineFault::Wrong("said twice"));
        }
    }
    facts.push((name, text))?;
    Ok(())
}
