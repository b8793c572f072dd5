//! The words of a line, from the left.

ghost use Rattle.std.specs.Prelude.{◌≡◌, ◌≤◌, ◌==◌, ◌+◌, [], ◌∷◌, length, IfOk, MatchOption, MatchResult};
ghost use Rattle.std.specs.List.{slice_split};
ghost use Rattle.request_text.specs.Words.{number_of, payload_of};
ghost use Rattle.request_text.specs.Scripts.{line_most, label_most, named_most, placed, next, entry_of, request_names, done, Placed};
ghost use Rattle.request_text.specs.Ahead.{Ahead, column_at};
ghost use Rattle.request_text.specs.Reading.{Gives};
ghost use Rattle.request_text.specs.declared.request.Request.{Request};
ghost use Rattle.request_text.specs.declared.request_name.RequestName.{RequestName};

use crate::last_payload::LastPayload;
use crate::refusal::LineRefusal;
use crate::request_name::{RequestName, request_name};
use crate::word::{cut, number};
use graph_model::Payload;
use std::marker::Model;

/// The greatest vertex number and the greatest destination.
const NAMED_MOST: u64 = 9_223_372_036_854_775_807;
/// The greatest label.
const LABEL_MOST: u64 = 65_535;

/// The words of a line that are still to be read.
#[derive(Drop)]
pub struct Words<'a> {
    /// The column after the line's last byte.
    end: u32,
    /// The bytes from the next word on; none where no word is left.
    rest: Option<&'a [u8]>,
}

impl<'a> Model for Words<'a> {
    ghost use Rattle.request_text.specs.Ahead.{Ahead, words_at, LiesBefore};

    ghost Value = { Ahead };

    ghost view = { λ a. record { end = a.end; words = words_at a.end a.rest } };

    ghost invariant = { λ a. LiesBefore a.end a.rest };
}

impl<'a> Words<'a> {
    /// The words of a line.
    pub fn new(line: &'a [u8]) -> Words<'a>
        requires { length line.now ≤ line_most }
        ensures end { result.end ≡ length line.now + 1 }
        ensures words { result.words ≡ placed 1 (slice_split (λ b. b == 32) line.now) }
    {
        Words {
            end: line.len() as u32 + 1,
            rest: Some(line),
        }
    }

    /// The column of the next word, or of the line's end where no word is left.
    fn column(&self) -> u32
        ensures { result ≡ column_at self.now.end self.now.words }
    {
        match self.rest {
            Some(rest) => self.end - rest.len() as u32,
            None => self.end,
        }
    }

    /// Takes the next word; none where no word is left.
    fn next(&mut self) -> Option<&'a [u8]>
        ensures words { MatchOption result ((self.old.words ≡ []) × (self.new.words ≡ []))
            (λ word. self.old.words
            ≡ record { column = column_at self.old.end self.old.words; bytes = word.now } ∷ self.new.words) }
        ensures end { self.new.end ≡ self.old.end }
    {
        let rest = self.rest?;
        let (word, after) = cut(rest, b' ');
        self.rest = after;
        Some(word)
    }

    /// Takes the next word, a number of at most `most`.
    pub fn number(&mut self, most: u64) -> Result<u64, LineRefusal>
        ensures number { Gives (λ n. (n, self.new.words)) result
            (next (number_of most) self.old.end self.old.words) }
        ensures within { IfOk result (λ n. n ≤ most) }
        ensures end { self.new.end ≡ self.old.end }
    {
        let refusal = LineRefusal::Column(self.column());
        let Some(word) = self.next() else {
            return Err(refusal);
        };
        number(word, most).ok_or(refusal)
    }

    /// Takes the next word, a payload.
    pub fn payload(&mut self, last: &mut LastPayload<'a>) -> Result<Payload, LineRefusal>
        ensures payload { Gives (λ p. (p, self.new.words)) result
            (next payload_of self.old.end self.old.words) }
        ensures end { self.new.end ≡ self.old.end }
    {
        let refusal = LineRefusal::Column(self.column());
        let Some(word) = self.next() else {
            return Err(refusal);
        };
        last.payload(word)?.ok_or(refusal)
    }

    /// Takes the next word, the name of a request.
    pub fn name(&mut self) -> Result<RequestName, LineRefusal>
        ensures name { Gives (λ name. (name, self.new.words)) result
            (next (entry_of request_names) self.old.end self.old.words) }
        ensures end { self.new.end ≡ self.old.end }
    {
        let refusal = LineRefusal::Column(self.column());
        let Some(word) = self.next() else {
            return Err(refusal);
        };
        request_name(word).ok_or(refusal)
    }

    /// Takes a vertex number or a destination.
    pub fn vertex(&mut self) -> Result<u64, LineRefusal>
        ensures number { Gives (λ n. (n, self.new.words)) result
            (next (number_of named_most) self.old.end self.old.words) }
        ensures end { self.new.end ≡ self.old.end }
    {
        self.number(NAMED_MOST)
    }

    /// Takes a label.
    pub fn label(&mut self) -> Result<u16, LineRefusal>
        ensures number { Gives (λ n. (n, self.new.words)) result
            (next (number_of label_most) self.old.end self.old.words) }
        ensures end { self.new.end ≡ self.old.end }
    {
        let label = self.number(LABEL_MOST)?;
        Ok(label as u16)
    }

    /// Whether no word is left; one too many is bad.
    pub fn done(&self) -> Result<(), LineRefusal>
        ensures { (request : Request) → Gives (λ _. request) result (done request self.now.words) }
    {
        match self.rest {
            Some(_) => Err(LineRefusal::Column(self.column())),
            None => Ok(()),
        }
    }
}
