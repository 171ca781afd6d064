// A run, and how it must end.
use crate::ended::Ended;
use crate::limits::{ENOUGH, Limits};
use crate::lines::has_lines;
use dada_recorder::RecordEnd;
use std::alloc::Global;
use std::test::Fail;

/// A run as a line of a table gives it: its words; the numbers of the calls that fail, and how much room there is, if
/// it is little; the status; the output and the lines on the notes, with `;` for the end of a line; and, of some, how
/// many calls of the inputs were made, how many blocks went through, and how the recorder ended.
#[derive(Clone, Copy)]
pub struct Case {
    pub words: &'static str,
    pub limits: Limits,
    pub status: u8,
    pub text: &'static str,
    pub notes: &'static str,
    pub calls: Option<u64>,
    pub blocks: Option<u64>,
    pub recorded: Option<Option<RecordEnd>>,
}

// How a recorder ended, as `whole 2` or `cut 1` with the number of its files, or as `fault` or `none`.
fn end_of(text: &str) -> Result<Option<RecordEnd>, Fail> {
    let (word, number) = text.split_once(' ').unwrap_or((text, "0"));
    let files = number.parse::<u32>()?;
    match word {
        "whole" => Ok(Some(RecordEnd::Whole { files })),
        "cut" => Ok(Some(RecordEnd::Cut { files })),
        "fault" => Ok(Some(RecordEnd::FileFault)),
        "none" => Ok(None),
        _ => Err("an end of another name".into()),
    }
}

impl Case {
    /// A run with these words, under limits as `set_all` reads them, that ends with this status, output and notes.
    pub fn of(
        words: &'static str,
        limits: &str,
        status: &str,
        text: &'static str,
        notes: &'static str,
    ) -> Result<Case, Fail> {
        let mut case = Case {
            words,
            limits: ENOUGH,
            status: status.parse::<u8>()?,
            text,
            notes,
            calls: None,
            blocks: None,
            recorded: None,
        };
        case.set_all(limits)?;
        Ok(case)
    }

    /// Sets what is named by each word of `input 3, out_room 10, recorder cut 1`.
    pub fn set_all(&mut self, values: &str) -> Result<(), Fail> {
        for named in values.split(',') {
            if let Some((name, value)) = named.trim().split_once(' ') {
                if name == "recorder" {
                    self.recorded = Some(end_of(value)?);
                } else {
                    self.set(name, value.parse::<u32>()?)?;
                }
            }
        }
        Ok(())
    }

    fn set(&mut self, name: &str, number: u32) -> Result<(), Fail> {
        let n = u64::from(number);
        match name {
            "beam" => self.limits.beam = n,
            "input" => self.limits.input = n,
            "file" => self.limits.file = n,
            "out" => self.limits.out = n,
            "note" => self.limits.note = n,
            "files" => self.limits.files = number,
            "file_room" => self.limits.file_room = n,
            "out_room" => self.limits.out_room = n,
            "note_room" => self.limits.note_room = n,
            "calls" => self.calls = Some(n),
            "blocks" => self.blocks = Some(n),
            _ => return Err("a number of another name".into()),
        }
        Ok(())
    }

    /// Whether a run ended so, after this many calls of its inputs.
    pub fn is_met(&self, alloc: Global, ended: &Ended, calls: u64) -> Result<bool, Fail> {
        Ok(
            self.status == ended.status
                && has_lines(alloc, ended.text.as_slice(), self.text)?
                && has_lines(alloc, ended.notes.as_slice(), self.notes)?
                && self.calls.unwrap_or(calls) == calls
                && self.blocks.unwrap_or(ended.blocks) == ended.blocks
                && self.recorded.unwrap_or(ended.recorded) == ended.recorded,
        )
    }
}
