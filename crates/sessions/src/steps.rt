// The lines of a text, and its end.
ghost use Rattle.std.specs.Prelude.{◌≡◌, is_some, IfOk, Some, None, string_bytes, OnOk};
ghost use Rattle.drafts.specs.Drafts.{Drafts};
ghost use Rattle.drafts.specs.Given.{Given, with_row};
ghost use Rattle.texts.specs.Commands.{command as command_in, is_row, row};
ghost use Rattle.texts.specs.Words.{lines, words};
ghost use Rattle.sessions.specs.Runs.{after, asked, asked_given, asked_text, begins, ended_text, obeyed, obeyed_text, row_of, rows_ended, said, session_text, start, State, taken, taken_text};
ghost use Rattle.sessions.specs.Stands.{Moves, Stands, Went};

use crate::Session;
use drafts::{Draft, MapError};
use messages::command::Command;
use messages::write::write_refusal;
use refusals::Refusal;
use std::alloc::{AllocError, Global};
use texts::read::{is_row_line, read_command, read_row};
use texts::words::{Lines, Words};

// The allocator and the text that is written to come with each call, since a session owns neither.
impl Session {
    // Before the first line.
    pub fn new() -> Session
        ensures { Stands result start }
    {
        Session {
            line: 0,
            draft: None,
            viewer: None,
        }
    }

    // The rows of a map have ended: it is taken, or its refusal written.
    pub fn end_rows(&mut self, alloc: Global, out: &mut String) -> Result<(), AllocError>
        ensures { Moves result self.old rows_ended (λ s. ended_text s.given) self.new out.old out.new }
    {
        let Some(draft) = self.draft.take() else {
            return Ok(());
        };
        match draft.finish(alloc) {
            Ok(viewer) => self.viewer = Some(viewer),
            Err(MapError::Refused(refusal)) => write_refusal(out, refusal)?,
            Err(MapError::OutOfMemory(failed)) => return Err(failed),
        }
        Ok(())
    }

    // A command: the rows of a map begin, or it is one of the map that is looked at. `Moves` would say it of any state, and this holds where no rows are being given.
    fn obey(
        &mut self,
        alloc: Global,
        command: Command,
        at: u64,
        out: &mut String,
    ) -> Result<(), AllocError>
        ensures { (s : State) → Stands self.old s → s.given ≡ None → OnOk result (Went (record { line = s.line; given = begins command; original = obeyed s.original command }) (obeyed_text at s.original command) self.new (string_bytes out.old) (string_bytes out.new)) }
    {
        if let Command::Map { k } = command {
            self.draft = Some(Draft::new(alloc, k));
            return Ok(());
        }
        match &mut self.viewer {
            Some(viewer) => viewer.obey(alloc, command, out),
            None => write_refusal(out, Refusal::Unreadable(at)),
        }
    }

    // A line that is no row of a map.
    fn ask(
        &mut self,
        alloc: Global,
        line: &[u8],
        at: u64,
        out: &mut String,
    ) -> Result<(), AllocError>
        ensures { (s : State) → Stands self.old s → s.given ≡ None → OnOk result (Went (record { line = s.line; given = asked_given (command_in line.now); original = asked s.original (command_in line.now) }) (asked_text at s.original (words line.now) (command_in line.now)) self.new (string_bytes out.old) (string_bytes out.new)) }
    {
        match read_command(line) {
            Some(command) => self.obey(alloc, command, at, out),
            None if Words::of(line).next().is_some() => {
                write_refusal(out, Refusal::Unreadable(at))
            }
            None => Ok(()),
        }
    }

    // Whether a line is a row of the map that is being given.
    fn is_row(&self, line: &[u8]) -> bool
        ensures { (s : State) → Stands self.now s → result ≡ is_some (row_of (is_row line.now) s.given) }
    {
        self.draft.is_some() && is_row_line(line)
    }

    // A row of the map that is being given, if one is.
    fn put_row(&mut self, alloc: Global, line: &[u8], at: u64) -> Result<(), AllocError>
        ensures { (s : State) (g : Given) → Stands self.old s → s.given ≡ Some g → OnOk result (Stands self.new (record { line = s.line; given = Some (with_row g at (row line.now)); original = s.original })) }
    {
        if let Some(draft) = &mut self.draft {
            put_line(draft, alloc, line, at)?;
        }
        Ok(())
    }

    // One line.
    pub fn take_line(
        &mut self,
        alloc: Global,
        line: &[u8],
        out: &mut String,
    ) -> Result<(), AllocError>
        ensures { Moves result self.old (λ s. taken s line.now) (λ s. taken_text s line.now) self.new out.old out.new }
    {
        let at = self.line;
        self.line = at.saturating_add(1);
        if self.is_row(line) {
            return self.put_row(alloc, line, at);
        }
        self.end_rows(alloc, out)?;
        self.ask(alloc, line, at, out)
    }

    // The lines of a text, one after the other.
    pub fn run(&mut self, alloc: Global, text: &[u8], out: &mut String) -> Result<(), AllocError>
        ensures { Moves result self.old (λ s. after s (lines text.now)) (λ s. said s (lines text.now)) self.new out.old out.new }
    {
        for line in Lines::of(text) {
            self.take_line(alloc, line, out)?;
        }
        Ok(())
    }
}

// A row of the map that is being given, on a line.
fn put_line(draft: &mut Draft, alloc: Global, line: &[u8], at: u64) -> Result<(), AllocError>
    ensures { (g : Given) → Drafts draft.old g → OnOk result (Drafts draft.new (with_row g at (row line.now))) }
{
    match read_row(alloc, line)? {
        Some(numbers) => draft.put_row(&numbers),
        None => {
            draft.mark_unreadable(at);
            Ok(())
        }
    }
}

// What a whole text answers.
pub fn run_text(alloc: Global, text: &[u8]) -> Result<String, AllocError>
    ensures { IfOk result (λ said. string_bytes said ≡ session_text text.now) }
{
    let mut session = Session::new();
    let mut out = String::new(alloc);
    session.run(alloc, text, &mut out)?;
    session.end_rows(alloc, &mut out)?;
    Ok(out)
}
