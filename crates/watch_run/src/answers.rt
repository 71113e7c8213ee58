//! The loop: lines that name files, and what is answered to them.

ghost use Rattle.std.specs.Prelude.{◌≡◌, ◌≢◌, ◌+◌, ◌-◌, ◌<◌, ◌^◌, ◌++◌, [], ◌∷◌, length, option_map, min, true, false};
ghost use Rattle.std.specs.Prelude.{Some, IfOk, IfSome, OnOk, OnErr, IsTrue, Ok, Err};
ghost use Rattle.std.specs.Io.KnownBytes.{Appends};
ghost use Rattle.session_script.specs.Reading.{IsPaid};
ghost use Rattle.session_script.specs.Written.{WritesPrefix};
ghost use Rattle.command_answers.specs.Answer.{IsReadFault};
ghost use Rattle.watch_run.specs.Readings.{AreReadBetween, HasReadAtMost};
ghost use Rattle.watch_run.specs.declared.versions.Version.TheVariants.{Unread};
ghost use Rattle.watch_run.specs.Holding.{file_at, all_files, IsFileHeld};
ghost use Rattle.watch_run.specs.Counts.{HasEditsFor};
ghost use Rattle.watch_run.specs.Edits.{file_of, model_paths, test_paths, IsVersionTaken};
ghost use Rattle.watch_run.specs.Edited.{IsFileEdited};
ghost use Rattle.watch_run.specs.Boards.{lists_of, KnowsItsTexts, IsUnedited, holding, standing};
ghost use Rattle.watch_run.specs.Ends.{HasFailedRead};
ghost use Rattle.watch_run.specs.Runs.{file_refusal, at_first, AreLinesSettled, IsTextNoted, IsTextAnswer, IsLineAnswer, IsLineAnswered, HasLineAnswers, IsLineAlone, AreIn, AreOfTurn, AreAll, BeginsFile, HasBegunFiles, HasBegunRun, EndsUnread, IsWatchRun, IsCutRun, HasAnswersPrefix, IsPrefixOfLine, ArePrefixIn, ArePrefixOf};

use crate::author::Author;
use crate::lines::put_answer;
use crate::model_names::bench_model_names;
use crate::versions::{Version, Versions};
use crate::watched::{Paths, Watched, WatchedFile};
use bench_texts::EditFault;
use command_answers::{ByteSink, ByteSource, SessionFault, write_whole};
use session_edits::refused_edit;
use session_script::MAX_TURNS;
use std::alloc::{AllocError, Global};
use std::sync::Wait;
use text_values::put_bytes;

// Want of memory is the fault `Memory`.
fn memory<T>(made: Result<T, AllocError>) -> Result<T, SessionFault>
    ensures value { IfOk result (λ value. made ≡ Ok value) }
    ensures fault { OnErr result (result ≡ Err SessionFault.Memory) }
{
    match made {
        Ok(value) => Ok(value),
        Err(_) => Err(SessionFault::Memory),
    }
}

fn push_byte(line: &mut Vec<u8>, byte: u8) -> Result<(), AllocError>
    ensures { OnOk result (line.new.items ≡ line.old.items ++ byte ∷ []) }
{
    line.push(byte)?;
    Ok(())
}

// Writes all the bytes. Where a write fails, it is the fault `Write`.
fn write_text<K: ByteSink>(sink: &mut K, text: &[u8]) -> Result<(), SessionFault>
    requires { K.failed_calls sink.old < 2 ^ 64 - 1 }
    ensures gains { OnOk result (Appends (K.contents sink.old) (K.contents sink.new) text.now) }
    ensures front { WritesPrefix (K.contents sink.old) (K.contents sink.new) text.now }
    ensures writes { OnOk result (K.failed_calls sink.new ≡ K.failed_calls sink.old) }
    ensures wrote { OnErr result (K.failed_calls sink.new ≡ K.failed_calls sink.old + 1) }
    ensures fault { OnErr result (result ≡ Err SessionFault.Write) }
{
    match write_whole(sink, text) {
        Ok(()) => Ok(()),
        Err(_) => Err(SessionFault::Write),
    }
}

// The line of a file whose text is refused, or whose test or model the bench refuses.
fn put_refused(
    alloc: Global,
    text: &mut Vec<u8>,
    path: &[u8],
    fault: EditFault,
) -> Result<(), AllocError>
    ensures { OnOk result (text.new.items ≡ text.old.items ++ file_refusal path.now fault) }
{
    let answer = refused_edit(alloc, fault)?;
    put_bytes(text, path)?;
    put_bytes(text, b": ")?;
    put_bytes(text, answer.text())
}

// The line of a name, with what is said of it.
fn put_said(text: &mut Vec<u8>, name: &[u8], said: &[u8]) -> Result<(), AllocError>
    ensures { OnOk result (text.new.items ≡ text.old.items ++ name.now ++ said.now) }
{
    put_bytes(text, name)?;
    put_bytes(text, said)
}

// The file that a line names, and its path.
fn watched_path<'a>(paths: Paths<'a>, line: &[u8]) -> Option<(WatchedFile, &'a str)>
    ensures file { option_map (λ f. file_of f.0) result
        ≡ file_at (model_paths paths.entry) (test_paths paths.entry) line.now }
    ensures path { IfSome result (λ f. f.1.now ≡ line.now) }
{
    for index in 0..paths.count() {
        let (file, path) = paths.file(index);
        if path.as_bytes() == line {
            return Some((file, path));
        }
    }
    None
}

/// A run of the program.
#[derive(Drop)]
pub struct Run<'a, A> {
    /// The texts of the files, with their author.
    pub watched: Watched<A>,
    /// The paths of the files.
    pub paths: Paths<'a>,
    /// The lines that were last written of the files of tests, in their order.
    pub lines: Vec<Vec<u8>>,
    /// Whether a text was refused.
    pub is_refused: bool,
}

impl<'a, A: Author> Run<'a, A> {
    fn take<W: Wait>(
        &mut self,
        rt: &W,
        alloc: Global,
        file: WatchedFile,
        version: Vec<u8>,
    ) -> Result<Option<EditFault>, AllocError>
        requires ready { KnowsItsTexts A.seen A.counts self.old.watched }
        ensures ready { OnOk result (KnowsItsTexts A.seen A.counts self.new.watched) }
        ensures paths { self.new.paths ≡ self.old.paths }
        ensures taken { IfOk result (λ o. IsVersionTaken (file_of file) version.items
            (holding self.old.watched) o (holding self.new.watched)) }
        ensures edits { IfOk result (λ o. HasEditsFor (IsFileEdited (file_of file) version.items o
            (holding self.old.watched) (holding self.new.watched))
            (A.counts self.old.watched.author) (A.counts self.new.watched.author)) }
        ensures kept { OnOk result (IsFileHeld (file_of file) version.items
            (holding self.old.watched) → IsUnedited A.counts self.old.watched self.new.watched) }
        ensures jobs { (A.counts self.new.watched.author).jobs
            ≡ (A.counts self.old.watched.author).jobs }
        ensures lines { self.new.lines ≡ self.old.lines }
        ensures refused { self.new.is_refused ≡ self.old.is_refused }
    {
        match file {
            WatchedFile::Model(index) => self.watched.take_model(rt, alloc, index, version),
            WatchedFile::Test(index) => self.watched.take_test(rt, alloc, index, version),
        }
    }

    // Takes a version, and appends a line where it is refused. Whether it is accepted.
    fn accept<W: Wait>(
        &mut self,
        rt: &W,
        alloc: Global,
        file: WatchedFile,
        path: &[u8],
        version: Vec<u8>,
        text: &mut Vec<u8>,
    ) -> Result<bool, AllocError>
        requires ready { KnowsItsTexts A.seen A.counts self.old.watched }
        ensures ready { OnOk result (KnowsItsTexts A.seen A.counts self.new.watched) }
        ensures paths { self.new.paths ≡ self.old.paths }
        ensures noted { IfOk result (IsTextNoted (file_of file) path.now version.items
            (standing A.counts self.old) (standing A.counts self.new) text.old.items
            text.new.items) }
    {
        match self.take(rt, alloc, file, version)? {
            Some(fault) => {
                self.is_refused = true;
                put_refused(alloc, text, path, fault)?;
                Ok(false)
            }
            None => Ok(true),
        }
    }

    // Settles the desk, and appends the lines that changed and the number of jobs.
    fn put_settled<W: Wait>(
        &mut self,
        rt: &W,
        alloc: Global,
        text: &mut Vec<u8>,
    ) -> Result<(), SessionFault>
        requires ready { KnowsItsTexts A.seen A.counts self.old.watched }
        ensures ready { OnOk result (KnowsItsTexts A.seen A.counts self.new.watched) }
        ensures paths { self.new.paths ≡ self.old.paths }
        ensures fault { OnErr result (result ≡ Err SessionFault.Memory) }
        ensures settled { OnOk result (AreLinesSettled (standing A.counts self.old)
            (standing A.counts self.new) text.old.items text.new.items) }
    {
        let models = memory(bench_model_names(alloc, self.paths.models.len()))?;
        let (jobs, lines) = self.watched.settled_lines(rt, alloc, &models)?;
        memory(put_answer(text, &self.lines, &lines, jobs))?;
        self.lines = lines;
        Ok(())
    }

    // Takes the first version of a file, and tells it where it is refused.
    fn begin_file<W: Wait, V: Versions>(
        &mut self,
        rt: &W,
        alloc: Global,
        versions: &mut V,
        file: WatchedFile,
        path: &str,
        text: &mut Vec<u8>,
    ) -> Result<(), SessionFault>
        requires ready { KnowsItsTexts A.seen A.counts self.old.watched }
        ensures ready { OnOk result (KnowsItsTexts A.seen A.counts self.new.watched) }
        ensures paths { self.new.paths ≡ self.old.paths }
        ensures fault { result ≢ Err SessionFault.Write }
        ensures unshared { result ≢ Err SessionFault.Shared }
        ensures begun { OnOk result (BeginsFile (record { file = file_of file; path = path.now })
            (standing A.counts self.old) (standing A.counts self.new) (V.readings versions.old)
            (V.readings versions.new) text.old.items text.new.items) }
        ensures readings { OnErr result (HasReadAtMost 1 (V.readings versions.old)
            (V.readings versions.new)) }
        ensures read { result ≡ Err SessionFault.Read
            → AreReadBetween (V.readings versions.old) (V.readings versions.new)
            (record { path = path.now; version = Unread } ∷ []) }
    {
        match versions.version(alloc, path) {
            Version::Text(version) => {
                memory(self.accept(rt, alloc, file, path.as_bytes(), version, text))?;
                Ok(())
            }
            Version::Unread => Err(SessionFault::Read),
            Version::OutOfMemory => Err(SessionFault::Memory),
        }
    }

    // Takes the first versions of all files, and tells those that are refused.
    fn begin_files<W: Wait, V: Versions>(
        &mut self,
        rt: &W,
        alloc: Global,
        versions: &mut V,
        paths: Paths<'a>,
    ) -> Result<Vec<u8>, SessionFault>
        requires ready { KnowsItsTexts A.seen A.counts self.old.watched }
        ensures ready { OnOk result (KnowsItsTexts A.seen A.counts self.new.watched) }
        ensures paths { self.new.paths ≡ self.old.paths }
        ensures fault { result ≢ Err SessionFault.Write }
        ensures unshared { result ≢ Err SessionFault.Shared }
        ensures begun { IfOk result (λ t. HasBegunFiles
            (all_files (model_paths paths.entry) (test_paths paths.entry))
            (standing A.counts self.old) (standing A.counts self.new) (V.readings versions.old)
            (V.readings versions.new) t.items) }
        ensures readings { OnErr result (HasReadAtMost
            (length (all_files (model_paths paths.entry) (test_paths paths.entry)))
            (V.readings versions.old) (V.readings versions.new)) }
        ensures read { result ≡ Err SessionFault.Read
            → EndsUnread (all_files (model_paths paths.entry) (test_paths paths.entry))
            (V.readings versions.old) (V.readings versions.new) }
    {
        let mut text = Vec::new(alloc);
        for index in 0..paths.count() {
            let (file, path) = paths.file(index);
            self.begin_file(rt, alloc, versions, file, path, &mut text)?;
        }
        Ok(text)
    }

    // What is written at the start.
    fn begin<W: Wait, V: Versions>(
        &mut self,
        rt: &W,
        alloc: Global,
        versions: &mut V,
    ) -> Result<Vec<u8>, SessionFault>
        requires ready { KnowsItsTexts A.seen A.counts self.old.watched }
        requires first { standing A.counts self.old
            ≡ at_first (length (model_paths self.old.paths)) (length (test_paths self.old.paths))
            (lists_of self.old.lines.items) }
        ensures ready { OnOk result (KnowsItsTexts A.seen A.counts self.new.watched) }
        ensures paths { self.new.paths ≡ self.old.paths }
        ensures fault { result ≢ Err SessionFault.Write }
        ensures unshared { result ≢ Err SessionFault.Shared }
        ensures begun { IfOk result (λ t. HasBegunRun (model_paths self.old.paths)
            (test_paths self.old.paths) (lists_of self.old.lines.items) (standing A.counts self.new)
            (V.readings versions.old) (V.readings versions.new) t.items) }
        ensures readings { OnErr result (HasReadAtMost
            (length (all_files (model_paths self.old.paths) (test_paths self.old.paths)))
            (V.readings versions.old) (V.readings versions.new)) }
        ensures read { result ≡ Err SessionFault.Read
            → EndsUnread (all_files (model_paths self.old.paths) (test_paths self.old.paths))
            (V.readings versions.old) (V.readings versions.new) }
    {
        let paths = self.paths;
        let mut text = self.begin_files(rt, alloc, versions, paths)?;
        self.put_settled(rt, alloc, &mut text)?;
        Ok(text)
    }

    // What is written of a later text of a file.
    fn answer_text<W: Wait>(
        &mut self,
        rt: &W,
        alloc: Global,
        file: WatchedFile,
        path: &[u8],
        version: Vec<u8>,
    ) -> Result<Vec<u8>, SessionFault>
        requires ready { KnowsItsTexts A.seen A.counts self.old.watched }
        ensures ready { OnOk result (KnowsItsTexts A.seen A.counts self.new.watched) }
        ensures paths { self.new.paths ≡ self.old.paths }
        ensures fault { OnErr result (result ≡ Err SessionFault.Memory) }
        ensures answer { IfOk result (λ t. IsTextAnswer (file_of file) path.now version.items
            (standing A.counts self.old) (standing A.counts self.new) t.items) }
    {
        let mut text = Vec::new(alloc);
        let is_accepted = memory(self.accept(rt, alloc, file, path, version, &mut text))?;
        if is_accepted {
            self.put_settled(rt, alloc, &mut text)?;
            return Ok(text);
        }
        Ok(text)
    }

    // What is written of a later version of a file.
    fn answer_version<W: Wait>(
        &mut self,
        rt: &W,
        alloc: Global,
        file: WatchedFile,
        path: &[u8],
        version: Version,
    ) -> Result<Vec<u8>, SessionFault>
        requires ready { KnowsItsTexts A.seen A.counts self.old.watched }
        ensures ready { OnOk result (KnowsItsTexts A.seen A.counts self.new.watched) }
        ensures paths { self.new.paths ≡ self.old.paths }
        ensures fault { OnErr result (result ≡ Err SessionFault.Memory) }
        ensures answer { IfOk result
            (λ t. IsLineAnswer path.now (standing A.counts self.old) (standing A.counts self.new)
            (Some (file_of file)) (record { path = path.now; version = version } ∷ [])
            t.items) }
    {
        match version {
            Version::Text(version) => self.answer_text(rt, alloc, file, path, version),
            Version::Unread => {
                let mut text = Vec::new(alloc);
                memory(put_said(&mut text, path, b": not read\n"))?;
                Ok(text)
            }
            Version::OutOfMemory => Err(SessionFault::Memory),
        }
    }

    // What is written of a line.
    fn answer_line<W: Wait, V: Versions>(
        &mut self,
        rt: &W,
        alloc: Global,
        versions: &mut V,
        line: &[u8],
    ) -> Result<Vec<u8>, SessionFault>
        requires ready { KnowsItsTexts A.seen A.counts self.old.watched }
        ensures ready { OnOk result (KnowsItsTexts A.seen A.counts self.new.watched) }
        ensures paths { self.new.paths ≡ self.old.paths }
        ensures fault { OnErr result (result ≡ Err SessionFault.Memory) }
        ensures answer { IfOk result (λ t. IsLineAnswered line.now
            (file_at (model_paths self.old.paths) (test_paths self.old.paths) line.now)
            (standing A.counts self.old) (standing A.counts self.new) (V.readings versions.old)
            (V.readings versions.new) t.items) }
        ensures readings { OnErr result (HasReadAtMost 1 (V.readings versions.old)
            (V.readings versions.new)) }
    {
        let paths = self.paths;
        match watched_path(paths, line) {
            Some((file, path)) => {
                let version = versions.version(alloc, path);
                self.answer_version(rt, alloc, file, line, version)
            }
            None => {
                let mut text = Vec::new(alloc);
                memory(put_said(&mut text, line, b": not watched\n"))?;
                Ok(text)
            }
        }
    }

    // Answers a line by one write.
    fn write_answer<W: Wait, V: Versions, K: ByteSink>(
        &mut self,
        rt: &W,
        alloc: Global,
        versions: &mut V,
        line: &[u8],
        sink: &mut K,
    ) -> Result<(), SessionFault>
        requires ready { KnowsItsTexts A.seen A.counts self.old.watched }
        requires sink { K.failed_calls sink.old < 2 ^ 64 - 1 }
        ensures ready { OnOk result (KnowsItsTexts A.seen A.counts self.new.watched) }
        ensures paths { self.new.paths ≡ self.old.paths }
        ensures writes { OnOk result (K.failed_calls sink.new ≡ K.failed_calls sink.old) }
        ensures wrote { result ≡ Err SessionFault.Write
            → K.failed_calls sink.new ≡ K.failed_calls sink.old + 1 }
        ensures cut { OnErr result
            (HasAnswersPrefix (model_paths self.old.paths) (test_paths self.old.paths)
            (IsPrefixOfLine line.now) (standing A.counts self.old) (V.readings versions.old)
            (V.readings versions.new) (K.contents sink.old) (K.contents sink.new)) }
        ensures unfailed { result ≢ Err SessionFault.Write
            → K.failed_calls sink.new ≡ K.failed_calls sink.old }
        ensures unread { result ≢ Err SessionFault.Read }
        ensures unshared { result ≢ Err SessionFault.Shared }
        // nothing for an empty line, and else one write, of what is answered to it
        ensures answers { OnOk result (HasLineAnswers (model_paths self.old.paths)
            (test_paths self.old.paths) (IsLineAlone line.now) (standing A.counts self.old)
            (standing A.counts self.new) (V.readings versions.old) (V.readings versions.new)
            (K.contents sink.old) (K.contents sink.new)) }
    {
        if line.is_empty() {
            return Ok(());
        }
        let text = self.answer_line(rt, alloc, versions, line)?;
        write_text(sink, &text)?;
        Ok(())
    }

    // Answers the line that ends in this byte, if it is a line feed, or keeps the byte.
    fn take_byte<W: Wait, V: Versions, K: ByteSink>(
        &mut self,
        rt: &W,
        alloc: Global,
        versions: &mut V,
        line: &mut Vec<u8>,
        byte: u8,
        sink: &mut K,
    ) -> Result<(), SessionFault>
        requires ready { KnowsItsTexts A.seen A.counts self.old.watched }
        requires sink { K.failed_calls sink.old < 2 ^ 64 - 1 }
        ensures ready { OnOk result (KnowsItsTexts A.seen A.counts self.new.watched) }
        ensures paths { self.new.paths ≡ self.old.paths }
        ensures writes { OnOk result (K.failed_calls sink.new ≡ K.failed_calls sink.old) }
        ensures wrote { result ≡ Err SessionFault.Write
            → K.failed_calls sink.new ≡ K.failed_calls sink.old + 1 }
        ensures answers { OnOk result (HasLineAnswers (model_paths self.old.paths)
            (test_paths self.old.paths) (AreIn line.old.items (byte ∷ []) line.new.items)
            (standing A.counts self.old) (standing A.counts self.new) (V.readings versions.old)
            (V.readings versions.new) (K.contents sink.old) (K.contents sink.new)) }
        ensures cut { OnErr result
            (HasAnswersPrefix (model_paths self.old.paths) (test_paths self.old.paths)
            (ArePrefixIn line.old.items (byte ∷ [])) (standing A.counts self.old)
            (V.readings versions.old) (V.readings versions.new) (K.contents sink.old)
            (K.contents sink.new)) }
        ensures unfailed { result ≢ Err SessionFault.Write
            → K.failed_calls sink.new ≡ K.failed_calls sink.old }
        ensures unread { result ≢ Err SessionFault.Read }
        ensures unshared { result ≢ Err SessionFault.Shared }
    {
        if byte == b'\n' {
            self.write_answer(rt, alloc, versions, line, sink)?;
            line.clear();
            return Ok(());
        }
        memory(push_byte(line, byte))?;
        Ok(())
    }

    // Answers the lines that end in these bytes, and keeps what is behind the last line feed.
    fn take_bytes<W: Wait, V: Versions, K: ByteSink>(
        &mut self,
        rt: &W,
        alloc: Global,
        versions: &mut V,
        line: &mut Vec<u8>,
        bytes: &[u8],
        sink: &mut K,
    ) -> Result<(), SessionFault>
        requires ready { KnowsItsTexts A.seen A.counts self.old.watched }
        requires sink { K.failed_calls sink.old < 2 ^ 64 - 1 }
        ensures ready { OnOk result (KnowsItsTexts A.seen A.counts self.new.watched) }
        ensures paths { self.new.paths ≡ self.old.paths }
        ensures writes { OnOk result (K.failed_calls sink.new ≡ K.failed_calls sink.old) }
        ensures wrote { result ≡ Err SessionFault.Write
            → K.failed_calls sink.new ≡ K.failed_calls sink.old + 1 }
        ensures answers { OnOk result (HasLineAnswers (model_paths self.old.paths)
            (test_paths self.old.paths) (AreIn line.old.items bytes.now line.new.items)
            (standing A.counts self.old) (standing A.counts self.new) (V.readings versions.old)
            (V.readings versions.new) (K.contents sink.old) (K.contents sink.new)) }
        ensures cut { OnErr result
            (HasAnswersPrefix (model_paths self.old.paths) (test_paths self.old.paths)
            (ArePrefixIn line.old.items bytes.now) (standing A.counts self.old)
            (V.readings versions.old) (V.readings versions.new) (K.contents sink.old)
            (K.contents sink.new)) }
        ensures unfailed { result ≢ Err SessionFault.Write
            → K.failed_calls sink.new ≡ K.failed_calls sink.old }
        ensures unread { result ≢ Err SessionFault.Read }
        ensures unshared { result ≢ Err SessionFault.Shared }
    {
        for byte in bytes {
            self.take_byte(rt, alloc, versions, line, *byte, sink)?;
        }
        Ok(())
    }

    // Reads once, and answers the lines that end in what was read, or the last one at the end.
    // Whether the source goes on.
    fn take_turn<W: Wait, V: Versions, S: ByteSource, K: ByteSink>(
        &mut self,
        rt: &W,
        alloc: Global,
        versions: &mut V,
        line: &mut Vec<u8>,
        source: &mut S,
        sink: &mut K,
    ) -> Result<bool, SessionFault>
        requires ready { KnowsItsTexts A.seen A.counts self.old.watched }
        requires source { S.failed_calls source.old < 2 ^ 64 - 1 }
        requires sink { K.failed_calls sink.old < 2 ^ 64 - 1 }
        ensures ready { OnOk result (KnowsItsTexts A.seen A.counts self.new.watched) }
        ensures paths { self.new.paths ≡ self.old.paths }
        ensures reads { OnOk result (S.failed_calls source.new ≡ S.failed_calls source.old) }
        ensures writes { OnOk result (K.failed_calls sink.new ≡ K.failed_calls sink.old) }
        ensures wrote { result ≡ Err SessionFault.Write
            → K.failed_calls sink.new ≡ K.failed_calls sink.old + 1 }
        ensures answers { IfOk result (λ goes_on. HasLineAnswers (model_paths self.old.paths)
            (test_paths self.old.paths)
            (AreOfTurn goes_on line.old.items line.new.items (S.remaining source.old)
            (S.remaining source.new))
            (standing A.counts self.old)
            (standing A.counts self.new)
            (V.readings versions.old)
            (V.readings versions.new)
            (K.contents sink.old)
            (K.contents sink.new)) }
        ensures cut { OnErr result
            (HasAnswersPrefix (model_paths self.old.paths) (test_paths self.old.paths)
            (ArePrefixOf line.old.items (S.remaining source.old)) (standing A.counts self.old)
            (V.readings versions.old) (V.readings versions.new) (K.contents sink.old)
            (K.contents sink.new)) }
        ensures unfailed { result ≢ Err SessionFault.Write
            → K.failed_calls sink.new ≡ K.failed_calls sink.old }
        ensures unread { result ≢ Err SessionFault.Read
            → S.failed_calls source.new ≡ S.failed_calls source.old }
        ensures unshared { result ≢ Err SessionFault.Shared }
        ensures read { result ≡ Err SessionFault.Read
            → S.failed_calls source.new ≡ S.failed_calls source.old + 1 }
        ensures paid { IfOk result (λ goes_on. IsTrue goes_on
            → IsPaid 1 0 (S.remaining source.old) (S.remaining source.new)) }
        ensures call { S.calls source.new ≡ min (S.calls source.old + 1) (2 ^ 64 - 1) }
    {
        let mut buffer = [0u8; 4096];
        match source.read_some(&mut buffer) {
            Ok(0) => {
                self.write_answer(rt, alloc, versions, line, sink)?;
                Ok(false)
            }
            Ok(n) => {
                self.take_bytes(rt, alloc, versions, line, &buffer[..n], sink)?;
                Ok(true)
            }
            Err(_) => Err(SessionFault::Read),
        }
    }

    // Answers the lines of a source until it ends.
    fn answer_lines<W: Wait, V: Versions, S: ByteSource, K: ByteSink>(
        &mut self,
        rt: &W,
        alloc: Global,
        versions: &mut V,
        source: &mut S,
        sink: &mut K,
    ) -> Result<(), SessionFault>
        requires ready { KnowsItsTexts A.seen A.counts self.old.watched }
        requires source { S.failed_calls source.old < 2 ^ 64 - 1 }
        requires sink { K.failed_calls sink.old < 2 ^ 64 - 1 }
        ensures ready { OnOk result (KnowsItsTexts A.seen A.counts self.new.watched) }
        ensures paths { self.new.paths ≡ self.old.paths }
        ensures reads { OnOk result (S.failed_calls source.new ≡ S.failed_calls source.old) }
        ensures writes { OnOk result (K.failed_calls sink.new ≡ K.failed_calls sink.old) }
        ensures wrote { result ≡ Err SessionFault.Write
            → K.failed_calls sink.new ≡ K.failed_calls sink.old + 1 }
        ensures answers { OnOk result (HasLineAnswers (model_paths self.old.paths)
            (test_paths self.old.paths) (AreAll (S.remaining source.old))
            (standing A.counts self.old) (standing A.counts self.new) (V.readings versions.old)
            (V.readings versions.new) (K.contents sink.old) (K.contents sink.new)) }
        ensures cut { OnErr result
            (HasAnswersPrefix (model_paths self.old.paths) (test_paths self.old.paths)
            (ArePrefixOf [] (S.remaining source.old)) (standing A.counts self.old)
            (V.readings versions.old) (V.readings versions.new) (K.contents sink.old)
            (K.contents sink.new)) }
        ensures unfailed { result ≢ Err SessionFault.Write
            → K.failed_calls sink.new ≡ K.failed_calls sink.old }
        ensures unread { result ≢ Err SessionFault.Read
            → S.failed_calls source.new ≡ S.failed_calls source.old }
        ensures unshared { result ≢ Err SessionFault.Shared }
        ensures read { result ≡ Err SessionFault.Read
            → IsReadFault (S.failed_calls source.old) (S.failed_calls source.new)
            (S.calls source.old) (S.calls source.new) (S.remaining source.old) }
    {
        let mut line = Vec::new(alloc);
        for _turn in 0..MAX_TURNS {
            let goes_on = self.take_turn(rt, alloc, versions, &mut line, source, sink)?;
            if !goes_on {
                return Ok(());
            }
        }
        Err(SessionFault::Read)
    }

    /// Takes the first versions and writes what came of them, and then answers the lines of a
    /// source until it ends. Whether a text was refused.
    pub fn answer_all<W: Wait, V: Versions, S: ByteSource, K: ByteSink>(
        &mut self,
        rt: &W,
        alloc: Global,
        versions: &mut V,
        source: &mut S,
        sink: &mut K,
    ) -> Result<bool, SessionFault>
        requires ready { KnowsItsTexts A.seen A.counts self.old.watched }
        requires first { standing A.counts self.old
            ≡ at_first (length (model_paths self.old.paths)) (length (test_paths self.old.paths))
            (lists_of self.old.lines.items) }
        requires source { S.failed_calls source.old < 2 ^ 64 - 1 }
        requires sink { K.failed_calls sink.old < 2 ^ 64 - 1 }
        ensures reads { OnOk result (S.failed_calls source.new ≡ S.failed_calls source.old) }
        ensures writes { OnOk result (K.failed_calls sink.new ≡ K.failed_calls sink.old) }
        ensures wrote { result ≡ Err SessionFault.Write
            → K.failed_calls sink.new ≡ K.failed_calls sink.old + 1 }
        ensures run { IfOk result (λ refused. IsWatchRun (model_paths self.old.paths)
            (test_paths self.old.paths) (lists_of self.old.lines.items) refused
            (S.remaining source.old) (V.readings versions.old) (V.readings versions.new)
            (K.contents sink.old) (K.contents sink.new)) }
        ensures cut { OnErr result (IsCutRun (model_paths self.old.paths)
            (test_paths self.old.paths) (lists_of self.old.lines.items) (S.remaining source.old)
            (V.readings versions.old) (V.readings versions.new) (K.contents sink.old)
            (K.contents sink.new)) }
        ensures unfailed { result ≢ Err SessionFault.Write
            → K.failed_calls sink.new ≡ K.failed_calls sink.old }
        ensures unread { result ≢ Err SessionFault.Read
            → S.failed_calls source.new ≡ S.failed_calls source.old }
        ensures unshared { result ≢ Err SessionFault.Shared }
        ensures read { result ≡ Err SessionFault.Read
            → HasFailedRead (all_files (model_paths self.old.paths) (test_paths self.old.paths))
            (S.failed_calls source.old) (S.failed_calls source.new) (S.calls source.old)
            (S.calls source.new) (S.remaining source.old) (V.readings versions.old)
            (V.readings versions.new) }
    {
        let text = self.begin(rt, alloc, versions)?;
        write_text(sink, &text)?;
        self.answer_lines(rt, alloc, versions, source, sink)?;
        Ok(self.is_refused)
    }
}
