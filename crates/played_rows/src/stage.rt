// What the next call finds, and calls over it.
use crate::call::{call, sink, source};
use crate::told::{halves, tell, tell_output};
use std::alloc::{AllocError, Global};
use way_io::{FillSource, MemFiles, MemSink};

#[derive(Drop)]
pub(crate) struct Held {
    pub name: String,
    pub bytes: Vec<u8>,
}

/// What the next call alone finds, and the files that are told and kept after it.
#[derive(Drop)]
pub(crate) struct Next {
    pub files: Vec<Held>,
    pub input: Vec<u8>,
    /// How many bytes x the input has in place of these, where it is not 0.
    pub flood: u32,
    pub steps: Vec<u32>,
    pub room: u32,
    pub piece: u32,
    pub failing_files: Vec<u32>,
    pub failing_reads: Vec<u32>,
    pub failing_writes: Vec<u32>,
    pub shown: Vec<String>,
    pub found: Vec<String>,
    pub stored: Vec<String>,
    /// The names under which further calls find what is written, which is not told then.
    pub written: Vec<String>,
    /// The letters that stand in place of an @ among the words.
    pub letters: String,
}

/// The files of every call, and what the next one finds beside them.
#[derive(Drop)]
pub(crate) struct Stage {
    pub alloc: Global,
    pub kept: Vec<Held>,
    pub next: Next,
}

/// What a call came to.
#[derive(Drop)]
struct Outcome {
    code: u8,
    written: Vec<u8>,
}

impl Outcome {
    fn is(&self, other: &Outcome) -> bool {
        self.code == other.code && self.written.as_slice() == other.written.as_slice()
    }
}

impl Next {
    pub(crate) fn new(alloc: Global) -> Next {
        Next {
            files: Vec::new(alloc),
            input: Vec::new(alloc),
            flood: 0,
            steps: Vec::new(alloc),
            room: 200_000,
            piece: 7,
            failing_files: Vec::new(alloc),
            failing_reads: Vec::new(alloc),
            failing_writes: Vec::new(alloc),
            shown: Vec::new(alloc),
            found: Vec::new(alloc),
            stored: Vec::new(alloc),
            written: Vec::new(alloc),
            letters: String::new(alloc),
        }
    }
}

impl Stage {
    pub(crate) fn new(alloc: Global) -> Stage {
        Stage {
            alloc,
            kept: Vec::new(alloc),
            next: Next::new(alloc),
        }
    }

    /// What a file of the next call holds; nothing where it is not there.
    pub(crate) fn content(&self, name: &str) -> Result<Vec<u8>, AllocError> {
        for held in self.next.files.iter().chain(self.kept.iter()) {
            if held.name.as_str() == name {
                return held.bytes.clone();
            }
        }
        Ok(Vec::new(self.alloc))
    }

    /// The files that a call finds.
    pub(crate) fn files(&self) -> Result<MemFiles, AllocError> {
        let mut files = MemFiles::new(self.alloc, &self.next.failing_files)?;
        for held in &self.kept {
            files.add(&held.name, &held.bytes)?;
        }
        for held in &self.next.files {
            files.add(&held.name, &held.bytes)?;
        }
        Ok(files)
    }

    // A call over these files and this sink, whose source gives so many bytes a read.
    fn outcome(
        &self,
        words: &str,
        files: &mut MemFiles,
        mut out: MemSink,
        step: u32,
        failing: &[u32],
    ) -> Result<Outcome, AllocError> {
        let code = if self.next.flood > 0 {
            let mut input = FillSource::new(b'x', u64::from(self.next.flood));
            call(self.alloc, words, files, &mut input, &mut out)?
        } else {
            let mut input = source(self.alloc, &self.next.input, step, failing)?;
            call(self.alloc, words, files, &mut input, &mut out)?
        };
        let written = out.taken().to_vec(self.alloc)?;
        Ok(Outcome { code, written })
    }

    fn sink(&self, failing: &[u32]) -> Result<MemSink, AllocError> {
        sink(self.alloc, self.next.room, self.next.piece, failing)
    }

    fn first_step(&self) -> u32 {
        self.next.steps.first().copied().unwrap_or(10)
    }

    /// A call as it stands, with each step of the source: all come to the same, and leave the same
    /// files, of which those that are asked for are told.
    pub(crate) fn play(&mut self, words: &str, said: &mut Vec<u8>) -> Result<(), AllocError> {
        let words = self.words(words)?;
        let mut files = self.files()?;
        let written = self.play_steps(words.as_str(), &mut files, said)?;
        self.tell_files(&files, said)?;
        self.store(&files)?;
        self.keep_written(&written)
    }

    // The call with each step of the source, and what it writes with the first one.
    fn play_steps(
        &self,
        words: &str,
        files: &mut MemFiles,
        said: &mut Vec<u8>,
    ) -> Result<Vec<u8>, AllocError> {
        let reads = &self.next.failing_reads;
        let out = self.sink(&self.next.failing_writes)?;
        let first = self.outcome(words, files, out, self.first_step(), reads)?;
        self.tell_outcome(&first, said)?;
        for step in &self.next.steps {
            let out = self.sink(&self.next.failing_writes)?;
            let other = self.outcome(words, &mut self.files()?, out, *step, reads)?;
            if !first.is(&other) {
                tell(
                    said,
                    format!(in self.alloc; "otherwise in steps of {step}\n")?.as_str(),
                )?;
            }
        }
        Ok(first.written)
    }

    // What was written, for further calls to find.
    fn keep_written(&mut self, bytes: &[u8]) -> Result<(), AllocError> {
        for name in &self.next.written {
            self.kept.push(Held {
                name: name.clone()?,
                bytes: bytes.to_vec(self.alloc)?,
            })?;
        }
        Ok(())
    }

    // The words, with the letters that were set in place of an @.
    fn words(&self, words: &str) -> Result<String, AllocError> {
        let (front, behind) = halves(words, "@");
        let mut whole = String::from_str(self.alloc, front)?;
        whole.push_str(&self.next.letters)?;
        whole.push_str(behind)?;
        Ok(whole)
    }

    fn tell_outcome(&self, came: &Outcome, said: &mut Vec<u8>) -> Result<(), AllocError> {
        if self.next.written.is_empty() {
            tell_output(self.alloc, said, &came.written)?;
        }
        let code = came.code;
        tell(said, format!(in self.alloc; "exit {code}\n")?.as_str())
    }

    fn tell_files(&self, files: &MemFiles, said: &mut Vec<u8>) -> Result<(), AllocError> {
        for name in &self.next.found {
            if files.content(name).is_some() {
                tell(said, format!(in self.alloc; "{name} is there\n")?.as_str())?;
            } else {
                tell(said, format!(in self.alloc; "no {name}\n")?.as_str())?;
            }
        }
        for name in &self.next.shown {
            match files.content(name) {
                None => tell(said, format!(in self.alloc; "no {name}\n")?.as_str())?,
                Some(bytes) => {
                    tell(said, format!(in self.alloc; "{name} holds\n")?.as_str())?;
                    tell_output(self.alloc, said, bytes)?;
                }
            }
        }
        Ok(())
    }

    // The files that all further calls find too.
    fn store(&mut self, files: &MemFiles) -> Result<(), AllocError> {
        for name in &self.next.stored {
            if let Some(bytes) = files.content(name) {
                self.kept.push(Held {
                    name: name.clone()?,
                    bytes: bytes.to_vec(self.alloc)?,
                })?;
            }
        }
        Ok(())
    }

    /// The call with each read, or each write, failing in turn, until nothing comes of it: how much
    /// stands written, which is a beginning of what else does.
    pub(crate) fn sweep(
        &mut self,
        reads: bool,
        words: &str,
        said: &mut Vec<u8>,
    ) -> Result<(), AllocError> {
        let step = self.first_step();
        let whole = self.outcome(words, &mut self.files()?, self.sink(&[])?, step, &[])?;
        for number in 1..1_000u32 {
            let failing: [u32; 1] = [number];
            let (sink_fails, source_fails) = if reads {
                ([].as_slice(), failing.as_slice())
            } else {
                (failing.as_slice(), [].as_slice())
            };
            let out = self.sink(sink_fails)?;
            let came = self.outcome(words, &mut self.files()?, out, step, source_fails)?;
            if came.is(&whole) {
                break;
            }
            let (code, count) = (came.code, came.written.len());
            let line = format!(in self.alloc; "call {number}: exit {code} after {count} bytes\n")?;
            tell(said, line.as_str())?;
            if !whole.written.starts_with(&came.written) {
                tell(said, "which are no beginning\n")?;
            }
        }
        self.tell_outcome(&whole, said)
    }

    /// The call with each beginning of the file x: from which length on it comes to what.
    pub(crate) fn beginnings(&mut self, words: &str, said: &mut Vec<u8>) -> Result<(), AllocError> {
        let whole = self.content("x")?;
        let mut last: Option<Outcome> = None;
        for end in 0..=whole.len() {
            let mut files = self.files()?;
            files.add("x", whole.get(..end).unwrap_or(&whole))?;
            let came = self.outcome(words, &mut files, self.sink(&[])?, 10, &[])?;
            if !last.as_ref().is_some_and(|before| before.is(&came)) {
                tell(said, format!(in self.alloc; "{end} bytes:\n")?.as_str())?;
                self.tell_outcome(&came, said)?;
            }
            last = Some(came);
        }
        Ok(())
    }
}
