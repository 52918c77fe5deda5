//! Rows by their subjects.

use crate::folders::Folders;
use crate::gates::play_gate;
use crate::logs::Logs;
use crate::scripts::Scripts;
use crate::talks::Talks;
use crate::words::play_words;
use crate::worlds::Worlds;
use linda_test_script::{Player, WordsFault};
use std::alloc::Global;

/// What a row is about.
#[derive(Clone, Copy)]
enum Subject {
    Script,
    World,
    Talk,
    Words,
    Folder,
    Log,
    Gate,
}

/// The players of all subjects, which of them plays the row at hand, and the runtime, for files and
/// the clock.
#[derive(Drop)]
pub(crate) struct Players<'a> {
    rt: &'a HostRuntime,
    subject: Subject,
    scripts: Scripts,
    worlds: Worlds,
    talks: Talks,
    folders: Folders,
    logs: Logs,
}

impl<'a> Players<'a> {
    /// Players that have played nothing yet.
    pub(crate) fn new(rt: &'a HostRuntime, alloc: Global) -> Players<'a> {
        Players {
            rt,
            subject: Subject::Words,
            scripts: Scripts::new(alloc, false),
            worlds: Worlds::new(alloc),
            talks: Talks::new(alloc),
            folders: Folders::new(alloc),
            logs: Logs::new(alloc),
        }
    }
}

// The subject of this name.
fn subject_of(name: &str) -> Result<Subject, WordsFault> {
    match name {
        "script" | "trace" => Ok(Subject::Script),
        "world" => Ok(Subject::World),
        "pipe" | "conversation" | "run" => Ok(Subject::Talk),
        "words" => Ok(Subject::Words),
        "folder" => Ok(Subject::Folder),
        "log" => Ok(Subject::Log),
        "gate" => Ok(Subject::Gate),
        _ => Err(WordsFault::Unknown),
    }
}

impl Player for Players<'_> {
    fn begin(&mut self, alloc: Global, subject: &str) -> Result<(), WordsFault> {
        self.subject = subject_of(subject)?;
        self.scripts.begin(alloc, subject == "trace");
        self.worlds.begin(alloc);
        self.talks.begin();
        self.folders.begin();
        self.logs.begin();
        Ok(())
    }

    fn play(&mut self, alloc: Global, words: &str, came: &mut String) -> Result<(), WordsFault> {
        match self.subject {
            Subject::Script => self.scripts.play(alloc, words, came),
            Subject::World => self.worlds.play(alloc, words, came),
            Subject::Talk => self.talks.play(alloc, words, came),
            Subject::Words => play_words(alloc, words, came),
            Subject::Folder => self.folders.play(self.rt, alloc, words, came),
            Subject::Log => self.logs.play(self.rt, alloc, words, came),
            Subject::Gate => play_gate(alloc, words, came),
        }
    }
}
