// Bytes, keys, commands and events; prompts and macros.
use mgs_keys::{Decoder, Key, KeysFault, read_keys};
use mgs_maps::{Fed, Maps};
use mgs_mini::{Prompt, Recorder, completion};
use mgs_model::{Command, Event, Question, SessionId};
use std::alloc::Global;

// What the keys of a text come to: the last command and its argument.
pub(crate) fn use_keys(alloc: Global, tokens: &str) -> Result<Option<u32>, KeysFault> {
    let bytes: Vec<u8> = read_keys(alloc, tokens)?;
    let mut decoder = Decoder::new();
    let mut maps = Maps::new();
    let mut last = None;
    for byte in &bytes {
        let key: Option<Key> = decoder.feed(*byte);
        if let Some(key) = key {
            last = argument_of(maps.feed(key));
        }
    }
    Ok(last)
}

fn argument_of(fed: Fed) -> Option<u32> {
    match fed {
        Fed::Pending | Fed::Unbound => None,
        Fed::Run(command, argument) => {
            let _command: Command = command;
            argument
        }
    }
}

// The keys of one byte.
pub(crate) fn byte_of(key: Key) -> Option<u8> {
    match key {
        Key::Plain(byte) | Key::Meta(byte) => Some(byte),
        Key::Wide(_) => None,
    }
}

// A prompt that is typed to and completed, and a macro that is recorded.
pub(crate) fn use_prompt() -> bool {
    let mut prompt = Prompt::new(Question::KillWhich);
    let _step = prompt.feed(b'n');
    let found: Option<&[u8]> = completion(prompt.input(), &[b"notes"]);
    let completes = prompt.complete(found);
    let mut recorder = Recorder::new();
    recorder.start();
    let kept = recorder.keep(b'x');
    recorder.end();
    completes && kept
}

// Whose event it is.
pub(crate) fn session_of(event: Event) -> SessionId {
    match event {
        Event::Open { id, .. } | Event::Byte { id, .. } | Event::Close { id } => id,
    }
}
