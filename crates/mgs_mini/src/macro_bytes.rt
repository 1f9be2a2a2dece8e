// The bytes of a session's macro.
ghost use Rattle.std.specs.Prelude.{◌≡◌, ◌≤◌, length, not};
ghost use Rattle.mgs_mini.specs.Recording.{ended, given_up, is_full, kept, nothing_recorded, started};

use arrayvec::ArrayVec;
use mgs_model::MACRO_LIMIT;
use std::marker::Model;

/// The bytes of a macro, at most `MACRO_LIMIT` (512), and whether more are recorded. It has fixed room, and takes no memory.
#[derive(Drop)]
pub struct Recorder {
    bytes: ArrayVec<u8, MACRO_LIMIT>,
    is_recording: bool,
}

impl Model for Recorder {
    ghost use Rattle.mgs_mini.specs.Recording.{Recorded};

    ghost Value = { Recorded };

    ghost view = { λ r. record { macro = r.bytes.items; recording = r.is_recording } };
}

impl Recorder {
    /// One without a macro, which records none.
    pub fn new() -> Recorder
        ensures { result ≡ nothing_recorded }
    {
        Recorder {
            bytes: ArrayVec::new(),
            is_recording: false,
        }
    }

    /// Whether a macro is recorded.
    pub fn is_recording(&self) -> bool
        ensures { result ≡ self.now.recording }
    {
        self.is_recording
    }

    /// The bytes of the macro, at most `MACRO_LIMIT` (512).
    pub fn as_slice(&self) -> &[u8]
        ensures value { result.now ≡ self.now.macro }
        ensures within { length result.now ≤ 512 }
    {
        self.bytes.as_slice()
    }

    /// Keeps a byte, where a macro is recorded. `false`: it is one too many, and the recording has ended without a macro.
    pub fn keep(&mut self, byte: u8) -> bool
        ensures room { result ≡ not (is_full self.old) }
        ensures kept { self.new ≡ kept byte self.old }
    {
        if !self.is_recording {
            return true;
        }
        if self.bytes.len() >= MACRO_LIMIT {
            self.give_up();
            return false;
        }
        self.bytes.push(byte);
        true
    }

    /// A new macro is recorded from here on.
    pub fn start(&mut self)
        ensures { self.new ≡ started }
    {
        self.bytes.clear();
        self.is_recording = true;
    }

    /// The recording ends. The last two bytes, which end it, go.
    pub fn end(&mut self)
        ensures { self.new ≡ ended self.old }
    {
        let len = self.bytes.len();
        self.bytes.truncate(len.saturating_sub(2));
        self.is_recording = false;
    }

    /// The recording ends, where there is one, and leaves no macro.
    pub fn give_up(&mut self)
        ensures { self.new ≡ given_up self.old }
    {
        if self.is_recording {
            self.bytes.clear();
            self.is_recording = false;
        }
    }
}
