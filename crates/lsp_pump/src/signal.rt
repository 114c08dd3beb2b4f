// What the reading thread and the session's tell each other. All of it is a hint: no clause speaks of it.
use std::sync::Wait;
use std::sync::atomic::{AtomicBool, Ordering};
use std::thread::Parker;
use std::time::Duration;

// How long the session waits for a piece before it looks at the desk again.
const LOOK_AFTER_MILLIS: u64 = 2;

/// Whether reading is over, and where the session waits for a piece.
#[derive(Drop)]
pub(crate) struct Signal {
    over: AtomicBool,
    parker: Parker,
}

impl Signal {
    pub(crate) fn new() -> Signal {
        Signal {
            over: AtomicBool::new(false),
            parker: Parker::new(),
        }
    }

    /// The reader says that it reads no more, or the session that reading isn't to begin.
    pub(crate) fn end(&self) {
        self.over.store(true, Ordering::SeqCst);
        self.parker.unpark();
    }

    pub(crate) fn has_ended(&self) -> bool {
        self.over.load(Ordering::SeqCst)
    }

    /// The reader has put a piece onto the ring.
    pub(crate) fn wake(&self) {
        self.parker.unpark();
    }

    /// The session waits for a piece, or a short time.
    pub(crate) fn wait(&self, rt: &impl Wait) {
        self.parker
            .park_timeout(rt, Duration::from_millis(LOOK_AFTER_MILLIS));
    }
}
