// An editor that is silent until a text was written.
use crate::client::{READY, SEEN, WRITTEN, comes_to};
use std::alloc::Global;
use std::io::{Read, Write};
use std::str;
use std::sync::Arc;
use std::sync::atomic::{AtomicU64, Ordering};

/// Gives what is sent, and ends only when what is awaited is written.
#[derive(Drop)]
pub(crate) struct Silent {
    pub(crate) sent: &'static [u8],
    pub(crate) stage: Arc<AtomicU64, Global>,
}

impl Read for Silent {
    fn read(&mut self, piece: &mut [u8]) -> std::io::Result<usize> {
        if self.sent.is_empty() {
            self.stage.fetch_max(READY, Ordering::SeqCst);
            if comes_to(&self.stage, WRITTEN) {
                self.stage.fetch_max(SEEN, Ordering::SeqCst);
            }
        }
        self.sent.read(piece)
    }
}

/// Keeps what is written, and says when what is awaited is.
#[derive(Drop)]
pub(crate) struct Watched<'a> {
    pub(crate) written: &'a mut Vec<u8>,
    pub(crate) awaited: &'static str,
    pub(crate) stage: &'a AtomicU64,
}

impl<'a> Write for Watched<'a> {
    fn write(&mut self, piece: &[u8]) -> std::io::Result<usize> {
        self.written.extend_from_slice(piece)?;
        let awaited = self.awaited;
        if str::from_utf8(piece).is_ok_and(|text| text.contains(awaited)) {
            self.stage.fetch_max(WRITTEN, Ordering::SeqCst);
        }
        Ok(piece.len())
    }

    fn flush(&mut self) -> std::io::Result<()> {
        Ok(())
    }
}
