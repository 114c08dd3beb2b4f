//! Whether what the seats were told is what a desk that one thread uses replies.
use crate::calls::{Reply, Told};
use crate::threads::Made;
use lsp_desk::PlainDesk;
use lsp_shared::NoMemory;
use std::alloc::Global;
use std::fmt;

/// What is true of the calls of all seats.
#[derive(Drop)]
pub struct Verdict {
    /// How many entries the desk's history has.
    entries: u64,
    /// How many calls were noted.
    noted: usize,
    /// How many of them were out of memory.
    lacked: u64,
    /// The noted calls stand at the places 0, 1, 2 and so on of the history, each at one.
    places: bool,
    /// The tickets that were given are 0, 1, 2 and so on, in the order of the places.
    tickets: bool,
    /// Each reply is what a desk that one thread uses replies at that place.
    replies: bool,
    /// The owner has the whole share again.
    whole: bool,
    /// Calls of one seat stand between the calls of another.
    overlapped: bool,
}

impl Verdict {
    pub fn of(alloc: Global, made: Made) -> Result<Verdict, NoMemory> {
        let mut all = made.told;
        all.sort_by_key(|told| told.place)?;
        let mut verdict = Verdict {
            entries: made.entries,
            noted: all.len(),
            lacked: 0,
            places: true,
            tickets: true,
            replies: true,
            whole: made.share == 1 << 63,
            overlapped: made.overlapped,
        };
        let mut desk = PlainDesk::new(alloc);
        let mut tickets = 0u64;
        for (place, told) in all.iter().enumerate() {
            verdict.places &= told.place == place as u64;
            if let Some(ticket) = told.ticket() {
                verdict.tickets &= ticket == tickets;
                tickets = tickets.wrapping_add(1);
            }
            if told.lacked_memory() {
                verdict.lacked = verdict.lacked.saturating_add(1);
                continue;
            }
            let again = told.again(alloc, &mut desk)?;
            verdict.replies &= is_same(alloc, &again, &told.reply)?;
        }
        Ok(verdict)
    }

    /// Whether the notes are those of one desk, no call lacked memory, and each seat came back.
    pub fn is_right(&self) -> bool {
        self.places && self.tickets && self.replies && self.whole && self.lacked == 0
    }
}

/// Whether two replies have the same text.
fn is_same(alloc: Global, one: &Reply, other: &Reply) -> Result<bool, NoMemory> {
    Ok(format!(in alloc; "{one:?}")? == format!(in alloc; "{other:?}")?)
}

impl fmt::Display for Verdict {
    fn fmt<W: fmt::Write>(&self, f: &mut fmt::Formatter<W>) -> fmt::Result {
        write!(
            f,
            "{} entries, {} of them noted, {} out of memory: each place once: {}; each ticket once: {}; each reply in its place: {}; whole share: {}; seats overlapped: {}",
            self.entries,
            self.noted,
            self.lacked,
            self.places,
            self.tickets,
            self.replies,
            self.whole,
            self.overlapped
        )
    }
}
