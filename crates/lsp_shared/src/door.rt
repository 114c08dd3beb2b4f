//! Where seats wait until the desk is free.
use std::hint::spin_loop;
use std::sync::Wait;
use std::sync::atomic::{AtomicU64, Ordering};

// How often a seat looks whether the desk is free before it sleeps.
const LOOKS: u32 = 50;

/// Where seats sleep while another has the desk. No clause speaks of it: that a seat which sleeps is
/// woken is tested.
#[derive(Drop)]
pub struct Door {
    // How often it was opened.
    opened: AtomicU64,
    // Not 0 where a seat may sleep here.
    awaited: AtomicU64,
}

/// How long a seat has waited already.
#[derive(Drop)]
pub struct Patience {
    looks: u32,
}

impl Patience {
    pub fn new() -> Patience {
        Patience { looks: LOOKS }
    }

    /// Whether to look again at once. Otherwise the seat sleeps.
    pub fn lasts(&mut self) -> bool {
        if self.looks == 0 {
            return false;
        }
        self.looks -= 1;
        spin_loop();
        true
    }
}

impl Door {
    pub fn new() -> Door {
        Door {
            opened: AtomicU64::new(0),
            awaited: AtomicU64::new(0),
        }
    }

    /// Says that a seat will sleep here, and gives what `sleep` wants. The seat has to look once more
    /// whether the desk is free before it sleeps.
    pub fn listen(&self) -> u32 {
        let opened = self.opened.load(Ordering::SeqCst);
        self.awaited.store(1, Ordering::SeqCst);
        (opened % (1 << 32)) as u32
    }

    /// Sleeps unless the door was opened since `listen`, until it is opened.
    pub fn sleep<R: Wait>(&self, rt: &R, heard: u32) {
        self.opened.park(rt, heard);

        // Others may sleep here still: whoever has the desk next opens the door to one of them.
        self.awaited.store(1, Ordering::SeqCst);
    }

    /// Wakes one seat that sleeps here, if one may.
    pub fn open(&self) {
        if self.awaited.load(Ordering::SeqCst) != 0 && self.awaited.swap(0, Ordering::SeqCst) != 0 {
            self.opened.fetch_add(1, Ordering::SeqCst);
            self.opened.wake_one();
        }
    }
}
