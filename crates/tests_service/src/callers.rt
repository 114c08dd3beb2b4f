// Callers that talk beside one another.
use lsp_rows::{RowError, Trial};
use lsp_rpc::NoMemory;
use lsp_server::MemorySink;
use lsp_shared::SharedDesk;
use lsp_talk::{Gate, Open, talk_with};
use std::alloc::Global;
use std::hint::spin_loop;
use std::sync::Wait;
use std::sync::atomic::{AtomicU64, Ordering};
use std::thread::Threads;

// How often the first caller looks whether the second has come.
const LOOKS: u64 = 100_000_000;

/// Lets the first caller pass only when the second has come.
#[derive(Drop)]
struct AfterTheSecond {
    come: AtomicU64,
    missed: AtomicU64,
}

impl Gate for AfterTheSecond {
    fn pass(&self, number: u64) {
        match number {
            1 => self.await_second(),
            2 => self.come.store(1, Ordering::SeqCst),
            _ => {}
        }
    }
}

impl AfterTheSecond {
    // Notes a failure where the second never comes.
    fn await_second(&self) {
        for _ in 0..LOOKS {
            if self.come.load(Ordering::SeqCst) != 0 {
                return;
            }
            spin_loop();
        }
        self.missed.store(1, Ordering::SeqCst);
    }
}

// Tries that a talk of so many clones and messages, which are within its bounds, writes that line.
fn try_talk<R: Threads + Wait + Sync, G: Gate + Sync>(
    rt: &R,
    trial: &mut Trial,
    alloc: Global,
    clones: u64,
    messages: u64,
    gate: &G,
    line: &str,
) -> Result<(), NoMemory> {
    let (desk, seat) = SharedDesk::new(alloc)?;
    let mut sink = MemorySink::new(alloc, Vec::new(alloc));
    let owner = desk.owner(rt, seat);
    let (status, owner) = talk_with(
        rt,
        alloc,
        clones.min(4),
        messages.min(1000),
        owner,
        gate,
        &mut sink,
    );
    let share = owner.share();
    drop(owner);
    trial.same(line, (status, share), (0, 1 << 63));
    trial.same(line, sink.bytes(), line.as_bytes());
    Ok(())
}

#[test]
fn callers_beside(rt: HostRuntime) -> Result<(), RowError> {
    let mut trial = Trial::new(rt.alloc());
    let gate = AfterTheSecond {
        come: AtomicU64::new(0),
        missed: AtomicU64::new(0),
    };
    try_talk(
        &rt,
        &mut trial,
        rt.alloc(),
        2,
        3,
        &gate,
        "sent 6 delivered 6\n",
    )?;
    let missed = gate.missed.load(Ordering::SeqCst);
    trial.same("the second didn't come", missed, 0);
    trial.end()
}

// Clones, messages, and the line.
const TALKS: &[(u64, u64, &str)] = &[
    (1, 0, "sent 0 delivered 0\n"),
    (1, 1, "sent 1 delivered 1\n"),
    (3, 7, "sent 21 delivered 21\n"),
    (4, 1000, "sent 4000 delivered 4000\n"),
];

#[test]
fn lines(rt: HostRuntime) -> Result<(), RowError> {
    let mut trial = Trial::new(rt.alloc());
    for (clones, messages, line) in TALKS {
        try_talk(
            &rt,
            &mut trial,
            rt.alloc(),
            *clones,
            *messages,
            &Open,
            *line,
        )?;
    }
    trial.end()
}
