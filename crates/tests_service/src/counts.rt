// A thread counts, and its answer goes out while a read waits.
use crate::client::{SEEN, new_stage};
use crate::served::frames;
use crate::silent::{Silent, Watched};
use lsp_examples::count_beside;
use lsp_rows::{RowError, Trial};
use std::process::ExitCode;
use std::sync::Arc;
use std::sync::atomic::Ordering;

const SENT: &str = concat!(
    "Content-Length: 75\r\n\r\n",
    r#"{"jsonrpc":"2.0","method":"initialize","params":{"capabilities":{}},"id":1}"#,
    "Content-Length: 108\r\n\r\n",
    r#"{"jsonrpc":"2.0","method":"workspace/executeCommand","params":{"command":"primes","arguments":["x"]},"id":2}"#,
    "Content-Length: 112\r\n\r\n",
    r#"{"jsonrpc":"2.0","method":"workspace/executeCommand","params":{"command":"primes","arguments":[1000001]},"id":3}"#,
    "Content-Length: 108\r\n\r\n",
    r#"{"jsonrpc":"2.0","method":"workspace/executeCommand","params":{"command":"primes","arguments":[100]},"id":4}"#,
);

// There are 25 primes below 100.
const COUNTED: &str = r#"{"jsonrpc":"2.0","result":25,"id":4}"#;

const WRITTEN: &[(usize, &str)] = &[
    (
        101,
        r#"{"jsonrpc":"2.0","result":{"capabilities":{"executeCommandProvider":{"commands":["primes"]}}},"id":1}"#,
    ),
    (
        75,
        r#"{"jsonrpc":"2.0","error":{"code":-32602,"message":"Invalid params"},"id":2}"#,
    ),
    (
        75,
        r#"{"jsonrpc":"2.0","error":{"code":-32602,"message":"Invalid params"},"id":3}"#,
    ),
    (36, COUNTED),
];

#[test]
fn counted_in_silence(rt: HostRuntime) -> Result<(), RowError> {
    let alloc = rt.alloc();
    let stage = new_stage(alloc)?;
    let input = Silent {
        sent: SENT.as_bytes(),
        stage: Arc::try_clone(&stage)?,
    };
    let mut written = Vec::new(alloc);
    let output = Watched {
        written: &mut written,
        awaited: COUNTED,
        stage: &stage,
    };

    // The input ends before an exit.
    let status = count_beside(&rt, alloc, input, output);
    let mut trial = Trial::new(alloc);
    trial.is_true("its status", status == ExitCode::FAILURE);
    trial.same(
        "written before the read returned",
        stage.load(Ordering::SeqCst),
        SEEN,
    );
    let expected = frames(alloc, WRITTEN)?;
    trial.same("what is written", written.as_slice(), expected.as_bytes());
    trial.end()
}
