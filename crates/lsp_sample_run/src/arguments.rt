// What the program's arguments ask for.
ghost use Rattle.std.specs.Prelude.{◌≡◌, ◌≤◌, IfSome};
ghost use Rattle.lsp_sample_run.specs.Arguments.{positive_of, count_of, max_and_rounds, session_of, clone_count_of, message_count_of, clones_of, form_asked, IsForm};

use lsp_program::number;

/// How a session is served.
#[derive(Clone, Copy, Debug, PartialEq, Eq)]
pub struct Setting {
    /// The most calls that are polled in a round.
    pub max: usize,
    /// The rounds of polls after each message.
    pub rounds: u64,
}

/// How a session is made up.
#[derive(Clone, Copy, Debug, PartialEq, Eq)]
pub struct MadeUp {
    /// Where the drawing of messages begins.
    pub seed: u64,
    /// How many messages stand between `initialize` and `shutdown`.
    pub count: u64,
}

/// How callers talk.
#[derive(Clone, Copy, Debug, PartialEq, Eq)]
pub struct Clones {
    /// How many callers there are.
    pub count: u64,
    /// How many messages each of them sends.
    pub messages: u64,
}

/// What the program does.
#[derive(Clone, Copy, Debug, PartialEq, Eq)]
pub enum Form {
    /// Serves a session over its source and its sink.
    Serve(Setting),
    /// Serves the document server over its source and its sink, as by default, and lets in floats
    /// and empty params.
    Docs,
    /// Serves a session over its source and its sink, while a thread reads.
    Pump(Setting),
    /// Serves a made-up session in memory, and writes its summary.
    Bulk(MadeUp),
    /// Serves one message in memory while callers talk, and writes how much they said.
    Talk(Clones),
}

pub(crate) const DEFAULT: Setting = Setting { max: 4, rounds: 8 };

/// The most messages of a made-up session.
pub const MOST: u64 = 100_000;

/// The most callers of a talk.
pub const MOST_CLONES: u64 = 4;

/// The most messages of a caller.
pub const MOST_SAID: u64 = 1000;

/// What the arguments ask for: none, `serve`, `serve MAX ROUNDS`, `docs`, `pump MAX ROUNDS`,
/// `bulk SEED COUNT`, or `talk CLONES MESSAGES`, where all are decimal numbers, MAX and ROUNDS of at
/// least 1, COUNT from 1 to [`MOST`], CLONES from 1 to [`MOST_CLONES`], and MESSAGES at most
/// [`MOST_SAID`].
pub(crate) fn read_arguments(arguments: &Vec<String>) -> Option<Form>
    ensures value { result ≡ form_asked arguments.now.items }
    ensures form { IfSome result IsForm }
{
    match arguments.as_slice() {
        [] => Some(Form::Serve(DEFAULT)),
        [argument] if argument.as_str() == "serve" => Some(Form::Serve(DEFAULT)),
        [argument] if argument.as_str() == "docs" => Some(Form::Docs),
        [argument, max, rounds] if argument.as_str() == "serve" => {
            Some(Form::Serve(numbers(max.as_str(), rounds.as_str())?))
        }
        [argument, max, rounds] if argument.as_str() == "pump" => {
            Some(Form::Pump(numbers(max.as_str(), rounds.as_str())?))
        }
        [argument, seed, count] if argument.as_str() == "bulk" => {
            Some(Form::Bulk(session(seed.as_str(), count.as_str())?))
        }
        [argument, count, messages] if argument.as_str() == "talk" => {
            Some(Form::Talk(talk(count.as_str(), messages.as_str())?))
        }
        _ => None,
    }
}

fn numbers(max: &str, rounds: &str) -> Option<Setting>
    ensures value { result ≡ max_and_rounds max.now rounds.now }
    ensures positive { IfSome result (λ setting. (1 ≤ setting.max) × (1 ≤ setting.rounds)) }
{
    match (positive(max), positive(rounds)) {
        (Some(max), Some(rounds)) => Some(Setting {
            max: max as usize,
            rounds,
        }),
        _ => None,
    }
}

fn session(seed: &str, count: &str) -> Option<MadeUp>
    ensures value { result ≡ session_of seed.now count.now }
    ensures few { IfSome result (λ session. session.count ≤ MOST) }
{
    match (number(seed), few(count)) {
        (Some(seed), Some(count)) => Some(MadeUp { seed, count }),
        _ => None,
    }
}

fn few(argument: &str) -> Option<u64>
    ensures value { result ≡ count_of argument.now }
    ensures few { IfSome result (λ n. n ≤ MOST) }
{
    match positive(argument) {
        Some(n) if n <= MOST => Some(n),
        _ => None,
    }
}

fn talk(count: &str, messages: &str) -> Option<Clones>
    ensures value { result ≡ clones_of count.now messages.now }
    ensures few { IfSome result (λ clones. (clones.count ≤ MOST_CLONES)
        × (clones.messages ≤ MOST_SAID)) }
{
    match (clone_count(count), message_count(messages)) {
        (Some(count), Some(messages)) => Some(Clones { count, messages }),
        _ => None,
    }
}

fn clone_count(argument: &str) -> Option<u64>
    ensures value { result ≡ clone_count_of argument.now }
    ensures few { IfSome result (λ n. n ≤ MOST_CLONES) }
{
    match positive(argument) {
        Some(n) if n <= MOST_CLONES => Some(n),
        _ => None,
    }
}

fn message_count(argument: &str) -> Option<u64>
    ensures value { result ≡ message_count_of argument.now }
    ensures few { IfSome result (λ n. n ≤ MOST_SAID) }
{
    match number(argument) {
        Some(n) if n <= MOST_SAID => Some(n),
        _ => None,
    }
}

fn positive(argument: &str) -> Option<u64>
    ensures value { result ≡ positive_of argument.now }
    ensures positive { IfSome result (λ n. 1 ≤ n) }
{
    match number(argument) {
        Some(n) if n > 0 => Some(n),
        _ => None,
    }
}
