//! Both ways of reading a message, on bodies from a generator: what is read straight from the tokens
//! of a body is what is read of its value.
use lsp_frame::{Floats, MessageReader, read_both_ways};
use lsp_rows::{RowError, Trial};
use lsp_rpc::Message;
use no_memory::NoMemory;
use std::alloc::{AllocError, Global};

const BODIES: u64 = 100_000;

// Numbers in which no order is seen, the same in each run.
#[derive(Drop)]
struct Dice {
    state: u64,
}

impl Dice {
    fn throw(&mut self) -> usize {
        self.state = self
            .state
            .wrapping_mul(6_364_136_223_846_793_005)
            .wrapping_add(1_442_695_040_888_963_407);
        (self.state >> 33) as usize
    }

    fn one_of<'a>(&mut self, texts: &[&'a str]) -> &'a str {
        let number = self.throw();
        if texts.is_empty() {
            return "";
        }
        texts[number % texts.len()]
    }

    // Once in so many throws.
    fn once_in(&mut self, times: usize) -> bool {
        let number = self.throw();
        times > 0 && number % times == 0
    }
}

// Members of messages, and what is near to them.
const MEMBERS: &[&str] = &[
    "\"jsonrpc\":\"2.0\"",
    "\"jsonrpc\":\"2.0\"",
    "\"jsonrpc\":\"2.0\"",
    "\"jsonrpc\" : \"2.\\u0030\"",
    "\"\\u006asonrpc\":\"2.0\"",
    "\"jsonrpc\":2.0",
    "\"id\":7",
    "\"id\":\"seven\"",
    "\"id\":null",
    "\"id\":-9223372036854775808",
    "\"i\\u0064\":8",
    "\"id\":9223372036854775808",
    "\"method\":\"m\"",
    "\"method\":\"m\"",
    "\"method\":\"m\"",
    "\"other\":[0]",
    "\"\":{\"id\":0}",
    "\"method\":\"\\u006d\\n\\\"\"",
    "\"\\u006dethod\":\"n\"",
    "\"method\":null",
    "\"params\":null",
    "\"params\":[1,{\"b\":\"\",\"a\":[]}]",
    "\"result\":null",
    "\"result\":{\"r\":{\"r\":1},\"r\":2}",
    "\"error\":{\"code\":-32700,\"message\":\"e\"}",
    "\"error\":{\"message\":\"e\",\"data\":null,\"code\":5,\"code\":6}",
    "\"error\":{\"code\":1,\"message\":\"e\",\"other\":0}",
    "\"error\":null",
];

const NAMES: &[&str] = &[
    "jsonrpc",
    "id",
    "method",
    "params",
    "result",
    "error",
    "p\\u0061rams",
    "\\u0072esult",
    "err\\u006Fr",
    "Id",
    "",
    "\\u0000",
    "\\ud83d\\ude00",
    "other",
];

const VALUES: &[&str] = &[
    "null",
    "true",
    "0",
    "-0",
    "-1",
    "01",
    "1.0",
    "1e3",
    "1E+400",
    "9223372036854775807",
    "9223372036854775808",
    "18446744073709551615",
    "18446744073709551616",
    "-9223372036854775808",
    "-9223372036854775809",
    "\"2.0\"",
    "\"\"",
    "\"\\u0000\"",
    "\"\\ud800\"",
    "\"\\udc00\\ud800\"",
    "\"\\ud83d\\ude00 \\\\ \\/ \\b\"",
    "\"\\x\"",
    "\"two\nlines\"",
    "[]",
    "{}",
    "[1,[2,{\"a\":[3.5]}]]",
    "[1,[2,{\"a\":[35]}]]",
    "{\"b\":1,\"a\":{\"b\":2,\"b\":[3]},\"\\u0061\":4}",
    "{\"b\":1,\"b\":1.5,\"b\":2}",
    "[1,]",
    "{\"a\" 1}",
    "nul",
];

// What stands before a body, between its members and after it.
const SPACES: &[&str] = &["", "", "", "", " ", "\r\n\t", "x", "{"];

const COMMAS: &[&str] = &[",", ",", ",", ",", " ,\n", ","];

const ENDS: &[&str] = &["", "", "", "", " \n", "", "}", "\u{0}"];

// Arrays and objects in one another, around the depth at which a text is refused.
fn push_deep(dice: &mut Dice, out: &mut String) -> Result<(), NoMemory> {
    let depth = 124 + dice.throw() % 6;
    let object = dice.once_in(2);
    for _ in 0..depth {
        out.push_str(if object { "{\"a\":" } else { "[" })?;
    }
    out.push_str("0")?;
    for _ in 0..depth {
        out.push_str(if object { "}" } else { "]" })?;
    }
    Ok(())
}

fn push_member(dice: &mut Dice, out: &mut String) -> Result<(), NoMemory> {
    if !dice.once_in(8) {
        out.push_str(dice.one_of(MEMBERS))?;
        return Ok(());
    }
    out.push_str("\"")?;
    out.push_str(dice.one_of(NAMES))?;
    out.push_str("\":")?;
    if dice.once_in(8) {
        push_deep(dice, out)
    } else {
        out.push_str(dice.one_of(VALUES))?;
        Ok(())
    }
}

// A body: an object of up to eight members, with faults here and there.
fn body(alloc: Global, dice: &mut Dice) -> Result<String, NoMemory> {
    let mut out = String::new(alloc);
    let often = dice.once_in(2);
    out.push_str(if often { "" } else { dice.one_of(SPACES) })?;
    out.push_str("{")?;
    if often {
        out.push_str("\"jsonrpc\":\"2.0\",\"method\":\"\",")?;
    }
    let members = dice.throw() % 6 + 1;
    for i in 0..members {
        if i > 0 && !dice.once_in(64) {
            out.push_str(dice.one_of(COMMAS))?;
        }
        push_member(dice, &mut out)?;
    }
    out.push_str("}")?;
    out.push_str(dice.one_of(ENDS))?;
    Ok(out)
}

// How many bodies were read both ways, by their value alone, and neither way.
#[derive(Drop)]
struct Counts {
    both: u64,
    by_value: u64,
    none: u64,
}

// Nothing, where there is no message.
fn shown(alloc: Global, message: &Option<Message>) -> Result<String, AllocError> {
    match message {
        Some(message) => format!(in alloc; "{message:?}"),
        None => Ok(String::new(alloc)),
    }
}

fn count(
    trial: &mut Trial,
    alloc: Global,
    counts: &mut Counts,
    floats: Floats,
    text: &str,
    reader: &mut MessageReader,
) -> Result<(), NoMemory> {
    let (short, long) = read_both_ways(alloc, reader, floats, text);
    let read = (short.is_some(), long.is_some());
    let found = shown(alloc, &short);
    drop(short);
    let wanted = shown(alloc, &long);
    drop(long);
    match read {
        (true, _) => {
            trial.text(text, found, wanted?.as_str());
            counts.both = counts.both.saturating_add(1);
        }
        (false, true) => counts.by_value = counts.by_value.saturating_add(1),
        (false, false) => counts.none = counts.none.saturating_add(1),
    }
    Ok(())
}

// Reads bodies both ways.
fn count_bodies(
    trial: &mut Trial,
    alloc: Global,
    counts: &mut Counts,
    floats: Floats,
) -> Result<(), NoMemory> {
    let mut dice = Dice { state: 1 };
    let mut reader = MessageReader::new();
    for _ in 0..BODIES {
        let text = body(alloc, &mut dice)?;
        count(trial, alloc, counts, floats, text.as_str(), &mut reader)?;
    }
    Ok(())
}

const NONE: Counts = Counts {
    both: 0,
    by_value: 0,
    none: 0,
};

#[test]
fn both_ways_read_the_same_message(rt: HostRuntime) -> Result<(), RowError> {
    let alloc = rt.alloc();
    let mut trial = Trial::new(alloc);
    let mut counts = NONE;
    count_bodies(&mut trial, alloc, &mut counts, Floats::Refused)?;
    // How many there are of each, as a reader in Python counted them.
    trial.same("read both ways", counts.both, 14_290);
    trial.same("read by the value alone", counts.by_value, 16_050);
    trial.same("read neither way", counts.none, 69_660);
    trial.end()
}
