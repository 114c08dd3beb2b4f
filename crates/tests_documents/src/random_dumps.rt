//! Random dumps, on which queries are answered as by plain walks.
use crate::dump::{Dump, Size, some_position, some_uri};
use crate::plain::{Answer, Query};
use crate::rows::{NONE_FAILS, run};
use lsp_base::Position;
use lsp_index::{Request, answer_each};
use lsp_rows::{RowError, Trial};
use lsp_uri::Uri;
use rand_core::utils::NextWord;
use rand_pcg::Pcg32;
use std::alloc::{AllocError, Global};

// 12,000 queries, and 7,900.
const SMALL: &[Size] = &[
    Size {
        entries: 12,
        ids: 1,
        lines: 1,
        dumps: 100,
        queries: 20,
        rounds: 0,
        positions: 0,
        least: 5,
    },
    Size {
        entries: 40,
        ids: 2,
        lines: 1,
        dumps: 200,
        queries: 20,
        rounds: 0,
        positions: 0,
        least: 150,
    },
    Size {
        entries: 120,
        ids: 3,
        lines: 1,
        dumps: 300,
        queries: 20,
        rounds: 0,
        positions: 0,
        least: 1_200,
    },
    Size {
        entries: 500,
        ids: 8,
        lines: 2,
        dumps: 395,
        queries: 4,
        rounds: 4,
        positions: 4,
        least: 2_800,
    },
];

// 50 queries one by one, and 10,000 in rounds.
const LARGE: &[Size] = &[Size {
    entries: 10_000,
    ids: 250,
    lines: 60,
    dumps: 1,
    queries: 50,
    rounds: 20,
    positions: 500,
    least: 2_500,
}];

const ASKED: [(Request, &str, &str); 3] = [
    (Request::Definition, "definition", "textDocument/definition"),
    (Request::References, "references", "textDocument/references"),
    (Request::Hover, "hover", "textDocument/hover"),
];

fn some_query(random: &mut Pcg32, size: &Size) -> Query {
    let (request, word, label) = ASKED[(random.next_word() % 3) as usize];
    Query {
        request,
        word,
        label,
        uri: some_uri(random),
        position: some_position(random, size),
    }
}

// What the program gives for the query.
fn asked(alloc: Global, dump: &str, query: &Query) -> Result<String, AllocError> {
    let Position { line, character } = query.position;
    let words = format!(in alloc; "{} {} {line} {character}", query.word, query.uri)?;
    run(alloc, words.as_str(), dump.as_bytes(), 4096, NONE_FAILS)
}

// What is given for the query at each of the positions.
fn asked_each(alloc: Global, dump: &str, query: &Query, positions: &[Position]) -> Vec<String> {
    if let Ok(uri) = Uri::parse(alloc, query.uri) {
        let given = answer_each(alloc, query.request, uri, positions, dump.as_bytes());
        if let Ok(Some(lines)) = given {
            return lines;
        }
    }
    Vec::new(alloc)
}

// What is tried, and how many queries found something.
#[derive(Drop)]
struct Tried {
    alloc: Global,
    dump: Dump,
    positions: Vec<Position>,
    answer: Answer,
    trial: Trial,
    found: u32,
}

impl Tried {
    // Answers the query by plain walks.
    fn answer(&mut self, query: &Query) {
        self.answer.fill(&self.dump, query);
        if self.answer.line.len() > 7 {
            self.found = self.found.saturating_add(1);
        }
    }

    fn query(&mut self, query: &Query) {
        self.answer(query);
        let given = asked(self.alloc, self.dump.text.as_str(), query);
        self.trial
            .text(query.word, given, self.answer.line.as_str());
    }

    // The same query at some positions.
    fn round(&mut self, random: &mut Pcg32, size: &Size) {
        let mut query = some_query(random, size);
        self.positions.clear();
        for _ in 0..size.positions {
            let _ = self.positions.push(some_position(random, size));
        }
        let dump = self.dump.text.as_str();
        let lines = asked_each(self.alloc, dump, &query, &self.positions);
        self.trial
            .same("lines", lines.len(), size.positions as usize);
        for (i, line) in lines.iter().enumerate() {
            if let Some(position) = self.positions.get(i) {
                query.position = *position;
                self.answer(&query);
                let answer = self.answer.line.as_str().strip_prefix("0 ");
                self.trial.same(query.word, Some(line.as_str()), answer);
            }
        }
    }

    // All queries of the random dumps of a size.
    fn dumps(&mut self, random: &mut Pcg32, size: &Size) {
        self.found = 0;
        for _ in 0..size.dumps {
            self.dump.fill(random, size);
            for _ in 0..size.queries {
                self.query(&some_query(random, size));
            }
            for _ in 0..size.rounds {
                self.round(random, size);
            }
        }
        self.trial.is_true(self.found, self.found >= size.least);
    }
}

// All dumps of these sizes, by the random numbers of a stream.
fn walks(alloc: Global, stream: u64, sizes: &[Size]) -> Result<(), RowError> {
    let mut tried = Tried {
        alloc,
        dump: Dump {
            text: String::new(alloc),
            vertices: Vec::new(alloc),
            edges: Vec::new(alloc),
        },
        positions: Vec::new(alloc),
        answer: Answer {
            line: String::new(alloc),
            places: Vec::new(alloc),
            results: Vec::new(alloc),
        },
        trial: Trial::new(alloc),
        found: 0,
    };
    let mut random = Pcg32::new(20261129, stream);
    for size in sizes {
        tried.dumps(&mut random, size);
    }
    tried.trial.end()
}

#[test]
fn plain_walks_over_small_dumps(rt: HostRuntime) -> Result<(), RowError> {
    walks(rt.alloc(), 54, SMALL)
}

#[test]
fn plain_walks_over_a_large_dump(rt: HostRuntime) -> Result<(), RowError> {
    walks(rt.alloc(), 54, LARGE)
}

#[test]
fn plain_walks_over_another_large_dump(rt: HostRuntime) -> Result<(), RowError> {
    walks(rt.alloc(), 55, LARGE)
}
