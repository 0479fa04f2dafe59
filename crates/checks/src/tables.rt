//! Cases of the tables of names and of files, of libraries and of sinks. Each line is an order and what it is given.

use sb_base::{
    FetchFault, Fetched, Files, Found, Library, MemSink, Name, Names, NamesFault, Sink, fetch_file,
};
use sb_show::{Report, spelled};
use std::alloc::Global;

fn put_text(text: Option<&[u8]>, report: &mut Report) {
    report.bytes(text.unwrap_or(b"none"));
}

fn put_order(
    alloc: Global,
    names: &mut Names,
    files: &mut Files,
    order: &str,
    text: &str,
    report: &mut Report,
) {
    let number = text.parse::<u32>().unwrap_or(0);
    if order == "intern" {
        match names.intern(alloc, text.as_bytes()) {
            Ok(Name(number)) => report.number(i128::from(number)),
            Err(NamesFault::Full) => report.word("full"),
            Err(NamesFault::Memory) => report.cut(),
        }
    } else if order == "text" {
        put_text(names.text(Name(number)), report);
    } else if order == "name" {
        put_text(files.name(number), report);
    } else if order == "file" && files.count() < 1_000 {
        match files.number(alloc, text.as_bytes()) {
            Ok(number) => report.number(i128::from(number)),
            Err(_) => report.cut(),
        }
    } else {
        report.number(i128::from(files.count()));
    }
}

/// `tables LIMIT`: the orders of a table of so many names, `intern TEXT` and `text NUMBER`, and of a table of files,
/// `file NAME`, `name NUMBER` and `count`.
pub(crate) fn put_tables(alloc: Global, limit: u32, lines: &str, report: &mut Report) {
    let mut names = Names::new(alloc, limit);
    let mut files = Files::new(alloc);
    for line in lines.split('\n') {
        if line.is_empty() {
            continue;
        }
        let (order, text) = line.split_once(' ').unwrap_or((line, ""));
        report.word(line);
        report.word(" => ");
        put_order(alloc, &mut names, &mut files, order, text, report);
        report.word("\n");
    }
}

fn put_fault(fault: FetchFault, report: &mut Report) {
    match fault {
        FetchFault::Failed => report.word("failed"),
        FetchFault::Memory => report.cut(),
    }
}

/// `fetch LIMIT NAME`: what is found, and all that was fetched so far behind a `<`.
fn put_fetched<L: Library>(
    lib: &mut L,
    name: &[u8],
    limit: usize,
    into: &mut Vec<u8>,
    report: &mut Report,
) {
    match lib.fetch(name, limit, into) {
        Ok(Fetched::Held) => report.word("held"),
        Ok(Fetched::Absent) => report.word("absent"),
        Ok(Fetched::TooLong) => report.word("too long"),
        Err(fault) => put_fault(fault, report),
    }
    report.word(": ");
    report.bytes(into);
}

fn put_whole<L: Library>(alloc: Global, lib: &mut L, name: &[u8], report: &mut Report) {
    match fetch_file(alloc, lib, name) {
        Ok(Found::Whole(bytes)) => {
            report.word("whole: ");
            report.bytes(&bytes);
        }
        Ok(Found::Missing) => report.word("missing"),
        Ok(Found::TooBig) => report.word("too big"),
        Err(fault) => put_fault(fault, report),
    }
}

/// The orders of a library: `fetch LIMIT NAME` and `read NAME`.
pub(crate) fn put_library<L: Library>(
    alloc: Global,
    lib: &mut L,
    lines: &str,
    report: &mut Report,
) {
    let mut into = Vec::new(alloc);
    if into.push(b'<').is_err() {
        report.cut();
    }
    for line in lines.split('\n') {
        let (order, text) = line.split_once(' ').unwrap_or((line, ""));
        if order == "" {
            continue;
        }
        report.word(line);
        report.word(" => ");
        let (limit, name) = text.split_once(' ').unwrap_or(("", text));
        match spelled(alloc, name, b"") {
            Ok(name) if order == "fetch" => {
                let limit = limit.parse::<usize>().unwrap_or(0);
                put_fetched(lib, &name, limit, &mut into, report);
            }
            Ok(name) => put_whole(alloc, lib, &name, report),
            Err(_) => report.cut(),
        }
        report.word("\n");
    }
}

/// `sink CALL`: lines that are put, of which that call fails.
pub(crate) fn put_sink(alloc: Global, failing: Vec<u64>, lines: &str, report: &mut Report) {
    let mut buffer = Vec::new(alloc);
    if buffer.push(b'<').is_err() {
        report.cut();
    }
    let mut sink = MemSink::new(buffer, failing);
    for line in lines.split('\n') {
        if line.is_empty() {
            continue;
        }
        report.word(line);
        report.word(" => ");
        report.choice(sink.put(line.as_bytes()).is_ok(), "done", "failed");
        report.word(": ");
        report.bytes(sink.bytes());
        report.word("\n");
    }
}
