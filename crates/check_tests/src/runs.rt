//! Runs of the program over files in memory.

use crate::keys::fixed_keys;
use crate::maps::SQUARE;
use std::alloc::{AllocError, Global};
use tigertopo_memory_files::FilesInMemory;
use tigertopo_program::start::start;
use tl_record::MeterOut;

/// Words, and the status and the output that they come to, and the error output.
const RUNS: [(&[&str], u8, &str, &str); 5] = [
    (
        &["audit", "SQUARE"],
        0,
        "sound chains=1 segments=4 nodes=1 polygons=1 landmarks=0 rings=2\n",
        "",
    ),
    (
        &["build", "--out", "CERT", "SQUARE"],
        0,
        "built chains=1 segments=4 nodes=1 polygons=1 landmarks=0 rings=2\n",
        "",
    ),
    (
        &["check", "--cert", "CERT", "SQUARE"],
        0,
        "sound chains=1 segments=4 nodes=1 polygons=1 landmarks=0 rings=2\n",
        "",
    ),
    (
        &["build", "--out", "NOTES", "SQUARE"],
        64,
        "",
        "OUT stands and is no certificate\n",
    ),
    (
        &["audit", "SQUARE", "ROUND"],
        4,
        "",
        "stopped Device\n  ROUND: No such file or directory\n",
    ),
];

/// Stores a text under a name.
fn store(
    files: &mut FilesInMemory,
    alloc: Global,
    name: &str,
    text: &str,
) -> Result<(), AllocError> {
    let name = String::from_str(alloc, name)?;
    let bytes = Vec::from_slice(alloc, text.as_bytes())?;
    files.store(name, bytes)
}

/// Words, each a text of its own.
fn texts_of(alloc: Global, words: &[&str]) -> Result<Vec<String>, AllocError> {
    let mut texts = Vec::new(alloc);
    for word in words {
        texts.push(String::from_str(alloc, word)?)?;
    }
    Ok(texts)
}

/// Whether a run over the files comes to this.
fn comes_to(
    files: &mut FilesInMemory,
    alloc: Global,
    words: &[String],
    (status, out, err): (u8, &str, &str),
) -> bool {
    let Ok(hasher) = fixed_keys() else {
        return false;
    };
    let mut printed = Vec::new(alloc);
    let mut told = Vec::new(alloc);
    let ended = start(
        files,
        alloc,
        hasher,
        words,
        &mut MeterOut::new(&mut printed),
        &mut MeterOut::new(&mut told),
    );
    ended == status && printed.as_slice() == out.as_bytes() && told.as_slice() == err.as_bytes()
}

/// How many of the runs come to what they have to, one after the other.
fn right_runs(files: &mut FilesInMemory, alloc: Global) -> usize {
    for (count, (words, status, out, err)) in RUNS.iter().enumerate() {
        let is_right = match texts_of(alloc, words) {
            Ok(words) => comes_to(files, alloc, &words, (*status, out, err)),
            Err(_) => false,
        };
        if !is_right {
            return count;
        }
    }
    RUNS.len()
}

/// Whether a certificate was made, and the notes stand.
fn are_left(files: &FilesInMemory) -> bool {
    match (files.bytes("CERT"), files.bytes("NOTES")) {
        (Some(made), Some(notes)) => {
            made.starts_with(b"TIGERCERT 2\nC 1 4 1 1\n") && notes == b"mine".as_slice()
        }
        _ => false,
    }
}

/// How many of the runs do so over a square and notes, where they leave the files as they have to.
fn right_over(files: &mut FilesInMemory, alloc: Global) -> Option<usize> {
    store(files, alloc, "SQUARE", SQUARE).ok()?;
    store(files, alloc, "NOTES", "mine").ok()?;
    let count = right_runs(files, alloc);
    if are_left(files) { Some(count) } else { None }
}

#[test]
fn runs(rt: HostRuntime) {
    let mut files = FilesInMemory::new(rt.alloc());
    assert!(rt; right_over(&mut files, rt.alloc()) == Some(RUNS.len()));
}
