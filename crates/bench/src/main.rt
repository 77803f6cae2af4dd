//! What parts of the work take, each by itself. It prints what was found and, on the error output, the microseconds that
//! each step takes.
//!
//! - `records FILES..` counts the records of files, each a text of its own: what reading and judging cost without what is
//!   made of the records.
//! - `tree SEGMENTS` makes the streets of a county, at least so many segments, packs them into a tree, and searches with it
//!   flat and in boxes. It tells how many pairs each search tested.
//! - `cert make CHAINS FILE` makes the certificate of a county of so many chains, ten lines a chain, and writes it into FILE;
//!   `cert read FILE` reads the one that stands in FILE, and `cert parts FILE` its parts one after the other, each of which
//!   is let go before the next is read. Each tells how many nodes, rounds and walks there are.
#![tactic(auto)]

mod answer;
mod certificates;
mod county;
mod failure;
mod files;
mod made;
mod records;
mod steps;
mod streets;
mod trees;

use crate::answer::Answer;
use crate::failure::Failure;
use std::env;
use std::process::ExitCode;

/// The words behind the program's name.
fn words_of(rt: &HostRuntime) -> Result<Vec<String>, Failure> {
    let Ok(words) = env::args(rt) else {
        return Err(Failure::Words);
    };
    match words.skip(1).collect::<Vec<String>>(rt.alloc()) {
        Ok(words) => Ok(words),
        Err(_) => Err(Failure::Memory),
    }
}

/// The number that a word spells.
fn number(word: &str) -> Result<u32, Failure> {
    match word.parse() {
        Ok(number) => Ok(number),
        Err(_) => Err(Failure::Usage),
    }
}

/// Does what a command asks of one word.
fn answer_of_one(rt: &HostRuntime, command: &str, word: &str) -> Result<Answer, Failure> {
    if command != "tree" {
        return Err(Failure::Usage);
    }
    trees::search(rt, number(word)?)
}

/// Does what a command asks of two words.
fn answer_of_two(
    rt: &HostRuntime,
    command: &str,
    first: &str,
    second: &str,
) -> Result<Answer, Failure> {
    if command != "cert" {
        return Err(Failure::Usage);
    }
    match first {
        "read" => certificates::read(rt, second),
        "parts" => certificates::count(rt, second),
        _ => Err(Failure::Usage),
    }
}

/// Does what a command asks of three words.
fn answer_of_three(
    rt: &HostRuntime,
    command: &str,
    first: &str,
    second: &str,
    third: &str,
) -> Result<Answer, Failure> {
    if command != "cert" || first != "make" {
        return Err(Failure::Usage);
    }
    certificates::make(rt, number(second)?, third)
}

/// Does what a command asks of the words behind it.
fn answer_of(rt: &HostRuntime, command: &str, words: &[String]) -> Result<Answer, Failure> {
    if command == "records" {
        return records::count(rt, words);
    }
    match words {
        [word] => answer_of_one(rt, command, word.as_str()),
        [first, second] => answer_of_two(rt, command, first.as_str(), second.as_str()),
        [first, second, third] => answer_of_three(
            rt,
            command,
            first.as_str(),
            second.as_str(),
            third.as_str(),
        ),
        _ => Err(Failure::Usage),
    }
}

/// Does what the words ask.
fn run(rt: &HostRuntime, words: &[String]) -> Result<Answer, Failure> {
    match words {
        [command, others @ ..] => answer_of(rt, command.as_str(), others),
        [] => Err(Failure::Usage),
    }
}

/// What the words of the command line ask for, done.
fn run_words(rt: &HostRuntime) -> Result<Answer, Failure> {
    match words_of(rt) {
        Ok(words) => run(rt, words.as_slice()),
        Err(stop) => Err(stop),
    }
}

/// Prints what was found, or why nothing was, and gives whether all went well.
fn print_ended(rt: &HostRuntime, ended: Result<Answer, Failure>) -> bool {
    match ended {
        Ok(answer) => println!(rt; "{answer}").is_ok(),
        Err(stop) => {
            let _ = eprintln!(rt; "{}", stop.text());
            false
        }
    }
}

fn main(rt: HostRuntime) -> ExitCode {
    if print_ended(&rt, run_words(&rt)) {
        ExitCode::SUCCESS
    } else {
        ExitCode::FAILURE
    }
}
