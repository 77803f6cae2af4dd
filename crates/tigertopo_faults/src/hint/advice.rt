//! What helps beyond the place of a refused line: other columns, and what a file is that holds no records.

ghost use Rattle.std.specs.Prelude.{◌≡◌, map, string_bytes};
ghost use Rattle.tigertopo_faults.specs.Hint.Advice.{other_columns, is_read, reads_otherwise, otherwise_text};
ghost use Rattle.tigertopo_faults.specs.Hint.Advice.{is_archive, is_compressed, is_shapefile, is_wide, is_marked, form_of, words_of, form_text};
ghost use Rattle.tigertopo_faults.specs.Hint.Advice.{asking, asks_for_records, may_ask_for_records, switches_for, unpacked_switches};
ghost use Rattle.tigertopo_faults.specs.Hint.Advice.{piped_text, command_instead, words_instead, word_instead};

use crate::hint::asking::Asking;
use crate::shown::{byte_at, print_name, print_shell_word};
use tl_cert_output::Page;
use tl_record::{Judgement, Options, judge_line, layout_with};

/// What a file is that is none of records.
#[derive(Clone, Copy)]
pub enum FileForm {
    /// An archive of files, as the Census Bureau released a county.
    Archive,
    /// A compressed file.
    Compressed,
    /// A shapefile.
    Shapefile,
    /// UTF-16 text.
    Wide,
    /// A text behind a byte order mark.
    Marked,
}

/// Whether a line is one of type I that the columns would take that weren't asked for. It has this number in its file.
pub fn reads_otherwise(options: Options, number: u64, line: &[u8]) -> bool
    ensures { result ≡ reads_otherwise options number line.now }
{
    if byte_at(line, 0) != b'I' {
        return false;
    }
    is_read(&judge_line(&layout_with(other_columns(options)), number, line))
}

// The columns of type I that weren't asked for.
fn other_columns(options: Options) -> Options
    ensures { result ≡ other_columns options }
{
    Options {
        released: !options.released,
        ..options
    }
}

// Whether a line holds a record.
fn is_read(judgement: &Judgement) -> bool
    ensures { result ≡ is_read judgement.now }
{
    match judgement {
        Judgement::Read(_) => true,
        Judgement::PassedOver | Judgement::Refused(_) => false,
    }
}

/// Prints that type I lines read by the columns that weren't asked for.
pub fn print_otherwise<P: Page>(options: Options, page: &mut P)
    ensures { P.adds page.old page.new (otherwise_text options) }
{
    if options.released {
        page.add(b"  these type I lines read without --released\n");
    } else {
        page.add(b"  these type I lines read with --released\n");
    }
}

/// What a file is, by its first line, where it is none of records.
pub fn form_of(line: &[u8]) -> Option<FileForm>
    ensures { result ≡ form_of line.now }
{
    if is_archive(line) {
        return Some(FileForm::Archive);
    }
    if is_compressed(line) {
        return Some(FileForm::Compressed);
    }
    if is_shapefile(line) {
        return Some(FileForm::Shapefile);
    }
    if is_wide(line) {
        return Some(FileForm::Wide);
    }
    if is_marked(line) {
        return Some(FileForm::Marked);
    }
    None
}

// Whether the line begins as an archive does.
fn is_archive(line: &[u8]) -> bool
    ensures { result ≡ is_archive line.now }
{
    byte_at(line, 0) == b'P' && byte_at(line, 1) == b'K'
}

// Whether the line begins as a compressed file does.
fn is_compressed(line: &[u8]) -> bool
    ensures { result ≡ is_compressed line.now }
{
    byte_at(line, 0) == 0x1f && byte_at(line, 1) == 0x8b
}

// Whether the line is the first of a shapefile.
fn is_shapefile(line: &[u8]) -> bool
    ensures { result ≡ is_shapefile line.now }
{
    (line.len() == 3 && byte_at(line, 0) == 0)
        && (byte_at(line, 1) == 0 && byte_at(line, 2) == 0x27)
}

// Whether the line begins with the byte order mark of UTF-16 text.
fn is_wide(line: &[u8]) -> bool
    ensures { result ≡ is_wide line.now }
{
    (byte_at(line, 0) == 0xff && byte_at(line, 1) == 0xfe)
        || (byte_at(line, 0) == 0xfe && byte_at(line, 1) == 0xff)
}

// Whether the line begins with the byte order mark of UTF-8 text.
fn is_marked(line: &[u8]) -> bool
    ensures { result ≡ is_marked line.now }
{
    (byte_at(line, 0) == 0xef && byte_at(line, 1) == 0xbb) && byte_at(line, 2) == 0xbf
}

/// Prints what a file of this name is, and a line that has the command read what it holds.
pub fn print_form<P: Page>(name: &str, by: Asking<'_>, form: FileForm, page: &mut P)
    ensures { P.adds page.old page.new (form_text name.now (asking by.entry) form) }
{
    page.add(b"  ");
    print_name(name, page);
    print_words(name, by, form, page);
    page.add(b"\n");
}

// Prints what the file is, behind its name.
fn print_words<P: Page>(name: &str, by: Asking<'_>, form: FileForm, page: &mut P)
    ensures { P.adds page.old page.new (words_of form name.now (asking by.entry)) }
{
    let switches = unpacked_switches(by);
    match form {
        FileForm::Archive => {
            print_piped(b" is an archive: unzip -p ", switches, name, by.words, page)
        }
        FileForm::Compressed => {
            print_piped(b" is compressed: gzip -dc ", switches, name, by.words, page)
        }
        FileForm::Shapefile => {
            page.add(b" is a shapefile, which isn't read: tigertopo reads record files")
        }
        FileForm::Wide => {
            let tool = b" is UTF-16 text: iconv -f UTF-16 -t UTF-8 ";
            print_piped(tool, b"", name, by.words, page)
        }
        FileForm::Marked => {
            let tool = b" begins with a byte order mark: tail -c +4 ";
            print_piped(tool, b"", name, by.words, page)
        }
    }
}

// The switches for what is unpacked, which may be nothing: where they aren't given, and the command has them.
fn unpacked_switches(by: Asking<'_>) -> &'static [u8]
    ensures { result.now ≡ unpacked_switches (asking by.entry) }
{
    let may_ask = may_ask_for_records(by.words);
    switches_for(by.options.released, by.options.complete || !may_ask)
}

// The switches for the columns of released files and for records of each type, where these are given and where not.
fn switches_for(released: bool, complete: bool) -> &'static [u8]
    ensures { result.now ≡ switches_for released complete }
{
    match (released, complete) {
        (true, true) => b"",
        (true, false) => b" --complete",
        (false, true) => b" --released",
        (false, false) => b" --released --complete",
    }
}

// Whether words begin with the name of a command that has --complete.
fn may_ask_for_records(words: &[String]) -> bool
    ensures { result ≡ may_ask_for_records (map string_bytes words.now) }
{
    match words {
        [] => false,
        [command, ..] => asks_for_records(command.as_str()),
    }
}

// Whether this is the name of such a command.
fn asks_for_records(command: &str) -> bool
    ensures { result ≡ asks_for_records command.now }
{
    (command == "audit" || command == "build") || (command == "check" || command == "border")
}

// Prints a line that makes records of a file by these words, and has the command read them.
fn print_piped<P: Page>(tool: &[u8], switches: &[u8], name: &str, words: &[String], page: &mut P)
    ensures { P.adds page.old page.new (piped_text tool.now switches.now name.now (map string_bytes words.now)) }
{
    page.add(tool);
    print_shell_word(name, page);
    page.add(b" | tigertopo ");
    print_command(switches, name, words, page);
}

// Prints the words that were given, as they are typed to have the command read what comes of the file, and switches more.
fn print_command<P: Page>(switches: &[u8], name: &str, words: &[String], page: &mut P)
    ensures { P.adds page.old page.new (command_instead switches.now name.now (map string_bytes words.now)) }
{
    if let Some((command, rest)) = words.split_first() {
        print_shell_word(command.as_str(), page);
        page.add(switches);
        print_rest(name, rest, page);
    }
}

// Prints such words, each behind a blank.
fn print_rest<P: Page>(name: &str, words: &[String], page: &mut P)
    ensures { P.adds page.old page.new (words_instead name.now (map string_bytes words.now)) }
{
    for word in words {
        page.add(b" ");
        print_shell_word(word_instead(name, word.as_str()), page);
    }
}

// A word of a command that is to read what comes of the file in place of it.
fn word_instead<'a>(name: &str, word: &'a str) -> &'a str
    ensures { result.now ≡ word_instead name.now word.now }
{
    if word == name { "/dev/stdin" } else { word }
}
