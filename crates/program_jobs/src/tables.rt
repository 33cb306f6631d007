//! The table texts of a job: read, joined to one text, and the place of a line in it.
ghost use Rattle.std.specs.Prelude.{◌≡◌, IfOk, IfErr, List, ℕ, count_by, map, option_map};
ghost use Rattle.std.specs.Prelude.{string_bytes};
ghost use Rattle.program_jobs.specs.Failing.{IsReadFailure, IsTablesFailure};
ghost use Rattle.program_jobs.specs.Output.{IsTablesRefusal, LoadsTables};
ghost use Rattle.program_jobs.specs.Texts.{AreRead, IsTextOf, as_one, is_line_feed, is_only};
ghost use Rattle.program_jobs.specs.Texts.{named_text, named_texts, own_line, said_line, source_of};
ghost use Rattle.program_jobs.specs.Texts.{sources_of};

use crate::acting::contents;
use crate::failure::Failure;
use std::alloc::{AllocError, Allocator, Global};
use std::io::Read;
use wl_sigs::{TableFault, Tables};

/// A file with a table text.
#[derive(Debug, Drop)]
pub struct TablesFile<'a, T> {
    /// The name by which a failure reports it.
    pub name: &'a str,
    /// What reads it.
    pub file: T,
}

/// A table text that was read, and the name of its file.
#[derive(Debug, Drop)]
struct ReadText<'a, A: Allocator> {
    name: &'a str,
    bytes: Vec<u8, A>,
}

/// The core tables, extended by the texts in these files, if there are any.
///
/// The texts are read in their order and joined. `given` are the words of the command line that
/// name them.
pub(crate) fn load_tables<'a, A: Allocator + Clone, T: Read + Drop>(
    alloc: A,
    global: Global,
    given: &[String],
    files: Vec<TablesFile<'a, T>>,
) -> Result<Tables, Failure<'a>>
    ensures loaded { IfOk result
        (λ tables. LoadsTables (sources_of T.remaining files.entry.items) tables) }
    ensures refused { IfErr result (IsTablesRefusal (map string_bytes given.now)
        (sources_of T.remaining files.entry.items)) }
{
    let core = Tables::core(global)?;
    if files.is_empty() {
        return Ok(core);
    }
    let texts = read_all(alloc.clone()?, files)?;
    let text = as_one(alloc, &texts)?;
    match core.read_more(&text) {
        Ok(tables) => Ok(tables),
        Err(fault) => Err(failure_of(given, &texts, fault)),
    }
}

/// The texts in the files, in their order.
fn read_all<'a, A: Allocator + Clone, T: Read + Drop>(
    alloc: A,
    files: Vec<TablesFile<'a, T>>,
) -> Result<Vec<ReadText<'a, A>, A>, Failure<'a>>
    ensures read { IfOk result (λ texts. AreRead (sources_of T.remaining files.entry.items)
        (named_texts texts.items)) }
    ensures refused { (given : List (List ℕ)) → IfErr result
        (IsTablesRefusal given (sources_of T.remaining files.entry.items)) }
{
    let mut texts = Vec::new(alloc.clone()?);
    'files: for file in files {
        texts.push(read_one(alloc.clone()?, file)?)?;
    }
    Ok(texts)
}

/// The text in a file.
fn read_one<'a, A: Allocator, T: Read + Drop>(
    alloc: A,
    file: TablesFile<'a, T>,
) -> Result<ReadText<'a, A>, Failure<'a>>
    ensures read { IfOk result
        (λ text. IsTextOf (source_of T.remaining file.entry) (named_text text)) }
    ensures refused { IfErr result
        (IsReadFailure file.entry.name.now (T.remaining file.entry.file)) }
{
    let TablesFile { name, mut file } = file;
    let bytes = contents(alloc, name, &mut file)?;
    Ok(ReadText { name, bytes })
}

/// The texts, joined with a line feed between each two.
fn as_one<A: Allocator>(alloc: A, texts: &[ReadText<'_, A>]) -> Result<Vec<u8, A>, AllocError>
    ensures { IfOk result (λ whole. whole.items ≡ as_one (named_texts texts.now)) }
{
    let mut whole = Vec::new(alloc);
    let Some((first, others)) = texts.split_first() else {
        return Ok(whole);
    };
    whole.extend_from_slice(&first.bytes)?;
    'texts: for text in others {
        whole.push(b'\n')?;
        whole.extend_from_slice(&text.bytes)?;
    }
    Ok(whole)
}

/// The failure for a fault of the joined text, by the file and its line.
fn failure_of<'a, A: Allocator>(
    given: &[String],
    texts: &[ReadText<'a, A>],
    fault: TableFault,
) -> Failure<'a>
    ensures { IsTablesFailure (map string_bytes given.now) (named_texts texts.now) fault result }
{
    match fault {
        TableFault::BadLine { line } => {
            let (file, line) = said_line(given, texts, line);
            Failure::BadTablesLine { file, line }
        }
        TableFault::BadTable { line, rule } => {
            let (file, line) = said_line(given, texts, line);
            Failure::BreaksRule { file, line, rule }
        }
        TableFault::Memory => Failure::Memory,
    }
}

/// How a failure names a line of the joined text: by its file, unless the command line names only
/// that file, and by the line in it.
fn said_line<'a, A: Allocator>(
    given: &[String],
    texts: &[ReadText<'a, A>],
    line: usize,
) -> (Option<&'a str>, usize)
    ensures { (option_map (λ name. name.now) result.0, result.1)
        ≡ said_line (map string_bytes given.now) (named_texts texts.now) line }
{
    if is_only(given, texts) {
        return (None, line);
    }
    let (name, own) = own_line(texts, line);
    (Some(name), own)
}

/// One text was read, and its file is the only word of the command line.
fn is_only<A: Allocator>(given: &[String], texts: &[ReadText<'_, A>]) -> bool
    ensures { result ≡ is_only (map string_bytes given.now) (named_texts texts.now) }
{
    match (given, texts) {
        ([word], [text]) => word.as_str() == text.name,
        _ => false,
    }
}

/// Which file a line of the joined text is from, and which line of that file it is.
fn own_line<'a, A: Allocator>(texts: &[ReadText<'a, A>], line: usize) -> (&'a str, usize)
    ensures { (result.0.now, result.1) ≡ own_line (named_texts texts.now) line }
{
    let mut left = line;
    'texts: for text in texts {
        let behind = left.saturating_sub(line_feeds(&text.bytes));
        if behind <= 1 {
            return (text.name, left);
        }
        left = behind - 1;
    }
    ("", left)
}

fn line_feeds(bytes: &[u8]) -> usize
    ensures { result ≡ count_by is_line_feed bytes.now }
{
    bytes.iter().filter(|byte| is_line_feed(**byte)).count()
}

fn is_line_feed(byte: u8) -> bool
    ensures { result ≡ is_line_feed byte }
{
    byte == b'\n'
}
