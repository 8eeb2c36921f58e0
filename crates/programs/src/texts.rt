// Texts of cells from files and standard input.
use faults::fault::Fault;
use std::alloc::{AllocError, Global};
use std::io::Read;
use std::{fs, io};

/// The name of standard input and standard output.
pub const STREAM: &str = "-";

// So many bytes are looked at: the cells of the longest row, or of the largest table, with as many spaces around them.
const MOST_BYTES: usize = 2 * 262_144;

// So many characters of a text that is too long are told.
const SHOWN: usize = 32;

/// The words, with the table of a file in place of the word @FILE that stands for TABLE.
pub fn read_table(rt: &HostRuntime, words: &mut [String]) -> Result<(), Fault> {
    let [kinds, _, table] = words else {
        return Ok(());
    };
    // Behind the word wolfram stands no table.
    if kinds.as_str().parse::<u32>().is_err() {
        return Ok(());
    }
    let Some(file) = table.as_str().strip_prefix("@") else {
        return Ok(());
    };
    let text = read_file(rt, file, "TABLE")?;
    *table = text;
    Ok(())
}

/// The cells of a row as they are typed, or from the file or the stream that is typed in place of them.
pub fn read_row(rt: &HostRuntime, typed: String) -> Result<String, Fault> {
    if typed.as_str() == STREAM {
        return match text_of(rt.alloc(), rt.stdin()) {
            Ok(text) => one_line(rt.alloc(), "--row -", text.as_str()),
            Err(e) => Err(Fault::Input(e)),
        };
    }
    match typed.as_str().strip_prefix("@") {
        Some(file) => read_file(rt, file, "--row"),
        None => Ok(typed),
    }
}

// The cells in a file, for an argument.
fn read_file(rt: &HostRuntime, file: &str, argument: &str) -> Result<String, Fault> {
    match open_text(rt, file) {
        Ok(text) => {
            let from = format!(in rt.alloc(); "{argument} @{file}")?;
            one_line(rt.alloc(), from.as_str(), text.as_str())
        }
        Err(e) => Err(Fault::Unread(String::from_str(rt.alloc(), file)?, e)),
    }
}

fn open_text(rt: &HostRuntime, file: &str) -> io::Result<String> {
    text_of(rt.alloc(), fs::open(rt, file)?)
}

fn text_of<R: Read + Drop>(heap: Global, from: R) -> io::Result<String> {
    io::read_to_string(heap, from.take(MOST_BYTES as u64))
}

// The one line of a text, without the spaces around it.
fn one_line(heap: Global, from: &str, text: &str) -> Result<String, Fault> {
    let cells = text.trim();
    if let Some((first, rest)) = cells.split_once('\n') {
        return Err(Fault::TwoLines {
            from: String::from_str(heap, from)?,
            first: beginning(heap, first.trim())?,
            second: beginning(heap, rest.trim_start().lines().next().unwrap_or("").trim())?,
        });
    }
    if text.len() == MOST_BYTES {
        return Err(Fault::ManySpaces {
            from: String::from_str(heap, from)?,
            found: beginning(heap, cells)?,
        });
    }
    Ok(String::from_str(heap, cells)?)
}

// The first characters of a text.
fn beginning(heap: Global, text: &str) -> Result<String, AllocError> {
    let mut shown = String::new(heap);
    for c in text.chars().take(SHOWN) {
        shown.push(c)?;
    }
    Ok(shown)
}
