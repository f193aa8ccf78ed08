use crate::cases::{Case, Puts};
use std::alloc::{AllocError, Global};

impl Case<'_> {
    /// The calls on the outside, each with its answer: those that are told, or those of an outside that has a file f with them.
    pub fn put_outside(&self, alloc: Global, into: &mut String) -> Result<(), AllocError> {
        if self.is_outside {
            return into.push_str(self.calls.as_str());
        }
        write!(into, "flen 66 = len {}\n", self.calls.len())?;
        let mut place = 0u64;
        for part in self.calls.as_bytes().chunks(16_384) {
            put_read(alloc, into, place, part)?;
            place = place.saturating_add(16_384);
        }
        Ok(())
    }

    /// The words of the command line, each by itself.
    pub fn put_words(&self, alloc: Global, into: &mut Vec<String>) -> Result<(), AllocError> {
        for word in self.words.split_whitespace() {
            into.push(word.to_string(alloc)?)?;
        }
        Ok(())
    }

    /// Puts whether a run that ended with this status, put these octets and told those came to what it must come to: `passed`, or what was otherwise.
    pub fn put_verdict(
        &self,
        alloc: Global,
        into: &mut String,
        status: u8,
        put: &[u8],
        told: &[u8],
    ) -> Result<(), AllocError> {
        let told = text_of(told);
        if status != self.status || told != self.told.as_str() {
            return put_otherwise(into, status, self.status, told);
        }
        match self.puts {
            Puts::Any => into.push_str("passed"),
            Puts::Nothing => compare(into, text_of(put), ""),
            Puts::Text => compare(into, text_of(put), self.put.as_str()),
            Puts::Octets => self.compare_octets(alloc, into, put),
            Puts::Itself => self.compare_itself(alloc, into, put),
        }
    }

    // Whether the octets are those whose digits are told.
    fn compare_octets(
        &self,
        alloc: Global,
        into: &mut String,
        put: &[u8],
    ) -> Result<(), AllocError> {
        let mut wanted = String::new(alloc);
        put_without_spaces(&mut wanted, self.put.as_str())?;
        let digits = hex::encode(alloc, put)?;
        compare(into, digits.as_str(), wanted.as_str())
    }

    // Whether the octets are the calls and the status.
    fn compare_itself(
        &self,
        alloc: Global,
        into: &mut String,
        put: &[u8],
    ) -> Result<(), AllocError> {
        let mut wanted = String::new(alloc);
        write!(wanted, "{}end {}\n", self.calls, self.status)?;
        compare(into, text_of(put), wanted.as_str())
    }
}

// A read of the file at a place.
fn put_read(alloc: Global, into: &mut String, place: u64, octets: &[u8]) -> Result<(), AllocError> {
    let digits = hex::encode(alloc, octets)?;
    write!(into, "fread 66 {place} {} = done {digits}\n", octets.len())
}

/// Puts that a file was read otherwise than so often, in place of what was put.
pub fn put_reads(into: &mut String, reads: u64, wanted: u64) -> Result<(), AllocError> {
    if reads == wanted {
        return Ok(());
    }
    into.clear();
    write!(
        into,
        "FAILED: its file was read {reads} times, and was to be {wanted}"
    )
}

fn put_otherwise(into: &mut String, status: u8, wanted: u8, told: &str) -> Result<(), AllocError> {
    write!(
        into,
        "FAILED: its status is {status}, and was to be {wanted}; it told {told:?}"
    )
}

fn text_of(octets: &[u8]) -> &str {
    str::from_utf8(octets).unwrap_or("no text")
}

// `passed` where both are the same, or the first line in which they differ.
fn compare(into: &mut String, put: &str, wanted: &str) -> Result<(), AllocError> {
    if put == wanted {
        return into.push_str("passed");
    }
    let same = same_lines(put, wanted);
    put_differing(into, same, line_of(put, same), line_of(wanted, same))
}

fn put_differing(into: &mut String, same: usize, is: &str, wanted: &str) -> Result<(), AllocError> {
    write!(
        into,
        "FAILED: {same} lines are right, and behind them it put {is} in place of {wanted}"
    )
}

// How many lines at the front are the same.
fn same_lines(put: &str, wanted: &str) -> usize {
    let mut same = 0usize;
    for (one, other) in put.lines().zip(wanted.lines()) {
        if one != other {
            break;
        }
        same = same.saturating_add(1);
    }
    same
}

// Puts a text without its spaces and line feeds.
fn put_without_spaces(into: &mut String, text: &str) -> Result<(), AllocError> {
    for part in text.split_whitespace() {
        into.push_str(part)?;
    }
    Ok(())
}

// The line behind so many, or `nothing more`.
fn line_of(text: &str, behind: usize) -> &str {
    text.lines().nth(behind).unwrap_or("nothing more")
}
