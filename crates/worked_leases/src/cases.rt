use std::alloc::{AllocError, Global};

/// A server's settings, and the messages that it gets.
///
/// A file of cases has a line `case NAME SETTING..` for each, and below it a line for each message: `MOMENT OCTETS = ANSWER`, the moment in milliseconds. A line that
/// begins with `#` is a remark, an empty one nothing. Braces stand for what is in them so many times, as in `{00*12}`. The settings are the usual ones but for
///
/// - `restricted`;
/// - `resolver`: one is there, at 127.0.0.1:53;
/// - `no_dns`: names aren't served;
/// - `hostname=NAME`, `domainname=NAME`, `tftp=NAME` and `bootfile=NAME`.
///
/// The answer is `nothing`, or from where and to where it goes, by which hardware address, and its octets.
#[derive(Drop)]
pub struct Case {
    pub name: String,
    pub settings: String,
    /// The messages, a line for each.
    pub messages: String,
}

/// Reads a file of cases.
pub fn read(alloc: Global, file: &str) -> Result<Vec<Case>, AllocError> {
    let mut cases: Vec<Case> = Vec::new(alloc);
    for line in file.lines() {
        if line.is_empty() || line.starts_with('#') {
            continue;
        }
        if let Some(head) = line.strip_prefix("case ") {
            cases.push(case_of(alloc, head)?)?;
        } else if let Some(case) = cases.last_mut() {
            put_line(&mut case.messages, line)?;
        }
    }
    Ok(cases)
}

// A case without messages.
fn case_of(alloc: Global, head: &str) -> Result<Case, AllocError> {
    let (name, words) = head.split_once(' ').unwrap_or((head, ""));
    let mut settings = String::new(alloc);
    put_line(&mut settings, words)?;
    Ok(Case {
        name: name.to_string(alloc)?,
        settings,
        messages: String::new(alloc),
    })
}

// Puts a line, with what its braces stand for.
fn put_line(into: &mut String, line: &str) -> Result<(), AllocError> {
    let mut parts = line.split('{');
    into.push_str(parts.next().unwrap_or(""))?;
    for part in parts {
        let (inside, behind) = part.split_once('}').unwrap_or((part, ""));
        let (text, count) = inside.split_once('*').unwrap_or((inside, "1"));
        for _ in 0..count.parse::<u32>().unwrap_or(0) {
            into.push_str(text)?;
        }
        into.push_str(behind)?;
    }
    into.push('\n')
}
