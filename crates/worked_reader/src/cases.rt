use std::alloc::{AllocError, Global};

/// What a run must put.
#[derive(Clone, Copy)]
pub enum Puts {
    /// The calls that it is given, and its status.
    Itself,
    /// Nothing.
    Nothing,
    /// The text that is told.
    Text,
    /// The octets whose hexadecimal digits are told, with spaces and line feeds among them.
    Octets,
    /// Anything.
    Any,
}

/// A run: what it is given, and what it must come to.
#[derive(Drop)]
pub struct Case<'a> {
    pub name: &'a str,
    /// The words of the command line, with single spaces.
    pub words: &'a str,
    /// The content of the file that the words name, or the answers of the outside where it is told so.
    pub calls: String,
    pub is_outside: bool,
    /// The length of the file and how often it is read, where it isn't one with the calls.
    pub long: Option<(u64, u64)>,
    pub status: u8,
    pub puts: Puts,
    /// What it must put, where that is told.
    pub put: String,
    /// The number, from 0, of the put that is refused, if one is.
    pub refused: Option<u64>,
    /// What it tells.
    pub told: String,
}

/// The cases of a file.
///
/// A file of cases has parts, each of which begins with a line `text NAME` or `case NAME`; a line that begins with `#` is a remark, an empty one nothing. The lines of a
/// text are what `{NAME}` stands for in later lines, and `{NAME*N}` N times; where no text has the name, braces stand for what is in them, as in `{a5*1472}`.
/// The lines of a case are the calls of its schedule, each with its answer, and before them what isn't as usual:
///
/// - `words WORD..`: the words of the command line, in which the file is named f; usually `replay f`;
/// - `status S`: its status; usually 0;
/// - `told TEXT`: a line that it tells; usually none;
/// - `outside`: the calls are those on the outside itself, and not in the file f;
/// - `long N READS`: the file f has N octets, all of them line feeds, and is to be read so often; nothing else is outside;
/// - `refused N`: the put of this number, from 0, is refused;
/// - `puts`, in the last place: the lines behind it are what the run puts; `puts octets`: they are the hexadecimal digits of that; `puts any`: it may put anything.
///   Usually it puts its calls, and `end S`; where the outside is given or the file is long, nothing.
#[derive(Drop)]
pub struct Cases<'a> {
    alloc: Global,
    texts: Vec<Text<'a>>,
    cases: Vec<Case<'a>>,
    /// Whether the part that is being read is a text.
    is_text: bool,
}

/// What a name stands for.
#[derive(Drop)]
pub struct Text<'a> {
    name: &'a str,
    content: String,
}

/// What a line of a case tells that isn't a call.
#[derive(Clone, Copy)]
enum Field {
    Words,
    Status,
    Told,
    Outside,
    Long,
    Refused,
    Puts,
}

static FIELDS: [(&str, Field); 7] = [
    ("words", Field::Words),
    ("status", Field::Status),
    ("told", Field::Told),
    ("outside", Field::Outside),
    ("long", Field::Long),
    ("refused", Field::Refused),
    ("puts", Field::Puts),
];

impl<'a> Cases<'a> {
    /// Reads a file of cases.
    pub fn read(alloc: Global, file: &'a str) -> Result<Cases<'a>, AllocError> {
        let mut cases = Cases {
            alloc,
            texts: Vec::new(alloc),
            cases: Vec::new(alloc),
            is_text: false,
        };
        cases.take_all(file)?;
        Ok(cases)
    }

    /// All cases, in their order.
    pub fn all(&self) -> &[Case<'a>] {
        self.cases.as_slice()
    }

    fn take_all(&mut self, file: &'a str) -> Result<(), AllocError> {
        for line in file.lines() {
            if !line.is_empty() && !line.starts_with('#') {
                self.take(line)?;
            }
        }
        Ok(())
    }

    // Takes a line of the file.
    fn take(&mut self, line: &'a str) -> Result<(), AllocError> {
        let (first, rest) = head_of(line);
        if first == "text" {
            self.begin_text(rest)
        } else if first == "case" {
            self.begin_case(rest)
        } else if self.is_text {
            self.take_text(line)
        } else {
            self.take_case(line)
        }
    }

    fn begin_text(&mut self, name: &'a str) -> Result<(), AllocError> {
        self.is_text = true;
        self.texts.push(Text {
            name,
            content: String::new(self.alloc),
        })?;
        Ok(())
    }

    fn begin_case(&mut self, name: &'a str) -> Result<(), AllocError> {
        self.is_text = false;
        self.cases.push(Case::usual(self.alloc, name))?;
        Ok(())
    }

    fn take_text(&mut self, line: &str) -> Result<(), AllocError> {
        match self.texts.split_last_mut() {
            Some((text, before)) => put_line(&mut text.content, before, line),
            None => Ok(()),
        }
    }

    fn take_case(&mut self, line: &'a str) -> Result<(), AllocError> {
        match self.cases.last_mut() {
            Some(case) => case.take(&self.texts, line),
            None => Ok(()),
        }
    }
}

impl<'a> Case<'a> {
    // A case with this name in which all is as usual.
    fn usual(alloc: Global, name: &'a str) -> Case<'a> {
        Case {
            name,
            words: "replay f",
            calls: String::new(alloc),
            is_outside: false,
            long: None,
            status: 0,
            puts: Puts::Itself,
            put: String::new(alloc),
            refused: None,
            told: String::new(alloc),
        }
    }

    // Takes a line of the case.
    fn take(&mut self, texts: &[Text<'_>], line: &'a str) -> Result<(), AllocError> {
        let (first, rest) = head_of(line);
        match field_named(first) {
            Some(Field::Told) => self.tell(rest),
            Some(field) => {
                self.set(field, rest);
                Ok(())
            }
            None => self.take_content(texts, line),
        }
    }

    // Sets a field that no text is kept of.
    fn set(&mut self, field: Field, rest: &'a str) {
        match field {
            Field::Words => self.words = rest,
            Field::Status => self.status = rest.parse::<u8>().unwrap_or(u8::MAX),
            Field::Outside => {
                self.is_outside = true;
                self.puts = Puts::Nothing;
            }
            Field::Long => {
                self.long = long_named(rest);
                self.puts = Puts::Nothing;
            }
            Field::Refused => self.refused = rest.parse::<u64>().ok(),
            Field::Puts => self.puts = puts_named(rest),
            Field::Told => {}
        }
    }

    fn tell(&mut self, line: &str) -> Result<(), AllocError> {
        self.told.push_str(line)?;
        self.told.push('\n')
    }

    // Takes a call, or a line of what it puts.
    fn take_content(&mut self, texts: &[Text<'_>], line: &str) -> Result<(), AllocError> {
        match self.puts {
            Puts::Text | Puts::Octets => put_line(&mut self.put, texts, line),
            Puts::Itself | Puts::Nothing | Puts::Any => put_line(&mut self.calls, texts, line),
        }
    }
}

// The first word of a line, and what stands behind it.
fn head_of(line: &str) -> (&str, &str) {
    line.split_once(' ').unwrap_or((line, ""))
}

fn field_named(word: &str) -> Option<Field> {
    for (name, field) in &FIELDS {
        if *name == word {
            return Some(*field);
        }
    }
    None
}

// The length of a long file, and how often it is read.
fn long_named(words: &str) -> Option<(u64, u64)> {
    let (length, reads) = words.split_once(' ')?;
    Some((length.parse::<u64>().ok()?, reads.parse::<u64>().ok()?))
}

fn puts_named(word: &str) -> Puts {
    if word == "any" {
        Puts::Any
    } else if word == "octets" {
        Puts::Octets
    } else {
        Puts::Text
    }
}

// Puts a line, with what its braces stand for.
fn put_line(into: &mut String, texts: &[Text<'_>], line: &str) -> Result<(), AllocError> {
    let mut is_first = true;
    for part in line.split('{') {
        if is_first {
            into.push_str(part)?;
        } else {
            put_part(into, texts, part)?;
        }
        is_first = false;
    }
    end_line(into)
}

// Puts what stands behind a brace that opens.
fn put_part(into: &mut String, texts: &[Text<'_>], part: &str) -> Result<(), AllocError> {
    let (inside, behind) = part.split_once('}').unwrap_or((part, ""));
    let (name, count) = inside.split_once('*').unwrap_or((inside, "1"));
    put_times(into, text_named(texts, name), count)?;
    into.push_str(behind)
}

fn put_times(into: &mut String, text: &str, count: &str) -> Result<(), AllocError> {
    for _ in 0..count.parse::<u32>().unwrap_or(0) {
        into.push_str(text)?;
    }
    Ok(())
}

// The text of this name that was told last, or the name where none has it.
fn text_named<'b>(texts: &'b [Text<'_>], name: &'b str) -> &'b str {
    let mut found = name;
    for text in texts {
        if text.name == name {
            found = text.content.as_str();
        }
    }
    found
}

fn end_line(into: &mut String) -> Result<(), AllocError> {
    if into.ends_with('\n') {
        return Ok(());
    }
    into.push('\n')
}
