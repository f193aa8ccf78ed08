use std::alloc::{AllocError, Global};
use std::collections::BTreeMap;

/// A connection in a state, what happens to it, and what follows.
#[derive(Drop)]
pub struct Case<'a> {
    pub name: &'a str,
    /// How the connection is opened.
    pub opening: &'a str,
    /// The steps up to the state.
    pub before: String,
    /// The steps that happen in it.
    pub steps: String,
    /// The state after them.
    pub state: &'a str,
    /// How many octets of the guest were taken by them.
    pub took: &'a str,
    /// What became of the connection.
    pub change: &'a str,
    /// What goes out by them.
    pub out: &'a str,
}

/// The cases of a file.
///
/// A line `course NAME = STEPS` gives steps a name, which stands for them in later lines. A line that begins with `#` is a remark, an empty one
/// nothing. Any other line is a case, whose fields are set apart by ` | `:
///
/// `NAME | OPENING | STEPS BEFORE | STEPS | STATE | OCTETS TAKEN | CHANGE | WHAT GOES OUT | WHY`
///
/// The buffers have 65,535 and 140,000 octets, a piece of ours has at most 1,460, our SYN has the number 250000, and every step is made at the moment
/// 1000, unless the case says otherwise. After each step all that is owed goes out, while the link isn't blocked.
///
/// **An opening** is the guest's SYN, or `accept` where the connection is opened to the guest, and then what isn't as usual: the number of our SYN
/// (`s=7`), the size of the buffer of the guest's octets (`ring=1048576`) and of the host's (`host=100`), the size of the link's datagrams
/// (`mtu=576`), `congestion` where there is a congestion window, and `blocked` where the link is.
///
/// **Steps** are set apart by `; `, and `nothing` is none. A segment of the guest is `FLAGS NUMBER/ACKNOWLEDGEMENT`: letters of `SAFRPU`, or `none`;
/// behind them the count of its octets (`n5`) and their letter (`bx`, usually a), its window (`w0`, usually 65,535), its MSS (`mss536`) and its
/// window scale (`ws7`). `host 10`: the host says ten octets. `wrote 10`: ten held octets of the guest are written to the host, which is told the
/// guest's end where it came and no octet is left. `at 2000`: the moment comes. `Connected`, `Refused`, `Ended`, `WriteEnded` and `Failed` are news
/// of the host's socket; one that still connects at the moment 76000 is refused. `block` and `unblock`: the link takes nothing, and takes again.
///
/// **A state** has its name in RFC 9293, or `Connecting`, and in brackets the octets of the guest that were taken, the numbers of ours behind the
/// SYN's that were sent and that are acknowledged, the edge of the guest's window as such a count, and those that hold of G (the guest's end was
/// taken), R (the host ended), S (our FIN was sent) and W (the host was told the guest's end). Behind the brackets may stand `timer 2000` or
/// `no timer`, or what is held of the guest's octets, as `holds x15 k5`. `CLOSED` stands alone.
///
/// **A change** is `Nothing`, `GuestReset`, `Finished` or `Unfit`.
///
/// **What goes out** is `nothing`, or each segment with its number, its acknowledgement, its window and its window scale. A piece tells its place and
/// its octets, and `fin` where it has FIN: `Data(0,10,fin) 250001/1001 w65535`.
#[derive(Drop)]
pub struct Cases<'a> {
    alloc: Global,
    courses: BTreeMap<String, String>,
    cases: Vec<Case<'a>>,
}

impl<'a> Cases<'a> {
    /// Reads a file of cases.
    pub fn read(alloc: Global, file: &'a str) -> Result<Cases<'a>, AllocError> {
        let mut cases = Cases {
            alloc,
            courses: BTreeMap::new(alloc),
            cases: Vec::new(alloc),
        };
        for line in file.lines() {
            if !line.is_empty() && !line.starts_with('#') {
                cases.take(line)?;
            }
        }
        Ok(cases)
    }

    /// All cases, in their order.
    pub fn all(&self) -> &[Case<'a>] {
        self.cases.as_slice()
    }

    // Takes a line of the file.
    fn take(&mut self, line: &'a str) -> Result<(), AllocError> {
        let course = line
            .strip_prefix("course ")
            .and_then(|course| course.split_once(" = "));
        if let Some((name, steps)) = course {
            let steps = self.written_out(steps)?;
            self.courses.insert(name.to_string(self.alloc)?, steps)?;
            return Ok(());
        }
        let case = self.case_in(line)?;
        self.cases.push(case)?;
        Ok(())
    }

    fn case_in(&self, line: &'a str) -> Result<Case<'a>, AllocError> {
        Ok(Case {
            name: field(line, 0),
            opening: field(line, 1),
            before: self.written_out(field(line, 2))?,
            steps: self.written_out(field(line, 3))?,
            state: field(line, 4),
            took: field(line, 5),
            change: field(line, 6),
            out: field(line, 7),
        })
    }

    // Steps, with those for which names stand.
    fn written_out(&self, steps: &str) -> Result<String, AllocError> {
        let mut all = String::new(self.alloc);
        if steps == "nothing" {
            return Ok(all);
        }
        for step in steps.split("; ") {
            if !all.is_empty() {
                all.push_str("; ")?;
            }
            all.push_str(
                self.courses
                    .get(step)
                    .map_or(step, |course| course.as_str()),
            )?;
        }
        Ok(all)
    }
}

// The field behind so many, empty where there is none.
fn field(line: &str, behind: usize) -> &str {
    line.split(" | ").nth(behind).unwrap_or("")
}
