//! Lists of options, each a code, a length and a body, read by a table of the codes that are known, as in TCP (RFC 9293, 3.1) and DHCP (RFC 2132, 2). Nothing is
//! allocated.
//!
//! Proved:
//! - `Table::new` exactly by its three conditions, `Table::of` where they hold; `Table::read` by the grammar of the list with the first fault (`found`, `only`,
//!   `fault`, `only_fault`); `Fields::first`.
//! - `Table::put` writes exactly an option's octets, None exactly where there is no room (`written`, `length`, `room`, `unchanged`); `Table::write` the same where
//!   there is room. Options that were put are read again (`Table::put_options_are_read_again`).
#![tactic(auto)]

ghost use Rattle.std.specs.Prelude.{◌≡◌, ℕ, ◌+◌, ◌≤◌, ◌==◌, ◌↔◌, ◌++◌, true, false, List, length, drop, IsSome, IfNone, replicate, Option, Ok, Err, is_ok, is_some, option_copied};
ghost use Rattle.std.specs.Prelude.{position, IfSome, IfOk, OnOk, IfErr, MatchResult};
ghost use Rattle.tlv_table.specs.Tables.{is_below, is_rising, is_row, are_rows, is_table, row_of};
ghost use Rattle.tlv_table.specs.Reading.{Found, first_body, body_in, head_counted, judged, option_step, Agrees, Takes, reading, found_in};
ghost use Rattle.tlv_table.specs.Grammar.{Field, item_octets, IsListOf, IsNoList};
ghost use Rattle.tlv_table.specs.Putting.{CanPut, CanPutAll, ReadsAgain};
ghost use Rattle.tlv_table.specs.declared.Row.{Row};
ghost use Rattle.tlv_table.specs.declared.TlvFault.{TlvFault};

use std::marker::Model;

/// What is known of one code.
#[derive(Clone, Copy, Debug, PartialEq, Eq)]
pub struct Row {
    pub code: u8,
    /// The least number of octets in a body.
    pub least: u8,
    /// The greatest number of octets in a body.
    pub greatest: u8,
    /// Whether the code may stand more than once.
    pub repeats: bool,
}

/// What the options of a protocol look like.
#[derive(Clone, Copy, Debug, PartialEq, Eq)]
pub struct Form {
    /// The code after which nothing is read. It has no length.
    pub end: u8,
    /// The code that is one octet long and says nothing.
    pub pad: u8,
    /// Whether the end code has to be there.
    pub end_needed: bool,
    /// Whether the length of an option counts its code and its length too.
    pub counts_head: bool,
}

/// Why octets are no list of options, with the offset of the code of the first option that is wrong.
#[derive(Clone, Copy, Debug, PartialEq, Eq)]
pub enum TlvFault {
    /// The length or the body isn't all there.
    Cut { at: usize },
    /// The length counts the head and is under 2, or a known code's body is outside its range.
    BadLength { at: usize },
    /// A known code that may not repeat stands again.
    Repeated { at: usize },
    /// The end code isn't there, and the form needs it.
    NoEnd,
}

/// The rows of a table, each written `CODE: LEAST to GREATEST, repeats` or `.., once`, with `;`
/// between them, by rising code.
#[macro_export]
macro_rules! rows {
    ($($code:literal : $least:literal to $greatest:literal, $often:ident);* $(;)?) => {
        [$($crate::Row {
            code: $code,
            least: $least,
            greatest: $greatest,
            repeats: $crate::rows!(@ $often),
        }),*]
    };
    (@ repeats) => { true };
    (@ once) => { false };
}

/// A form and the rows of the codes that are known.
#[derive(Clone, Copy, Debug)]
pub struct Table<const N: usize> {
    form: Form,
    rows: [Row; N],
}

impl<const N: usize> Model for Table<N> {
    ghost use Rattle.std.specs.Prelude.{◌≡◌, true};
    ghost use Rattle.tlv_table.specs.Tables.{Rules, is_table};

    ghost Value = { Rules };

    ghost view = { λ t. record { form = t.form; rows = t.rows } };

    ghost inverse = { λ r. record { form = r.form; rows = r.rows } };

    ghost invariant = { λ t. is_table t.form t.rows ≡ true };
}

/// The options that a table read in some octets.
#[derive(Debug, Drop)]
pub struct Fields<'a, const N: usize> {
    table: Table<N>,
    octets: &'a [u8],
}

impl<'a, const N: usize> Model for Fields<'a, N> {
    ghost use Rattle.std.specs.Prelude.{◌≡◌, true, List, is_ok};
    ghost use Rattle.tlv_table.specs.Reading.{Found, reading, found_in};

    ghost Value = { List Found };

    ghost view = { λ f. found_in (reading f.table.form f.table.rows f.octets.now) };

    ghost invariant = { λ f. is_ok (reading f.table.form f.table.rows f.octets.now) ≡ true };
}

impl<const N: usize> Table<N> {
    /// The table of this form and these rows. It is None exactly where the codes aren't strictly
    /// rising, a code is the end or pad code, or a row's least exceeds its greatest.
    pub fn new(form: Form, rows: [Row; N]) -> Option<Table<N>>
        ensures exactly { is_some result ≡ is_table form rows.entry }
        ensures table { IfSome result (λ table. table ≡ record { form = form; rows = rows.entry }) }
    {
        if is_table(&form, &rows) {
            Some(Table { form, rows })
        } else {
            None
        }
    }

    /// The table of this form and these rows, where they make one: the codes are strictly rising, none is the end or pad code, and no row's least exceeds its
    /// greatest.
    pub fn of(form: Form, rows: [Row; N]) -> Table<N>
        requires { is_table form rows ≡ true }
        ensures { result ≡ record { form = form; rows = rows.entry } }
    {
        Table { form, rows }
    }

    /// Reads options from the front on, up to the end code. Options of codes without a row are passed
    /// over. The fault is the first in the order of the octets; of one option, first Cut, then
    /// BadLength, then Repeated.
    pub fn read<'a>(&self, octets: &'a [u8]) -> Result<Fields<'a, N>, TlvFault>
        ensures exact { result ≡ reading self.now.form self.now.rows octets.now }
        // What is found is what the octets list.
        ensures found { IfOk result (λ found. IsListOf self.now.form self.now.rows octets.now found) }
        ensures only { (found : List Found) → IsListOf self.now.form self.now.rows octets.now found
            → result ≡ Ok found }
        // A fault is the first one, after options that are right.
        ensures fault { IfErr result (λ fault. IsNoList self.now.form self.now.rows octets.now fault) }
        ensures only_fault { (fault : TlvFault) → IsNoList self.now.form self.now.rows octets.now fault
            → result ≡ Err fault }
    {
        self.fields_of(octets)
    }

    /// Writes an option at the front of `into`, and answers how many octets it has. The code has a
    /// row, the body's length is in its range and fits an octet, with the head where it is counted.
    /// The answer is None exactly where `into` is too short; it is unchanged then, and past the option.
    pub fn put(&self, code: u8, body: &[u8], into: &mut [u8]) -> Option<usize>
        requires { CanPut self.now.form self.now.rows code body.now }
        ensures written { IfSome result (λ n. into.new ≡ item_octets self.now.form (Field code body.now) ++ drop n into.old) }
        ensures length { IfSome result (λ n. n ≡ 2 + length body.now) }
        ensures room { IsSome result ↔ (2 + length body.now ≤ length into.old) }
        ensures unchanged { IfNone result (into.new ≡ into.old) }
    {
        if into.len() < 2 + body.len() {
            return None;
        }
        Some(self.write(code, body, into))
    }

    /// Writes an option at the front of `into`, which has the room for it, as `put` does, and answers how many octets it
    /// has. Past the option `into` is unchanged.
    pub fn write(&self, code: u8, body: &[u8], into: &mut [u8]) -> usize
        requires can { CanPut self.now.form self.now.rows code body.now }
        requires room { 2 + length body.now ≤ length into.old }
        ensures written { into.new ≡ item_octets self.now.form (Field code body.now) ++ drop result into.old }
        ensures length { result ≡ 2 + length body.now }
    {
        let table = *self;
        write_option(&table.form, code, body, into)
    }

    /// Options that are put one after another, with the end code behind them, are read again, where
    /// none is put twice that may not repeat.
    pub fn put_options_are_read_again(&self)
        ensures { (pairs : List (ℕ × List ℕ)) (rest : List ℕ) → CanPutAll self.now.form self.now.rows pairs
            → ReadsAgain self.now.form self.now.rows pairs rest }
    {
        law_of_put(&self.form, &self.rows);
    }

    fn fields_of<'a>(&self, octets: &'a [u8]) -> Result<Fields<'a, N>, TlvFault>
        ensures { result ≡ reading self.now.form self.now.rows octets.now }
    {
        check(&self.form, &self.rows, &mut [false; N], octets)?;
        Ok(Fields {
            table: *self,
            octets,
        })
    }

    fn first_in<'a>(&self, octets: &'a [u8], code: u8) -> Option<&'a [u8]>
        requires { is_ok (reading self.now.form self.now.rows octets.now) ≡ true }
        ensures { option_copied result ≡ first_body code (found_in (reading self.now.form self.now.rows octets.now)) }
    {
        first_body(&self.form, &self.rows, octets, code)
    }
}

impl<'a, const N: usize> Fields<'a, N> {
    /// The body of the first option of this code, and None exactly where none was found.
    pub fn first(&self, code: u8) -> Option<&'a [u8]>
        ensures { option_copied result ≡ first_body code self.now }
    {
        self.table.first_in(self.octets, code)
    }
}

fn is_table(form: &Form, rows: &[Row]) -> bool
    ensures { result ≡ is_table form.now rows.now }
{
    is_rising(rows) && are_rows(form, rows)
}

fn is_rising(rows: &[Row]) -> bool
    ensures { result ≡ is_rising rows.now }
{
    let mut rest = rows;
    while let [row, tail @ ..] = rest {
        if !is_below(row, tail) {
            return false;
        }
        rest = tail;
    }
    true
}

fn is_below(row: &Row, tail: &[Row]) -> bool
    ensures { result ≡ is_below row.now tail.now }
{
    match tail {
        [] => true,
        [next, ..] => row.code < next.code,
    }
}

fn are_rows(form: &Form, rows: &[Row]) -> bool
    ensures { result ≡ are_rows form.now rows.now }
{
    let mut rest = rows;
    while let [row, tail @ ..] = rest {
        if !is_row(form, row) {
            return false;
        }
        rest = tail;
    }
    true
}

fn is_row(form: &Form, row: &Row) -> bool
    ensures { result ≡ is_row form.now row.now }
{
    row.code != form.end && row.code != form.pad && row.least <= row.greatest
}

fn find_row(rows: &[Row], code: u8) -> Option<usize>
    ensures { result ≡ position (λ (row : Row). row.code == code) rows.now }
{
    rows.iter().position(|row| row.code == code)
}

// The body of an option, by what follows its code.
fn body_of<'a>(form: &Form, tail: &'a [u8], at: usize) -> Result<&'a [u8], TlvFault>
    ensures { MatchResult result
        (λ body. body_in form.now at tail.now ≡ Ok body.now)
        (λ fault. body_in form.now at tail.now ≡ Err fault) }
{
    let [size, rest @ ..] = tail else {
        return Err(TlvFault::Cut { at });
    };
    let counted = if form.counts_head { 2 } else { 0 };
    let Some(size) = usize::from(*size).checked_sub(counted) else {
        return Err(TlvFault::BadLength { at });
    };
    rest.get(..size).ok_or(TlvFault::Cut { at })
}

// Whether an option of a known code is right.
fn judge(row: &Row, again: bool, size: usize, at: usize) -> Result<(), TlvFault>
    ensures ok { OnOk result (judged row.now again size at ≡ None) }
    ensures err { IfErr result (λ fault. judged row.now again size at ≡ Some fault) }
{
    if size < usize::from(row.least) || size > usize::from(row.greatest) {
        return Err(TlvFault::BadLength { at });
    }
    if again && !row.repeats {
        return Err(TlvFault::Repeated { at });
    }
    Ok(())
}

// Takes an option, and marks the row of its code.
fn take(rows: &[Row], marks: &mut [bool], code: u8, body: &[u8], at: usize) -> Result<(), TlvFault>
    requires { length marks.old ≡ length rows.now }
    ensures { (found : List Found) → Agrees rows.now marks.old found
        → Takes rows.now marks.new found (record { code = code; place = at; body = body.now }) result }
{
    if let Some(row) = find_row(rows, code) {
        judge(&rows[row], marks[row], body.len(), at)?;
        marks[row] = true;
    }
    Ok(())
}

fn check(form: &Form, rows: &[Row], marks: &mut [bool], octets: &[u8]) -> Result<(), TlvFault>
    requires { marks.old ≡ replicate (length rows.now) false }
    ensures ok { OnOk result (is_ok (reading form.now rows.now octets.now) ≡ true) }
    ensures err { IfErr result (λ fault. reading form.now rows.now octets.now ≡ Err fault) }
{
    let mut rest = octets;
    while let [code, tail @ ..] = rest {
        if *code == form.end {
            return Ok(());
        }
        if *code == form.pad {
            rest = tail;
            continue;
        }
        let at = octets.len() - rest.len();
        let body = body_of(form, tail, at)?;
        take(rows, marks, *code, body, at)?;
        rest = &tail[1 + body.len()..];
    }
    if form.end_needed {
        Err(TlvFault::NoEnd)
    } else {
        Ok(())
    }
}

fn first_body<'a>(form: &Form, rows: &[Row], octets: &'a [u8], code: u8) -> Option<&'a [u8]>
    requires { is_ok (reading form.now rows.now octets.now) ≡ true }
    ensures { option_copied result ≡ first_body code (found_in (reading form.now rows.now octets.now)) }
{
    find_row(rows, code)?;
    let mut rest = octets;
    while let [front, tail @ ..] = rest {
        if *front == form.end {
            return None;
        }
        if *front == form.pad {
            rest = tail;
            continue;
        }
        let Ok(body) = body_of(form, tail, 0) else {
            return None;
        };
        if *front == code {
            return Some(body);
        }
        rest = &tail[1 + body.len()..];
    }
    None
}

// That options which are put are read again.
fn law_of_put(form: &Form, rows: &[Row])
    requires { is_table form.now rows.now ≡ true }
    ensures { (pairs : List (ℕ × List ℕ)) (rest : List ℕ) → CanPutAll form.now rows.now pairs
        → ReadsAgain form.now rows.now pairs rest }
{}

// Writes an option at the front of a slice that has the room for it.
fn write_option(form: &Form, code: u8, body: &[u8], into: &mut [u8]) -> usize
    requires size { head_counted form.now + length body.now ≤ 255 }
    requires room { 2 + length body.now ≤ length into.old }
    ensures written { into.new ≡ item_octets form.now (Field code body.now) ++ drop result into.old }
    ensures length { result ≡ 2 + length body.now }
{
    let length = 2 + body.len();
    let size = if form.counts_head {
        2 + body.len()
    } else {
        body.len()
    };
    let head = [code, size as u8];
    into[..2].copy_from_slice(&head);
    into[2..length].copy_from_slice(body);
    length
}
