// What is kept to the end: definitions, footnotes, calls, and the labels of open footnotes. Counts by value; tables of words and the third region of the work bytes beside them.
// A table is its columns, one behind the other. Where a table is no table of the right size, or full, a function does nothing.
#![tactic(auto)]

ghost use Rattle.std.specs.Prelude.{◌≡◌, ◌+◌, ◌*◌, ◌^◌, ◌<◌, length, take, drop, get_or};
ghost use Rattle.state_kept.specs.Kept.{nothing_kept, column};
ghost use Rattle.state_kept.specs.Clauses.{OpensLabel, FindsCall, FindsDefinition, FindsFootnote, CountsCall, TellsTimes, KeepsFootnote, KeepsDefinition};
ghost use Rattle.state_kept.specs.Private.{SetsRow, Cut, CarriesTitle};
ghost use Rattle.state_kept.specs.Sizes.{definition_rows, note_rows};

use signature::Columns;

// Rows: of the definitions; of the footnotes, of the calls and of the labels of open footnotes.
const DEFINITIONS: usize = 128;

const NOTES: usize = 64;
// Where columns of the definitions start; and all words.
const DEFINITION_PLACE: usize = 2 * DEFINITIONS;

const DEFINITION_LENGTH: usize = 3 * DEFINITIONS;

const DEFINITION_TITLE: usize = 4 * DEFINITIONS;

const DEFINITION_FIRST: usize = 5 * DEFINITIONS;

pub const DEFINITION_WORDS: usize = 7 * DEFINITIONS;
// Of the footnotes.
const FOOTNOTE_PLACE: usize = 2 * NOTES;

const FOOTNOTE_LENGTH: usize = 3 * NOTES;

const FOOTNOTE_FIRST: usize = 4 * NOTES;

pub const FOOTNOTE_WORDS: usize = 6 * NOTES;
// Of the calls.
const CALL_TO: usize = NOTES;

const CALL_TIMES: usize = 2 * NOTES;

const CALL_FIRST: usize = 3 * NOTES;

pub const CALL_WORDS: usize = 5 * NOTES;
// Of the labels of open footnotes.
const LABEL_TO: usize = NOTES;

pub const LABEL_WORDS: usize = 2 * NOTES;

#[derive(Clone, Copy)]
pub struct Kept {
    // behind the kept bytes, in their region
    pub end: usize,
    pub definitions: usize,
    pub footnotes: usize,
    pub calls: usize,
    // of open footnotes
    pub labels: usize,
}

// Before the first event.
pub fn new() -> Kept
    ensures { result ≡ nothing_kept }
{
    Kept {
        end: 0,
        definitions: 0,
        footnotes: 0,
        calls: 0,
        labels: 0,
    }
}

// ---- words of a table

// The column of n rows that starts at a place, as much of it as there is.
fn column_at(table: &[usize], start: usize, n: usize) -> &[usize]
    ensures { result.now ≡ take n (drop start table.now) }
{
    let rest = table.get(start..).unwrap_or(&[]);
    &rest[..n.min(rest.len())]
}

// The word in row i of the column of n rows that starts at a place; 0 where there is none.
fn word(table: &[usize], start: usize, n: usize, i: usize) -> usize
    ensures { result ≡ get_or (take n (drop start table.now)) i 0 }
{
    column_at(table, start, n).get(i).copied().unwrap_or(0)
}

// Sets the words of row i, one in each column of as many rows.
fn put_row(table: &mut [usize], rows: usize, i: usize, words: &[usize])
    requires { length words.now * rows < 2 ^ 64 }
    ensures { SetsRow rows i words.now table.old table.new }
{
    if table.len() != words.len() * rows {
        return;
    }
    if rows <= i {
        return;
    }
    for (k, word) in words.iter().enumerate() {
        table[k * rows + i] = *word;
    }
}

// The readers of a word by its name, a line each: with the column as a const parameter each call would say the name.
// Where a definition's destination stands in the kept bytes.
pub fn definition_place(definitions: &[usize], i: usize) -> usize
    ensures { result ≡ get_or (column definition_rows 2 definitions.now) i 0 }
{
    word(definitions, DEFINITION_PLACE, DEFINITIONS, i)
}

pub fn definition_length(definitions: &[usize], i: usize) -> usize
    ensures { result ≡ get_or (column definition_rows 3 definitions.now) i 0 }
{
    word(definitions, DEFINITION_LENGTH, DEFINITIONS, i)
}

// 0 without a title, else one more than its length; it stands behind the destination. A number and no Option: it is a word of the table.
pub fn definition_title(definitions: &[usize], i: usize) -> usize
    ensures { result ≡ get_or (column definition_rows 4 definitions.now) i 0 }
{
    word(definitions, DEFINITION_TITLE, DEFINITIONS, i)
}

pub fn footnote_place(footnotes: &[usize], i: usize) -> usize
    ensures { result ≡ get_or (column note_rows 2 footnotes.now) i 0 }
{
    word(footnotes, FOOTNOTE_PLACE, NOTES, i)
}

pub fn footnote_length(footnotes: &[usize], i: usize) -> usize
    ensures { result ≡ get_or (column note_rows 3 footnotes.now) i 0 }
{
    word(footnotes, FOOTNOTE_LENGTH, NOTES, i)
}

// The label's place in the text.
pub fn call_from(calls: &[usize], i: usize) -> usize
    ensures { result ≡ get_or (column note_rows 0 calls.now) i 0 }
{
    word(calls, 0, NOTES, i)
}

pub fn call_to(calls: &[usize], i: usize) -> usize
    ensures { result ≡ get_or (column note_rows 1 calls.now) i 0 }
{
    word(calls, CALL_TO, NOTES, i)
}

// ---- labels of open footnotes

// A footnote is opened.
pub fn open_label(k: Kept, from: usize, to: usize, labels: &mut [usize]) -> Kept
    ensures { OpensLabel k from to labels.old result labels.new }
{
    let i = k.labels;
    if labels.len() != LABEL_WORDS {
        return k;
    }
    if NOTES <= i {
        return k;
    }
    put_row(labels, NOTES, i, &[from, to]);
    Kept { labels: i + 1, ..k }
}

// ---- searches

// The columns that a search goes by: the first two of a table are the places of its labels, and two from a place on their signatures.
fn columns_of(table: &[usize], rows: usize, first: usize) -> Columns<'_>
    requires { first + rows < 2 ^ 64 }
    ensures { Cut table.now rows first result }
{
    Columns {
        starts: column_at(table, 0, rows),
        ends: column_at(table, rows, rows),
        firsts: column_at(table, first, rows),
        seconds: column_at(table, first + rows, rows),
    }
}

// The index of the call of a label, or the one behind the last.
pub fn call_index(k: Kept, text: &[u8], from: usize, to: usize, calls: &[usize]) -> usize
    ensures { FindsCall k text.now from to calls.now result }
{
    let columns = columns_of(calls, NOTES, CALL_FIRST);
    let label = signature::part(text, from, to);
    signature::find(text, columns, k.calls, label).unwrap_or(k.calls)
}

// Where a label is defined first.
pub fn find_definition(
    k: Kept,
    text: &[u8],
    from: usize,
    to: usize,
    definitions: &[usize],
) -> Option<usize>
    ensures { FindsDefinition k text.now from to definitions.now result }
{
    let columns = columns_of(definitions, DEFINITIONS, DEFINITION_FIRST);
    let label = signature::part(text, from, to);
    signature::find(text, columns, k.definitions, label)
}

// Which footnote has a label: of equal ones the first to end.
pub fn find_footnote(
    k: Kept,
    text: &[u8],
    from: usize,
    to: usize,
    footnotes: &[usize],
) -> Option<usize>
    ensures { FindsFootnote k text.now from to footnotes.now result }
{
    let columns = columns_of(footnotes, NOTES, FOOTNOTE_FIRST);
    let label = signature::part(text, from, to);
    signature::find(text, columns, k.footnotes, label)
}

// ---- calls

// A call at an index is counted; a new one stands behind the last.
pub fn count_call(
    k: Kept,
    index: usize,
    text: &[u8],
    from: usize,
    to: usize,
    calls: &mut [usize],
) -> Kept
    ensures { CountsCall k index text.now from to calls.old result calls.new }
{
    if calls.len() != CALL_WORDS {
        return k;
    }
    if NOTES <= index {
        return k;
    }
    if index < k.calls {
        let times = calls[CALL_TIMES + index];
        if 0x1_0000_0000 <= times {
            return k;
        }
        calls[CALL_TIMES + index] = times + 1;
        return k;
    }
    let label = signature::part(text, from, to);
    let s = signature::sign(label);
    put_row(calls, NOTES, index, &[from, to, 1, s.first, s.second]);
    Kept {
        calls: index + 1,
        ..k
    }
}

// How often a call was counted.
pub fn times_at(calls: &[usize], index: usize) -> usize
    ensures { TellsTimes calls.now index result }
{
    word(calls, CALL_TIMES, NOTES, index)
}

// ---- what is kept in bytes

// The newest open footnote ends: n bytes of the work bytes are its body.
pub fn keep_footnote(
    k: Kept,
    text: &[u8],
    from: usize,
    n: usize,
    work: &mut [u8],
    footnotes: &mut [usize],
    labels: &[usize],
) -> Kept
    ensures { KeepsFootnote k text.now from n work.old footnotes.old labels.now result work.new footnotes.new }
{
    if k.labels == 0 {
        return k;
    }
    let open = k.labels - 1;
    let closed = Kept { labels: open, ..k };
    if regions::SIZE < k.end {
        return closed;
    }
    let i = k.footnotes;
    if NOTES <= i {
        return closed;
    }
    let end = regions::carry(work, from, n, regions::KEPT_AT, k.end);
    let label_from = word(labels, 0, NOTES, open);
    let label_to = word(labels, LABEL_TO, NOTES, open);
    let label = signature::part(text, label_from, label_to);
    let s = signature::sign(label);
    let words = [label_from, label_to, k.end, n, s.first, s.second];
    put_row(footnotes, NOTES, i, &words);
    Kept {
        end,
        footnotes: i + 1,
        ..closed
    }
}

// A title goes behind the kept bytes, where there is one.
fn carry_title(work: &mut [u8], place: usize, title: usize, at: usize) -> usize
    ensures { CarriesTitle work.old place title at work.new result }
{
    if title == 0 {
        return at;
    }
    regions::carry(work, place, title - 1, regions::KEPT_AT, at)
}

// Keeps a definition: its label's place in the text, and the places of n bytes of destination and of the title in the work bytes.
pub fn keep_definition(
    k: Kept,
    text: &[u8],
    from: usize,
    to: usize,
    place: usize,
    n: usize,
    title_place: usize,
    title: usize,
    work: &mut [u8],
    definitions: &mut [usize],
) -> Kept
    ensures { KeepsDefinition k text.now from to place n title_place title work.old definitions.old result work.new definitions.new }
{
    if regions::SIZE < k.end {
        return k;
    }
    let i = k.definitions;
    if DEFINITIONS <= i {
        return k;
    }
    let middle = regions::carry(work, place, n, regions::KEPT_AT, k.end);
    let end = carry_title(work, title_place, title, middle);
    let label = signature::part(text, from, to);
    let s = signature::sign(label);
    let words = [from, to, k.end, n, title, s.first, s.second];
    put_row(definitions, DEFINITIONS, i, &words);
    Kept {
        end,
        definitions: i + 1,
        ..k
    }
}
