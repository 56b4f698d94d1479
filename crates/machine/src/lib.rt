// The definition's machine: specs/ alone matters here. These types are declared in code, so that the code can have the same ones where it needs them.
#![tactic(auto)]

use character_reference::Names;

// What the next handlers go by.
#[derive(Clone, Copy)]
pub struct Flags {
    // the next line ending is swallowed
    pub slurp: bool,
    // & < > " are encoded, and ' where the build wants it
    pub encode: bool,
    // in code text
    pub raw: bool,
    // in the text of an image
    pub alt: bool,
    // in the head of a table
    pub head: bool,
}

// A line ending.
#[derive(Clone, Copy)]
pub enum Ending {
    Lf,
    Cr,
    CrLf,
}

// What the caller chooses; the ending is the default, for a text that has none.
#[derive(Clone, Copy)]
pub struct Options {
    pub allow_dangerous_html: bool,
    pub allow_dangerous_protocol: bool,
    pub allow_any_img_src: bool,
    // where HTML is encoded, ' is too
    pub escape_apostrophes: bool,
    pub ending: Ending,
    pub names: Names,
}

// What does not change during a build: it is in the state, since the footnote section has no turn.
#[derive(Clone, Copy)]
pub struct Fixed {
    pub ending: Ending,
    // which HTML's names a character reference has
    pub names: Names,
    // ' is encoded where HTML is
    pub apostrophes: bool,
}
