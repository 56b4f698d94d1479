// What numbers and names give as character references: each run of numbers that give the same, 0 to 11FFFF through hexadecimal
// digits, then all that seven decimal digits can say; then what each line of the input gives as a name, with HTML 4.01's names and
// with HTML5's. The file stdout has the numbers of RULES R13.2, and the names of tools/reference_names.
#![tactic(auto)]

ghost use Rattle.std.specs.Prelude.{◌<◌};

use character_reference::{Marker, Names};
use std::alloc::{AllocError, Global};
use std::io::Read;
use std::{fmt, io};

// The most bytes of the input that it takes.
const MOST_LINES: u64 = 65536;

// What a number gives.
#[derive(Clone, Copy, PartialEq, Eq)]
enum Kind {
    Itself,
    Replaced,
    Other,
}

impl fmt::Display for Kind {
    fn fmt<W: fmt::Write>(&self, f: &mut fmt::Formatter<W>) -> fmt::Result {
        f.write_str(match self {
            Kind::Itself => "itself",
            Kind::Replaced => "replaced",
            Kind::Other => "other",
        })
    }
}

fn kind_of(n: u32, value: Option<u32>) -> Kind {
    match value {
        Some(c) if c == n => Kind::Itself,
        Some(0xFFFD) => Kind::Replaced,
        _ => Kind::Other,
    }
}

// The number's digits are written into the text that is lent.
fn by(digits: &mut String, marker: Marker, n: u32) -> Result<Kind, AllocError> {
    digits.clear();
    match marker {
        Marker::Hexadecimal => write!(digits, "{n:x}")?,
        _ => write!(digits, "{n}")?,
    }
    let value = character_reference::value_of(Names::Html5, marker, digits.as_bytes());
    Ok(kind_of(n, value))
}

fn write_run(rt: &impl Print, from: u32, to: u32, kind: Kind) -> io::Result<()> {
    println!(rt; "{from} {to} {kind}")
}

fn write_runs(rt: &impl Print, alloc: Global, marker: Marker, end: u32) -> io::Result<()>
    requires { 0 < end }
{
    let mut digits = String::new(alloc);
    let mut from: u32 = 0;
    let mut kind = by(&mut digits, marker, 0)?;
    for n in 1..end {
        let next = by(&mut digits, marker, n)?;
        if next != kind {
            write_run(rt, from, n - 1, kind)?;
            from = n;
            kind = next;
        }
    }
    write_run(rt, from, end - 1, kind)
}

fn write_code(rt: &impl Print, value: Option<u32>) -> io::Result<()> {
    match value {
        Some(c) => print!(rt; " {c:x}"),
        None => print!(rt; " none"),
    }
}

fn write_name(rt: &impl Print, s: &[u8]) -> io::Result<()> {
    print!(rt; "&")?;
    rt.write_all(s)?;
    print!(rt; ";")?;
    for names in [Names::Html4, Names::Html5] {
        write_code(rt, character_reference::value_of(names, Marker::Named, s))?;
    }
    println!(rt;)
}

// Each line that ends.
fn write_names(rt: &impl Print, lines: &[u8]) -> io::Result<()> {
    for line in lines.split_inclusive(|b| *b == b'\n') {
        if let Some(s) = line.strip_suffix(b"\n") {
            write_name(rt, s)?;
        }
    }
    Ok(())
}

fn main(rt: HostRuntime) -> io::Result<()> {
    let alloc = rt.alloc();
    write_runs(&rt, alloc, Marker::Hexadecimal, 0x120000)?;
    write_runs(&rt, alloc, Marker::Decimal, 10_000_000)?;
    let mut lines = Vec::new(alloc);
    rt.stdin().take(MOST_LINES).read_to_end(&mut lines)?;
    write_names(&rt, &lines)
}
