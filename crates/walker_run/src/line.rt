//! The lines that the program says, each with its status and its text.
ghost use Rattle.std.specs.Prelude.{◌≡◌, IfOk};
ghost use Rattle.walker_run.specs.Lines.{status_of, text_of, numbered};
ghost use Rattle.walker_run.specs.Lines.{kind_fault_text, shape_words_of};

use crate::status::Status;
use itoa::Buffer;
use rules_file::Part;
use std::alloc::{AllocError, Global};
use structure_check::Broken;
use tile_kinds::{DartType, KindFault};

/// One of the files that the words name.
#[derive(Clone, Copy, Debug, PartialEq, Eq)]
pub enum Role {
    Tess,
    Rules,
    Log,
}

/// A line that the program says: what is due to the words and the files, or why it is not said.
#[derive(Clone, Copy, Debug, PartialEq, Eq)]
pub enum Line {
    /// The type that a walk leads to.
    TypeTold(DartType),
    /// The rules are accepted: their numbers of states and of corner types.
    Accepted { states: u32, corners: u32 },
    /// The words are in no form, or name no kind of the tessellation.
    Usage,
    /// A file could not be read.
    FileFault(Role),
    /// A file is longer than its limit.
    FileTooLong(Role),
    /// The first bad line of the tessellation file, counted from 1.
    TessLine(u32),
    /// The first check that the kinds of the tessellation file fail.
    TessKinds(KindFault),
    /// The rules file is no JSON text.
    RulesSyntax,
    /// The first part of the rules file that has not its shape.
    RulesShape { part: Part, index: u32 },
    /// The least condition that the rules break, at its least place.
    Broken(Broken),
    /// The tessellation {p,q} has finitely many tiles: no rules are made.
    Spherical { p: u8, q: u8 },
    /// Walks from a tile of some kind lead to exactly so many tiles, and the tessellation is not
    /// regular: no rules are made.
    Closed(u32),
    /// The teacher gave up on the tessellation, which is not regular, with so many cells.
    GaveUp(u32),
    /// The rules could not be stored.
    StoreFault,
    /// The input has over 268,435,456 bytes.
    InputTooLong,
    /// The log leads from the one walk to the other, so that they are related.
    Related,
    /// The two walks are not related.
    Apart,
    /// One of the two walks passes a tile that lies too far from the first one.
    TooDeep,
    /// The first bad line of the log file, counted from 1.
    LogLine(u64),
    /// The first change of the log that is not allowed, counted from 1.
    LogChange(u64),
    /// All changes of the log are allowed, and lead to another walk.
    LogEnd,
}

impl Line {
    /// The status that goes with the line.
    pub fn status(&self) -> Status
        ensures { result ≡ status_of self.now }
    {
        match self {
            Line::TypeTold(_) | Line::Accepted { .. } | Line::Related => Status::Done,
            Line::Usage => Status::Usage,
            Line::FileFault(_) => Status::FileFault,
            Line::FileTooLong(_) => Status::FileTooLong,
            Line::TessLine(_) | Line::TessKinds(_) => Status::TessRefused,
            Line::RulesSyntax | Line::RulesShape { .. } => Status::RulesText,
            Line::Broken(_) => Status::NotAccepted,
            Line::Spherical { .. } => Status::Spherical,
            Line::Closed(_) => Status::Closed,
            Line::GaveUp(_) => Status::GaveUp,
            Line::StoreFault => Status::StoreFault,
            Line::InputTooLong => Status::InputTooLong,
            Line::Apart => Status::Apart,
            Line::TooDeep => Status::TooDeep,
            Line::LogLine(_) | Line::LogChange(_) | Line::LogEnd => Status::LogRefused,
        }
    }

    /// The text of the line, with its line feed.
    ///
    /// # Errors
    ///
    /// `AllocError` where there is no memory for the text.
    pub fn text(&self, alloc: Global) -> Result<Vec<u8>, AllocError>
        ensures { IfOk result (λ text. text.items ≡ text_of self.now) }
    {
        match self {
            Line::TypeTold(t) => {
                print_line(alloc, "type", &[u64::from(t.kind), u64::from(t.residue)])
            }
            Line::Accepted { states, corners } => print_line(
                alloc,
                "accepted",
                &[u64::from(*states), u64::from(*corners)],
            ),
            Line::Usage => print_line(alloc, "usage", &[]),
            Line::FileFault(Role::Tess) => print_line(alloc, "file fault tess", &[]),
            Line::FileFault(Role::Rules) => print_line(alloc, "file fault rules", &[]),
            Line::FileFault(Role::Log) => print_line(alloc, "file fault log", &[]),
            Line::FileTooLong(Role::Tess) => print_line(alloc, "file too long tess", &[]),
            Line::FileTooLong(Role::Rules) => print_line(alloc, "file too long rules", &[]),
            Line::FileTooLong(Role::Log) => print_line(alloc, "file too long log", &[]),
            Line::TessLine(n) => print_line(alloc, "tess line", &[u64::from(*n)]),
            Line::TessKinds(fault) => print_kind_fault(alloc, *fault),
            Line::RulesSyntax => print_line(alloc, "rules syntax", &[]),
            Line::RulesShape { part, index } => {
                print_line(alloc, shape_words(*part), &[u64::from(*index)])
            }
            Line::Broken(at) => print_line(
                alloc,
                "broken",
                &[
                    u64::from(at.condition),
                    u64::from(at.first),
                    u64::from(at.second),
                ],
            ),
            Line::Spherical { p, q } => {
                print_line(alloc, "spherical", &[u64::from(*p), u64::from(*q)])
            }
            Line::Closed(n) => print_line(alloc, "closed", &[u64::from(*n)]),
            Line::GaveUp(cells) => print_line(alloc, "gave up", &[u64::from(*cells)]),
            Line::StoreFault => print_line(alloc, "store fault", &[]),
            Line::InputTooLong => print_line(alloc, "input too long", &[]),
            Line::Related => print_line(alloc, "related", &[]),
            Line::Apart => print_line(alloc, "apart", &[]),
            Line::TooDeep => print_line(alloc, "deep", &[]),
            Line::LogLine(n) => print_line(alloc, "log line", &[*n]),
            Line::LogChange(n) => print_line(alloc, "log change", &[*n]),
            Line::LogEnd => print_line(alloc, "log end", &[]),
        }
    }
}

/// A text, then each number behind a space, then a line feed.
fn print_line(alloc: Global, text: &str, numbers: &[u64]) -> Result<Vec<u8>, AllocError>
    ensures { IfOk result (λ line. line.items ≡ numbered text.now numbers.now) }
{
    let mut line = Vec::from_slice(alloc, text.as_bytes())?;
    for n in numbers {
        let mut digits = Buffer::new();
        line.push(b' ')?;
        line.extend_from_slice(digits.format(*n).as_bytes())?;
    }
    line.push(b'\n')?;
    Ok(line)
}

/// The line of a check that kinds fail. No file leads to the fault of their number, which has no
/// text.
fn print_kind_fault(alloc: Global, fault: KindFault) -> Result<Vec<u8>, AllocError>
    ensures { IfOk result (λ line. line.items ≡ kind_fault_text fault) }
{
    let (text, kind, residue) = match fault {
        KindFault::Count => return Ok(Vec::new(alloc)),
        KindFault::Sides { kind, residue } => ("tess sides", kind, residue),
        KindFault::Repeat { kind, residue } => ("tess repeat", kind, residue),
        KindFault::Partner { kind, residue } => ("tess partner", kind, residue),
        KindFault::Valence { kind, residue } => ("tess valence", kind, residue),
        KindFault::Involution { kind, residue } => ("tess involution", kind, residue),
        KindFault::Corner { kind, residue } => ("tess corner", kind, residue),
    };
    print_line(alloc, text, &[u64::from(kind), u64::from(residue)])
}

/// `rules shape` and the name of the part.
fn shape_words(part: Part) -> &'static str
    ensures { result.now ≡ shape_words_of part }
{
    match part {
        Part::Whole => "rules shape whole",
        Part::Version => "rules shape version",
        Part::Scale => "rules shape scale",
        Part::Roots => "rules shape roots",
        Part::Corners => "rules shape corners",
        Part::Corner => "rules shape corner",
        Part::States => "rules shape states",
        Part::State => "rules shape state",
    }
}
