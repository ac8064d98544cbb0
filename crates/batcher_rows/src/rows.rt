//! The rows of the benchmark: how many participants, how the round keeps its votes, and in what
//! order and how they come.

ghost use Rattle.std.specs.Prelude.{◌≤◌};

pub use batcher::votes::Mode;
use std::alloc::{AllocError, Global};
use std::fmt;

/// In what order the participants vote.
#[derive(Clone, Copy, Debug, PartialEq, Eq)]
pub enum Order {
    Ascending,
    Shuffled,
    Descending,
}

/// How the votes of a kind come.
#[derive(Clone, Copy, Debug, PartialEq, Eq)]
pub enum Course {
    /// Each vote once, all before the certificate.
    Once,
    /// Each vote twice in a row.
    Repeated,
    /// Each vote once, and every third one bears a bad signature.
    BadThird,
    /// A quorum before the certificate, and the others after it.
    GoesOn,
}

/// How many bytes a signature has.
#[derive(Clone, Copy, Debug, PartialEq, Eq)]
pub enum Size {
    Bytes8,
    Bytes32,
    Bytes64,
}

/// One row: a kind of round that is played.
#[derive(Clone, Copy, Debug, PartialEq, Eq)]
pub struct Row {
    pub participants: u32,
    pub size: Size,
    pub mode: Mode,
    pub order: Order,
    pub course: Course,
    ghost some: { 1 ≤ participants },
}

impl fmt::Display for Size {
    fn fmt<W: fmt::Write>(&self, f: &mut fmt::Formatter<W>) -> fmt::Result {
        f.pad(match self {
            Size::Bytes8 => "8",
            Size::Bytes32 => "32",
            Size::Bytes64 => "64",
        })
    }
}

impl fmt::Display for Order {
    fn fmt<W: fmt::Write>(&self, f: &mut fmt::Formatter<W>) -> fmt::Result {
        f.pad(match self {
            Order::Ascending => "ascending",
            Order::Shuffled => "shuffled",
            Order::Descending => "descending",
        })
    }
}

impl fmt::Display for Course {
    fn fmt<W: fmt::Write>(&self, f: &mut fmt::Formatter<W>) -> fmt::Result {
        f.pad(match self {
            Course::Once => "once",
            Course::Repeated => "repeated",
            Course::BadThird => "bad-third",
            Course::GoesOn => "goes-on",
        })
    }
}

impl fmt::Display for Row {
    fn fmt<W: fmt::Write>(&self, f: &mut fmt::Formatter<W>) -> fmt::Result {
        let participants = self.participants;
        let size = self.size;
        let mode = mode_word(self.mode);
        let order = self.order;
        let course = self.course;
        write!(
            f,
            "{participants:>12} {size:>5} {mode:<9} {order:<10} {course:<9}"
        )
    }
}

/// The row that five words name, as they are in its line.
pub fn row_named(words: &[String]) -> Option<Row> {
    if words.len() != 5 {
        return None;
    }
    let participants = words[0].as_str().parse::<u32>().ok()?;
    let size = size_named(words[1].as_str())?;
    let mode = mode_named(words[2].as_str())?;
    let order = order_named(words[3].as_str())?;
    let course = course_named(words[4].as_str())?;
    if participants == 0 {
        return None;
    }
    Some(Row {
        participants,
        size,
        mode,
        order,
        course,
    })
}

fn size_named(word: &str) -> Option<Size> {
    match word {
        "8" => Some(Size::Bytes8),
        "32" => Some(Size::Bytes32),
        "64" => Some(Size::Bytes64),
        _ => None,
    }
}

fn mode_word(mode: Mode) -> &'static str {
    match mode {
        Mode::Retaining => "retaining",
        Mode::Releasing => "releasing",
        Mode::Skipped => "skipped",
    }
}

fn mode_named(word: &str) -> Option<Mode> {
    match word {
        "retaining" => Some(Mode::Retaining),
        "releasing" => Some(Mode::Releasing),
        "skipped" => Some(Mode::Skipped),
        _ => None,
    }
}

fn order_named(word: &str) -> Option<Order> {
    match word {
        "ascending" => Some(Order::Ascending),
        "shuffled" => Some(Order::Shuffled),
        "descending" => Some(Order::Descending),
        _ => None,
    }
}

fn course_named(word: &str) -> Option<Course> {
    match word {
        "once" => Some(Course::Once),
        "repeated" => Some(Course::Repeated),
        "bad-third" => Some(Course::BadThird),
        "goes-on" => Some(Course::GoesOn),
        _ => None,
    }
}

/// All rows, in the order in which they are printed.
pub fn rows(alloc: Global) -> Result<Vec<Row>, AllocError> {
    let mut rows = Vec::new(alloc);
    for participants in [10, 100, 1000] {
        add_rows(&mut rows, participants)?;
    }
    Ok(rows)
}

// Adds the rows of so many participants: all courses with signatures of one word, and in a skipped
// view, and with longer signatures, those in which each vote comes once.
fn add_rows(rows: &mut Vec<Row>, participants: u32) -> Result<(), AllocError>
    requires { 1 ≤ participants }
{
    for mode in [Mode::Retaining, Mode::Releasing] {
        add_once(rows, participants, Size::Bytes8, mode)?;
        for course in [Course::Repeated, Course::BadThird, Course::GoesOn] {
            rows.push(Row {
                participants,
                size: Size::Bytes8,
                mode,
                order: Order::Ascending,
                course,
            })?;
        }
    }
    add_once(rows, participants, Size::Bytes8, Mode::Skipped)?;
    add_once(rows, participants, Size::Bytes32, Mode::Retaining)?;
    add_once(rows, participants, Size::Bytes64, Mode::Retaining)
}

// Adds the rows in which each vote comes once, one for each order.
fn add_once(
    rows: &mut Vec<Row>,
    participants: u32,
    size: Size,
    mode: Mode,
) -> Result<(), AllocError>
    requires { 1 ≤ participants }
{
    for order in [Order::Ascending, Order::Shuffled, Order::Descending] {
        rows.push(Row {
            participants,
            size,
            mode,
            order,
            course: Course::Once,
        })?;
    }
    Ok(())
}
