// The task table by value: its lines by task number, and the check.
#![tactic(auto)]

ghost use Rattle.std.specs.Prelude.{◌≡◌, ◌||◌, [], ◌≤◌, length, sum_by};
ghost use Rattle.rules.specs.Words.{places};
ghost use Rattle.rules.specs.Table.{no_line, breaks, check, ranges_from, pairs_from};
ghost use Rattle.table.specs.Lines.{packed, line_at, given, lines_in, line_answer, refused_as, answered};
ghost use Rattle.table.specs.Copy.{lines_read, begun, copy, as_list, pushed_of};

use rules::{Line, Named, PLACES, Verdict};

// The longest relative deadline.
const LONGEST: u64 = 1000000000;

// What the limits add up to at most.
const MOST: usize = 32;

// Up to N lines, and how many there are; of more the count alone decides.
#[repr(C)]
#[derive(Clone, Copy)]
pub struct LineList<const N: usize> {
    pub lines: [Line; N],
    pub count: usize,
}

// The lines of the tasks. Places at and past the count are blank in a table that is kept.
pub type TaskTable = LineList<PLACES>;

fn blank() -> Line
    ensures { result ≡ no_line }
{
    Line::default()
}

// The line at a task's place. Past the last line of a table that is kept, and past the places, it is blank.
pub fn line_of(table: TaskTable, task: u8) -> Line
    ensures { result ≡ line_at table.lines task }
{
    let t = task as usize;
    if t < PLACES { table.lines[t] } else { blank() }
}

// The lines at two tasks' places.
#[derive(Clone, Copy)]
pub struct LinePair {
    pub one: Line,
    pub other: Line,
}

// Both at once: the table is copied to be looked into, once.
pub fn lines_of(table: TaskTable, one: u8, other: u8) -> LinePair
    ensures { result ≡ record { one = line_at table.lines one; other = line_at table.lines other } }
{
    let i = one as usize;
    let j = other as usize;
    let first = if i < PLACES { table.lines[i] } else { blank() };
    let second = if j < PLACES { table.lines[j] } else { blank() };
    LinePair {
        one: first,
        other: second,
    }
}

// Why a table is refused, with the lines named.
#[derive(Clone, Copy)]
pub enum TableRefusal {
    LineCount,
    Deadline(u8),
    Limit(u8),
    LimitSum,
    Priority(u8, u8),
}

// The refusal as the check answers it.
impl From<TableRefusal> for Verdict {
    ghost use Rattle.std.specs.Prelude.{◌≡◌};
    ghost use Rattle.table.specs.Lines.{refused_as};

    ghost from_gives = { λ refusal verdict. verdict ≡ refused_as refusal };

    fn from(refusal: TableRefusal) -> Verdict {
        match refusal {
            TableRefusal::LineCount => Verdict {
                number: 1,
                lines: Named::NoneNamed,
            },
            TableRefusal::Deadline(line) => Verdict {
                number: 2,
                lines: Named::TheLine(line),
            },
            TableRefusal::Limit(line) => Verdict {
                number: 3,
                lines: Named::TheLine(line),
            },
            TableRefusal::LimitSum => Verdict {
                number: 4,
                lines: Named::NoneNamed,
            },
            TableRefusal::Priority(one, other) => Verdict {
                number: 5,
                lines: Named::BothLines(one, other),
            },
        }
    }
}

// 2 or 3, if line i is out of range; the deadline before the limit.
fn in_range(i: u8, line: Line) -> Result<(), TableRefusal>
    ensures { answered result ≡ line_answer i line }
{
    if line.deadline.0 < 1 || LONGEST < line.deadline.0 {
        return Err(TableRefusal::Deadline(i));
    }
    if line.limit < 1 || 32 < line.limit {
        return Err(TableRefusal::Limit(i));
    }
    Ok(())
}

// ---- the checks of the lines, as a slice of at most 32: so each asks, and `checked` has tested it once

// 2 and 3, line by line from line 0.
fn ranges(lines: &[Line]) -> Result<(), TableRefusal>
    requires { length lines.now ≤ places }
    ensures { answered result ≡ ranges_from 0 lines.now }
{
    for (i, line) in lines.iter().enumerate() {
        in_range(i as u8, *line)?;
    }
    Ok(())
}

// What the limits add up to.
fn limit_sum(lines: &[Line]) -> usize
    requires { length lines.now ≤ places }
    ensures { result ≡ sum_by (λ x. x.limit) lines.now }
{
    lines.iter().map(|line| line.limit as usize).sum()
}

// Whether the shorter relative deadline of two lines lacks the strictly higher priority.
fn clash(x: Line, y: Line) -> bool
    ensures { result ≡ (breaks x y || breaks y x) }
{
    if x.deadline.0 < y.deadline.0 {
        return x.priority <= y.priority;
    }
    if y.deadline.0 < x.deadline.0 {
        return y.priority <= x.priority;
    }
    false
}

// 5: the first pair that breaks the priority rule, lowest first line, then lowest second. Document 01 names this form: two nested loops left by a label.
fn pairs(lines: &[Line]) -> Result<(), TableRefusal>
    requires { length lines.now ≤ places }
    ensures { answered result ≡ pairs_from 0 lines.now }
{
    let n = lines.len();
    let mut found = Ok(());
    'lines: for i in 0..n {
        for j in i + 1..n {
            if clash(lines[i], lines[j]) {
                found = Err(TableRefusal::Priority(i as u8, j as u8));
                break 'lines;
            }
        }
    }
    found
}

// 1, then 2 and 3 line by line, 4, 5.
fn checked(table: &TaskTable) -> Result<(), TableRefusal>
    ensures { answered result ≡ check (given table.now) }
{
    let n = table.count;
    if n < 1 || PLACES < n {
        return Err(TableRefusal::LineCount);
    }
    let lines = &table.lines[..n];
    ranges(lines)?;
    if MOST < limit_sum(lines) {
        return Err(TableRefusal::LimitSum);
    }
    pairs(lines)
}

// The check: the number of what refuses the table, and the lines named; 0 where nothing does.
pub fn check(table: TaskTable) -> Verdict
    ensures { result ≡ check (given table) }
{
    match checked(&table) {
        Ok(()) => Verdict {
            number: 0,
            lines: Named::NoneNamed,
        },
        Err(refusal) => refusal.into(),
    }
}

// The table as it is kept: places at and past the count made blank.
pub fn kept(table: TaskTable) -> TaskTable
    requires { table.count ≤ places }
    ensures { result ≡ packed (lines_in table) }
{
    let mut lines = table.lines;
    let n = table.count;
    for i in n..PLACES {
        lines[i] = blank();
    }
    TaskTable { lines, count: n }
}

// A table of no lines.
pub fn empty() -> TaskTable
    ensures { result ≡ packed [] }
{
    TaskTable {
        lines: [blank(); PLACES],
        count: 0,
    }
}

// ---- a copy of lent lines, one after the other

impl<const N: usize> LineList<N> {
    // How many of so many lines are copied: of more than N none, since their count alone refuses them.
    pub fn lines_read(given: usize) -> usize
        ensures { result ≡ lines_read N given }
    {
        if given <= N { given } else { 0 }
    }

    // The copy before its first line: of more than N it holds their count.
    pub fn begun(given: usize) -> LineList<N>
        ensures { result ≡ as_list N (begun N given) }
    {
        LineList {
            lines: [blank(); N],
            count: given - Self::lines_read(given),
        }
    }

    // One line more. A full list stays as it is.
    pub fn pushed(self, line: Line) -> LineList<N>
        ensures { result ≡ pushed_of N self.entry line }
    {
        let n = self.count;
        if n < N {
            let mut lines = self.lines;
            lines[n] = line;
            return LineList {
                lines,
                count: n + 1,
            };
        }
        self
    }

    // The copy of these lines.
    pub fn copied(lines: &[Line]) -> LineList<N>
        ensures { result ≡ as_list N (copy N lines.now) }
    {
        let mut copy = Self::begun(lines.len());
        for line in &lines[..Self::lines_read(lines.len())] {
            copy = copy.pushed(*line);
        }
        copy
    }
}
