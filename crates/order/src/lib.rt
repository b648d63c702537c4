// The order of tasks that a text gives: one task number on each line.

#![tactic(auto)]

ghost use Rattle.std.specs.Prelude.{[], ◌≡◌, ◌+◌, ◌≤◌, length, get_or};
ghost use Rattle.lines.specs.Lines.{lines_from};
ghost use Rattle.lines.specs.Words.{words_of};
ghost use Rattle.order.specs.Laws.OrderCode.{task_of};
ghost use Rattle.order.specs.Order.{is_yes_word, is_yes, order_lines, tasks_in, TasksRead};

use lines::field::Field;
use lines::fields::fields;
use lines::next_line;
use lines::rows::numbers;
use lines::words::{bare, next_word};

// The number of the first line that is not one task number.
#[derive(Clone, Copy, PartialEq, Eq, Debug)]
pub struct WrongLine(pub usize);

// Whether a line's first word is `yes`.
fn begins_yes(line: &[u8]) -> bool
    ensures { result ≡ is_yes_word (get_or (words_of line.now) 0 []) }
{
    match next_word(bare(line)) {
        Some(word) => word.bytes == b"yes".as_slice(),
        None => false,
    }
}

// Whether a line is `yes` and a number.
fn is_yes(line: &[u8]) -> bool
    ensures { result ≡ is_yes line.now }
{
    let mut row = [Field::Other; 2];
    if fields(line, &mut row) != 2 || !begins_yes(line) {
        return false;
    }
    row[1].number().is_some()
}

// The task number of a line, if the line is one number.
fn task_of(line: &[u8]) -> Option<u32>
    ensures { result ≡ task_of line.now }
{
    let row = numbers::<1>(line)?;
    Some(row[0])
}

// The tasks of the lines of a text, at which line `first` begins. Returns how many there are.
fn read_tasks(text: &[u8], first: usize, tasks: &mut [u32]) -> Result<usize, WrongLine>
    requires text_len_bound { (first + length text.now ≤ usize.MAX) × (1 ≤ first) }
    requires text_in_bounds { length (tasks_in (lines_from first text.now)) ≤ length tasks.old }
    ensures { TasksRead (lines_from first text.now) tasks.old tasks.new result }
{
    let mut count = 0;
    let mut rest = text;
    let mut number = first;
    while let Ok(next) = next_line(rest, number) {
        let task = task_of(next.line).ok_or(WrongLine(next.number))?;
        tasks[count] = task;
        count += 1;
        rest = next.rest;
        number = next.number + 1;
    }
    Ok(count)
}

// The tasks of an order, from the start of the buffer. Returns how many there are.
pub fn read_order(text: &[u8], tasks: &mut [u32]) -> Result<usize, WrongLine>
    requires { (length text.now ≤ 65536) × (32768 ≤ length tasks.old) }
    ensures { TasksRead (order_lines text.now) tasks.old tasks.new result }
{
    match next_line(text, 1) {
        Ok(next) if is_yes(next.line) => read_tasks(next.rest, next.number + 1, tasks),
        _ => read_tasks(text, 1, tasks),
    }
}
