// The calls of the index, each over what is lent of the console's memory. (The check covers a part of an array field
// that is lent by way of the whole: `&mut desk.words[..]`, and of that a part.)
use desk_orders::state::Desk;
use fields::numbers::decimal_in;
use fields::values::read_into;
use index::answering::{query, value};
use index::auditing::audit;
use index::changing::{delete, insert, merge, update};
use index::dumping::dump;
use index::loading::load;
use lines::failure::Failure;
use lines::orders::{Change, Load, Question};
use lines::output::Output;
use lines::replies::{say_rows, say_value, say_words};
use memory::header::Changed;
use std::io::Write;

// Reads the column of a load, and loads it. A refused load keeps the header.
pub fn make_load(desk: &mut Desk, out: &mut Output, order: Load<'_>) -> Result<(), Failure> {
    let Load {
        rows,
        values,
        threshold,
        spacing,
        column,
    } = order;
    let byte = |field: &[u8]| u8::try_from(decimal_in(field)?).ok();
    let count = read_into(column, &mut desk.rows, byte).ok_or(Failure::NoCommand)?;
    let words = &mut desk.words[..];
    let fences = &mut desk.fences[..];
    let changed = load(
        &mut words[..desk.lent.words],
        &mut fences[..desk.lent.fences],
        &desk.rows[..count],
        rows,
        values,
        threshold,
        spacing,
    );
    desk.accept(changed)?;
    writeln!(out, "0 loaded {}", desk.header.issued)?;
    Ok(())
}

// What the index makes of a change.
fn changed_by(desk: &mut Desk, change: Change) -> Changed {
    let header = desk.header;
    let words = &mut desk.words[..];
    let words = &mut words[..desk.lent.words];
    let fences = &mut desk.fences[..];
    let fences = &mut fences[..desk.lent.fences];
    match change {
        Change::Insert { value } => insert(words, fences, header, value),
        Change::Update { row, value } => update(words, fences, header, row, value),
        Change::Delete { row } => delete(words, fences, header, row),
        Change::Merge { value } => merge(words, fences, header, value),
    }
}

// Makes a change. An insert answers its row.
pub fn make_change(desk: &mut Desk, out: &mut Output, change: Change) -> Result<(), Failure> {
    let changed = changed_by(desk, change);
    let row = desk.accept(changed)?;
    match change {
        Change::Insert { .. } => writeln!(out, "0 row {row}")?,
        _ => writeln!(out, "0")?,
    }
    Ok(())
}

// Asks the index. The rows of a value, and those of a dump, go where there is room lent for them.
pub fn ask(desk: &mut Desk, out: &mut Output, question: Question) -> Result<(), Failure> {
    let header = desk.header;
    let words = &desk.words[..desk.lent.words];
    let fences = &desk.fences[..desk.lent.fences];
    match question {
        Question::Query { value } => {
            let list = &mut desk.list[..];
            let count = query(words, fences, &mut list[..desk.lent.room], header, value)?;
            say_words(out, list, count)?;
        }
        Question::Value { row } => say_value(out, value(words, fences, header, row))?,
        Question::Dump => {
            let rows = &mut desk.rows[..];
            let count = dump(words, fences, &mut rows[..desk.lent.room], header)?;
            say_rows(out, rows, count)?;
        }
        Question::Audit => {
            audit(words, fences, header)?;
            writeln!(out, "0")?;
        }
    }
    Ok(())
}
