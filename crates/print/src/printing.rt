// What is printed for the bytes of an input, written over the front of an output.
ghost use Rattle.std.specs.Prelude.{◌≡◌, true, ◌++◌, ◌+◌, ◌≤◌, length, drop};
ghost use Rattle.std.proofs.lemmas.List.Edits.{sets};
ghost use Rattle.answers.specs.Numbers.{paper};
ghost use Rattle.memory.specs.Memory.{memory_of};
ghost use Rattle.print.specs.Frame.{is_frame};
ghost use Rattle.print.specs.Printed.{answer_line, value_lines, column_lines, frame_lines, printed};

use crate::frame::{is_frame, line_length, number_at, read_column};
use crate::text::{put_refusal, put_value};
use answers::{Answer, Refusal};
use block_read::fence::Fence;
use index::answering::query;
use index::loading::load;
use memory::header::Header;

// The line of a value whose Query gave an answer and left a list.
fn put_answer(list: &[u32], out: &mut [u8], at: usize, value: u32, answer: Answer) -> usize
    requires { ((paper answer).count ≤ length list.now) × (at + length (answer_line value (paper answer) list.now) ≤ length out.old) }
    ensures { (result ≡ at + length (answer_line value (paper answer) list.now))
        × (out.new ≡ sets out.old at (answer_line value (paper answer) list.now)) }
{
    match answer {
        Ok(count) => put_value(&list[..count], out, at, value),
        Err(refusal) => put_refusal(out, at, u32::from(refusal)),
    }
}

// The lines of all values of an index; each one's list is made in `list`.
fn put_values(
    words: &[u32],
    fences: &[Fence],
    list: &mut [u32],
    out: &mut [u8],
    header: Header,
) -> usize
    requires { (length list.old ≡ 4096)
        × (length (value_lines header (memory_of words.now fences.now) header.values) ≤ length out.old) }
    ensures { (result ≡ length (value_lines header (memory_of words.now fences.now) header.values))
        × (out.new ≡ sets out.old 0 (value_lines header (memory_of words.now fences.now) header.values)) }
{
    let mut next: usize = 0;
    for value in 0..header.values {
        let answer = query(words, fences, list, header, value);
        next = put_answer(list, out, next, value, answer);
    }
    next
}

// The lines of a load on cleared memory.
fn put_column(
    column: &[u8],
    out: &mut [u8],
    rows: u32,
    values: u32,
    threshold: u32,
    spacing: u32,
) -> usize
    requires { 65536 ≤ length out.old }
    ensures { (result ≡ length (column_lines rows values threshold spacing column.now))
        × (out.new ≡ sets out.old 0 (column_lines rows values threshold spacing column.now)) }
{
    let mut words = [0u32; 8192];
    let mut fences = [Fence { place: 0, first: 0 }; 1024];
    let mut list = [0u32; 4096];
    let loaded = load(
        &mut words,
        &mut fences,
        column,
        rows,
        values,
        threshold,
        spacing,
    );
    match loaded.answer {
        Ok(_) => put_values(&words, &fences, &mut list, out, loaded.header),
        Err(refusal) => put_refusal(out, 0, u32::from(refusal)),
    }
}

// The lines of a frame.
fn put_frame(line: &[u8], out: &mut [u8]) -> usize
    requires { (is_frame line.now ≡ true) × (65536 ≤ length out.old) }
    ensures { (result ≡ length (frame_lines line.now)) × (out.new ≡ sets out.old 0 (frame_lines line.now)) }
{
    let mut column = [0u8; 4000];
    let count = read_column(&line[16..], &mut column);
    let rows = number_at(line, 0, 8);
    let values = number_at(line, 8, 10);
    let threshold = number_at(line, 10, 12);
    let spacing = number_at(line, 12, 16);
    put_column(&column[..count], out, rows, values, threshold, spacing)
}

// The lines of a line of input.
fn put_line(line: &[u8], out: &mut [u8]) -> usize
    requires { 65536 ≤ length out.old }
    ensures { (result ≡ length (frame_lines line.now)) × (out.new ≡ sets out.old 0 (frame_lines line.now)) }
{
    if !is_frame(line) {
        return put_refusal(out, 0, u32::from(Refusal::BadFrame));
    }
    put_frame(line, out)
}

// Writes what is printed for the bytes of an input over the front of the output, where 65,536 bytes are
// always enough; answers how many bytes that are.
pub fn print(input: &[u8], out: &mut [u8]) -> usize
    requires { 65536 ≤ length out.old }
    ensures { (result ≡ length (printed input.now)) × (out.new ≡ printed input.now ++ drop result out.old) }
{
    let end = line_length(input);
    put_line(&input[..end], out)
}
