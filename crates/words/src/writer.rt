// The writer of canonical lists. Groups come from the left; a run of uniform groups stays pending
// until a group of another kind ends it. A step decides which words to write now; a store writes them.
ghost use Rattle.std.specs.Prelude.{◌≡◌, [], ◌∷◌, ◌++◌, ◌+◌, ◌<◌, ◌≤◌, length, drop, replicate};
ghost use Rattle.std.proofs.lemmas.List.Edits.{sets};
ghost use Rattle.words.specs.Words.{all_ones};
ghost use Rattle.words.specs.Inner.{uniform, Alone, Takes, written, last_words, no_run, Fits, Follows, Closes};

use crate::word::{ALL_ONES, fill_word};

// A run of `count` groups of one bit that is not written yet; none where `count` is 0.
#[derive(Clone, Copy)]
pub struct Pending {
    pub bit: u32,
    pub count: u32,
}

// The words to write now, none, one or two, and the run that is pending after them.
#[derive(Clone, Copy)]
pub struct Step {
    pub words: usize,
    pub first: u32,
    pub second: u32,
    pub pending: Pending,
}

// A canonical list that is being written over the front of `out`: its words so far, and the run that is pending.
#[derive(Drop)]
pub struct ListWriter<'a> {
    pub out: &'a mut [u32],
    pub written: usize,
    pub pending: Pending,
}

impl<'a> ListWriter<'a> {
    // No word is written, and no run is pending.
    pub fn new(out: &'a mut [u32]) -> ListWriter<'a>
        ensures same_reference { result.out.ghost_name ≡ out.entry.ghost_name }
        ensures begins { (result.out.now ≡ out.old) × (result.written ≡ 0) × (result.pending ≡ no_run) }
    {
        ListWriter {
            out,
            written: 0,
            pending: Pending { bit: 0, count: 0 },
        }
    }

    // Takes in `count` times one group; more than once only where the group is uniform.
    pub fn push(&mut self, group: u32, count: u32)
        requires { (0 < count) × Alone group count × Fits (replicate count group) self.old }
        ensures same_reference { self.new.out.ghost_name ≡ self.old.out.ghost_name }
        ensures follows { Follows (replicate count group) self.old self.new }
    {
        let step = next_step(self.pending, group, count);
        self.written = store(self.out, self.written, step);
        // Field by field: written as a pair the two would share a register and be taken apart at each group.
        self.pending.bit = step.pending.bit;
        self.pending.count = step.pending.count;
    }

    // Takes in `count` groups without a 1; `count` may be 0.
    pub fn push_zeros(&mut self, count: u32)
        requires { Fits (replicate count 0) self.old }
        ensures same_reference { self.new.out.ghost_name ≡ self.old.out.ghost_name }
        ensures follows { Follows (replicate count 0) self.old self.new }
    {
        if count != 0 {
            self.push(0, count);
        }
    }

    // Writes a run, and behind it some words as they are; after them the run `pending` is pending.
    pub fn splice(&mut self, ended: Pending, words: &[u32], pending: Pending)
        requires { (ended.bit < 2) × (ended.count < 0x40000000)
            × (self.old.written + length (last_words ended ++ words.now) ≤ length self.old.out.now) }
        ensures same_reference { self.new.out.ghost_name ≡ self.old.out.ghost_name }
        ensures splices { (self.new.out.now ≡ sets self.old.out.now self.old.written (last_words ended ++ words.now))
            × (self.new.written ≡ self.old.written + length (last_words ended ++ words.now))
            × (self.new.pending ≡ pending) }
    {
        let start = finish(self.out, self.written, ended);
        let end = start + words.len();
        copy(words, &mut self.out[start..end]);
        self.written = end;
        self.pending = pending;
    }

    // Writes the run that is pending when no group is left; answers the length of the list.
    pub fn finish(self) -> usize
        requires { Closes self }
        ensures { (result ≡ self.entry.written + length (last_words self.entry.pending))
            × (self.exit.0.now ≡ sets self.entry.out.now self.entry.written (last_words self.entry.pending)) }
    {
        let ListWriter {
            out,
            written,
            pending,
        } = self;
        finish(out, written, pending)
    }
}

// `count` groups of one bit come after a pending run.
fn step_fill(pending: Pending, bit: u32, count: u32) -> Step
    requires { (pending.bit < 2) × (bit < 2) × (0 < count) × (pending.count + count < 0x40000000) }
    ensures { Takes pending (uniform bit count) result }
{
    if pending.count == 0 {
        return Step {
            words: 0,
            first: 0,
            second: 0,
            pending: Pending { bit, count },
        };
    }
    if pending.bit == bit {
        let longer = pending.count + count;
        return Step {
            words: 0,
            first: 0,
            second: 0,
            pending: Pending { bit, count: longer },
        };
    }
    let word = fill_word(pending.bit, pending.count);
    Step {
        words: 1,
        first: word,
        second: 0,
        pending: Pending { bit, count },
    }
}

// A group that is not uniform comes after a pending run.
fn step_literal(pending: Pending, group: u32) -> Step
    requires { (pending.bit < 2) × (pending.count < 0x40000000) × (group ≡ 0 → ⊥) × (group ≡ all_ones → ⊥) }
    ensures { Takes pending (group ∷ []) result }
{
    if pending.count == 0 {
        return Step {
            words: 1,
            first: group,
            second: 0,
            pending: Pending { bit: 0, count: 0 },
        };
    }
    let word = fill_word(pending.bit, pending.count);
    Step {
        words: 2,
        first: word,
        second: group,
        pending: Pending { bit: 0, count: 0 },
    }
}

// `count` times one group come after a pending run; more than once only where the group is uniform.
pub fn next_step(pending: Pending, group: u32, count: u32) -> Step
    requires { (pending.bit < 2) × (0 < count) × (pending.count + count < 0x40000000) × Alone group count }
    ensures { Takes pending (replicate count group) result }
{
    if group == 0 {
        return step_fill(pending, 0, count);
    }
    if group == ALL_ONES {
        return step_fill(pending, 1, count);
    }
    step_literal(pending, group)
}

// Writes a step's words from place `at` on; answers the next place.
pub fn store(out: &mut [u32], at: usize, step: Step) -> usize
    requires { (step.words ≤ 2) × (at + step.words ≤ length out.old) }
    ensures { (result ≡ at + step.words) × (out.new ≡ sets out.old at (written step)) }
{
    let words = step.words;
    if words == 0 {
        return at;
    }
    out[at] = step.first;
    if words == 1 {
        return at + 1;
    }
    out[at + 1] = step.second;
    at + 2
}

// Writes the run that is pending when no group is left; answers the length of the list.
pub fn finish(out: &mut [u32], at: usize, pending: Pending) -> usize
    requires { (pending.bit < 2) × (pending.count < 0x40000000) × (at + length (last_words pending) ≤ length out.old) }
    ensures { (result ≡ at + length (last_words pending)) × (out.new ≡ sets out.old at (last_words pending)) }
{
    if pending.count == 0 {
        return at;
    }
    out[at] = fill_word(pending.bit, pending.count);
    at + 1
}

// Writes a finished list over the front of an output; what comes after it stays. Word by word: by
// `copy_from_slice` the library for C would need `memmove`, since what is known of the two slices is lost there.
pub fn copy(list: &[u32], out: &mut [u32])
    requires { length list.now ≤ length out.old }
    ensures { out.new ≡ list.now ++ drop (length list.now) out.old }
{
    for (i, &word) in list.iter().enumerate() {
        out[i] = word;
    }
}
