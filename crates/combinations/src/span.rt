// What is left of a list while it is combined with another: a span at hand, and the words after it.
ghost use Rattle.std.specs.Prelude.{◌≡◌, min, ◌+◌, ◌<◌, ◌≤◌, length};
ghost use Rattle.words.specs.Inner.{Alone};
ghost use Rattle.lists.specs.Inner.{Filled};
ghost use Rattle.combinations.specs.Inner.{remaining, shorter, past, Opened};

use words::word::{group_in, span_of};

// What is left of a list: `left` times one group, then the words from place `next` on.
#[derive(Clone, Copy)]
pub struct Span {
    pub group: u32,
    pub left: u32,
    pub next: usize,
}

// The same groups with at least one at hand: the next word is opened where the span is used up.
pub fn opened(list: &[u32], span: Span) -> Span
    requires { Filled list.now × (0 < length (remaining list.now span)) × Alone span.group span.left × (span.group < 0x80000000)
        × (span.next ≤ length list.now) }
    ensures { Opened list.now span result }
{
    if span.left != 0 {
        return span;
    }
    let next = span.next;
    let word = list[next];
    Span {
        group: group_in(word),
        left: span_of(word),
        next: next + 1,
    }
}

// How many groups both of two spans have at hand.
pub fn common(x: Span, y: Span) -> u32
    ensures { result ≡ min x.left y.left }
{
    x.left.min(y.left)
}

// The span without its first groups.
pub fn shortened(span: Span, count: u32) -> Span
    requires { count ≤ span.left }
    ensures { result ≡ shorter span count }
{
    Span {
        left: span.left - count,
        ..span
    }
}

// The same span with so many of the words after it left out.
pub fn moved(span: Span, words: usize) -> Span
    requires { span.next + words < 0x10000000000000000 }
    ensures { result ≡ past span words }
{
    Span {
        next: span.next + words,
        ..span
    }
}
