// The combination of two packed lists: words of the left one that lie within zeros of the right one are
// copied as they are, and between them each step takes the shorter of the two spans at hand. Each word of
// the result is written once.
ghost use Rattle.std.specs.Prelude.{◌≡◌, ◌++◌, ◌≤◌, length, drop};
ghost use Rattle.words.specs.Words.{decode, encode};
ghost use Rattle.lists.specs.Combine.{exclusive, combined};
ghost use Rattle.lists.specs.Inner.{Formed, Covers};

use crate::copying::next_copy;
use crate::span::{Span, common, moved, opened, shortened};
use words::writer::ListWriter;

// Writes the canonical list of the XOR of two lists to a place that is long enough; answers its
// length. Both lists have `groups` groups. Where the right list has zeros, words of the left one, which
// keeps the form, are copied as they are.
pub fn xor_into(left: &[u32], right: &[u32], groups: u32, out: &mut [u32]) -> usize
    requires { Covers groups left.now × Covers groups right.now × (groups ≤ 4096)
        × (length (encode (combined exclusive (decode left.now) (decode right.now))) ≤ length out.old)
        × Formed left.now }
    ensures { (result ≡ length (encode (combined exclusive (decode left.now) (decode right.now))))
        × (out.new ≡ encode (combined exclusive (decode left.now) (decode right.now)) ++ drop result out.old) }
{
    let start = Span {
        group: 0,
        left: 0,
        next: 0,
    };
    let mut from_left = start;
    let mut from_right = start;
    let mut list = ListWriter::new(out);
    let mut done: u32 = 0;
    while done < groups {
        let ahead = opened(right, from_right);
        let copying = next_copy(left, from_left, ahead, list.pending);
        let words = &left[from_left.next..from_left.next + copying.words];
        list.splice(copying.ended, words, copying.pending);
        let x = opened(left, moved(from_left, copying.words));
        let y = shortened(ahead, copying.groups);
        let count = common(x, y);
        list.push(x.group ^ y.group, count);
        from_left = shortened(x, count);
        from_right = shortened(y, count);
        done += copying.groups + count;
    }
    list.finish()
}
