// Audit: whether an index is sound. It looks at everything: the header, the lists and the unused words of
// every value, its fences, and whether a row is in two values.
ghost use Rattle.std.specs.Prelude.{◌≡◌, length};
ghost use Rattle.answers.specs.Numbers.{paper};
ghost use Rattle.index.specs.Calls.{audit_outcome};
ghost use Rattle.memory.specs.Inner.{Planned};
ghost use Rattle.memory.specs.Memory.{memory_of};

use answers::{Answer, Refusal};
use block_read::fence::Fence;
use blocks::sizes::Sizes;
use fence_records::checking::audit_values;
use groups::rows::GROUP_LIMIT;
use memory::entry::enter_index;
use memory::header::Header;

// Audit of an index whose header and sizes hold.
fn audit_index(words: &[u32], fences: &[Fence], header: Header, sizes: Sizes) -> Answer
    requires { Planned header sizes (length words.now) (length fences.now) }
    ensures { paper result ≡ (audit_outcome header (memory_of words.now fences.now)).answer }
{
    let mut taken = [0u32; GROUP_LIMIT];
    if !audit_values(words, fences, &mut taken, header, sizes) {
        return Err(Refusal::Damaged);
    }
    Ok(0)
}

// Accepts exactly sound indexes; nothing is changed. Each word is read once for the whole check and once for
// the rows, each fence once. It takes 32 KB of stack.
//
// Refuses: BAD_HEADER, SMALL, DAMAGED.
pub fn audit(words: &[u32], fences: &[Fence], header: Header) -> Answer
    ensures { paper result ≡ (audit_outcome header (memory_of words.now fences.now)).answer }
{
    let sizes = enter_index(words.len(), fences.len(), header)?;
    audit_index(words, fences, header, sizes)
}
