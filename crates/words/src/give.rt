// A finished list is given to a caller: whole, or not at all.
ghost use Rattle.answers.specs.Outcome.{Gives};
ghost use Rattle.answers.specs.Inner.{given};

use crate::writer::copy;
use answers::{Answer, Refusal};

// Writes a finished list over the front of an output and answers its length, or refuses an output that is
// shorter.
pub fn give_list(list: &[u32], out: &mut [u32]) -> Answer
    ensures { Gives (given list.now out.old) result out.new }
{
    if out.len() < list.len() {
        return Err(Refusal::OutSmall);
    }
    copy(list, out);
    Ok(list.len())
}
