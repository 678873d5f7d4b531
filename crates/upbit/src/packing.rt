// Pack and Unpack under their C names. Each is the call of `packs` that its body names, where its refusals and
// costs are said.
ghost use Rattle.packs.specs.Calls.{pack_outcome, unpack_outcome};
ghost use Rattle.upbit.specs.Told.{Tells};

use crate::numbers::AnswerNumbers;

#[unsafe(no_mangle)]
pub extern "C" fn upbit_pack(rows: &[u8], out: &mut [u32]) -> AnswerNumbers
    ensures { Tells (pack_outcome rows.now out.old) result out.new }
{
    AnswerNumbers::from(packs::pack(rows, out))
}

// The number of rows stands behind the slices, as in every call.
#[unsafe(no_mangle)]
pub extern "C" fn upbit_unpack(list: &[u32], out: &mut [u8], length: usize) -> AnswerNumbers
    ensures { Tells (unpack_outcome list.now length out.old) result out.new }
{
    AnswerNumbers::from(packs::unpack(list, length, out))
}
