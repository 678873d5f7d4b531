// What the items of a line spell, item by item.
ghost use Rattle.std.specs.Prelude.{◌≤◌, List, Some, length, take, IfSome};
ghost use Rattle.std.specs.List.{AllZip};
ghost use Rattle.std.specs.Iterator.{Drains, IsFinite};

// Puts what each item spells into a list; answers how many they are, or none where an item spells nothing or the
// list is full.
pub fn read_into<T: Drop, I: Iterator, F: Fn(I::Item) -> Option<T>>(
    items: I,
    list: &mut [T],
    read: F,
) -> Option<usize>
    requires can { I.can_next items }
    requires ends { IsFinite (I.remaining items) }
    requires callable { F.IsAlwaysCallable read }
    ensures fits { IfSome result (λ count. count ≤ length list.new) }
    ensures read { IfSome result (λ count. (xs : List I.Item) × Drains I.next_gives items xs
        × AllZip (λ x value. F.post read x (Some value)) xs (take count list.new)) }
{
    let mut count = 0;
    for item in items {
        let value = read(item)?;
        if count == list.len() {
            return None;
        }
        list[count] = value;
        count += 1;
    }
    Some(count)
}
