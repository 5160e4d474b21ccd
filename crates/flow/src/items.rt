// The declared items of a table, and what is decided of each of them: as a mask, or as an array.
ghost use Rattle.std.specs.Prelude.{◌≡◌, ◌≤◌, length, min, take, slice_index_or};
ghost use Rattle.std.specs.Fn.{FnReturnsAt};
ghost use Rattle.flow.specs.TableFlows.{EachBit, MadeOfEach};

// The first items, as many as are declared; all of them where more are declared than there are.
pub(crate) fn declared<T>(items: &[T], count: usize) -> &[T]
    ensures { result.now ≡ take (min count (length items.now)) items.now }
{
    &items[..count.min(items.len())]
}

// The places of the items of which a test holds.
pub(crate) fn mask_where<T, F: Fn(&T) -> bool>(items: &[T], test: F) -> u64
    requires few { length items.now ≤ 64 }
    requires callable { F.IsAlwaysCallable test }
    ensures { (d : T) → EachBit (length items.now) (λ i. FnReturnsAt F.Fn test (slice_index_or items.now i d)) result }
{
    let mut mask = 0;
    for (place, item) in items.iter().enumerate() {
        if test(item) {
            mask |= 1 << place;
        }
    }
    mask
}

// What is made of each item, and nothing beyond them.
pub(crate) fn made_of<T, U: Copy + Default, F: Fn(&T) -> U, const N: usize>(
    items: &[T],
    make: F,
) -> [U; N]
    requires { F.IsAlwaysCallable make }
    ensures { MadeOfEach (FnReturnsAt F.Fn make) U.is_default items.now result }
{
    let mut made = [U::default(); N];
    let within = &items[..items.len().min(N)];
    for (place, item) in within.iter().enumerate() {
        made[place] = make(item);
    }
    made
}
