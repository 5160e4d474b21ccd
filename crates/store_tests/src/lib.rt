// Tests of the two stores: each is put to many values, and then compared with a plain table of them.
#![tactic(auto)]

#[cfg(test)]
mod tests {
    use std::process::Abort;
    use store::{DenseStore, SparseStore, Store, sparse_example};

    // A row of numbers that look random.
    fn next(seed: u32) -> u32 {
        seed.wrapping_mul(1_664_525).wrapping_add(1_013_904_223)
    }

    // A place, at times one that no store has.
    fn place_of(seed: u32) -> usize {
        (seed / 65_536 % 72) as usize
    }

    // A value that is zero at times, or the least or the greatest.
    fn value_of(seed: u32) -> i32 {
        match seed / 4096 % 8 {
            0..=2 => 0,
            3 => i32::MIN,
            4 => i32::MAX,
            5 => -1,
            _ => seed.cast_signed(),
        }
    }

    // Puts values into the store and the table alike.
    fn fill<S: Store>(
        rt: &impl Abort,
        store: &mut S,
        table: &mut [i32; 64],
        from: u32,
        turns: u32,
    ) {
        let mut seed = from;
        for _ in 0..turns {
            seed = next(seed);
            let place = place_of(seed);
            let value = value_of(seed);
            assert_eq!(rt; store.put(place, value), place < 64);
            if let Some(cell) = table.get_mut(place) {
                *cell = value;
            }
        }
    }

    fn check_values<S: Store>(rt: &impl Abort, store: &S, table: &[i32; 64]) {
        for (place, value) in table.iter().enumerate() {
            assert_eq!(rt; store.get(place), *value);
        }
        assert_eq!(rt; store.get(64), 0);
        assert_eq!(rt; store.get(usize::MAX), 0);
    }

    fn check_image<S: Store>(rt: &impl Abort, store: &S, image: &[u8]) {
        assert_eq!(rt; store.image_len(), image.len());
        for (at, byte) in image.iter().enumerate() {
            assert_eq!(rt; store.image_byte(at), *byte);
        }
        assert_eq!(rt; store.image_byte(image.len()), 0);
        assert_eq!(rt; store.image_byte(usize::MAX), 0);
    }

    fn dense_image(table: &[i32; 64]) -> [[u8; 4]; 64] {
        table.map(|value| value.to_be_bytes())
    }

    fn sparse_image(table: &[i32; 64]) -> [[u8; 5]; 64] {
        let mut image = [[255, 0, 0, 0, 0]; 64];
        let used = (0..64).zip(table).filter(|(_, value)| **value != 0);
        for (entry, (place, value)) in image.iter_mut().zip(used) {
            let [a, b, c, d] = value.to_be_bytes();
            *entry = [place, a, b, c, d];
        }
        image
    }

    fn after_many_puts<S: Store, F: Fn(&S, &[i32; 64])>(rt: &impl Abort, check: F)
        requires { F.IsAlwaysCallable check }
    {
        let mut store = S::new();
        let mut table = [0; 64];
        check(&store, &table);
        for round in 0..40 {
            fill(rt, &mut store, &mut table, round, 25);
            check_values(rt, &store, &table);
            check(&store, &table);
        }
    }

    #[test]
    fn dense_after_many_puts(rt: HostRuntime) {
        after_many_puts::<DenseStore, _>(
            &rt,
            |store, table| check_image(&rt, store, dense_image(table).as_flattened()),
        );
    }

    #[test]
    fn sparse_after_many_puts(rt: HostRuntime) {
        after_many_puts::<SparseStore, _>(
            &rt,
            |store, table| check_image(&rt, store, sparse_image(table).as_flattened()),
        );
    }

    // Every place used, from the last to the first, and then wiped from the first to the last.
    #[test]
    fn sparse_full_and_empty(rt: HostRuntime) {
        let mut store = SparseStore::new();
        let mut table = [0; 64];
        // By number, here and below: each turn changes the table and compares the whole of it.
        for place in (0..64).rev() {
            table[place] = -7;
            assert!(rt; store.put(place, -7));
            check_image(&rt, &store, sparse_image(&table).as_flattened());
        }
        for place in 0..64 {
            table[place] = 0;
            assert!(rt; store.put(place, 0));
            check_image(&rt, &store, sparse_image(&table).as_flattened());
        }
    }

    #[test]
    fn sparse_worked_example(rt: HostRuntime) {
        let mut table = [0; 64];
        table[2] = -1;
        let store = sparse_example();
        assert_eq!(rt; store.image_byte(0), 2);
        assert_eq!(rt; store.image_byte(4), 255);
        assert_eq!(rt; store.image_byte(5), 255);
        assert_eq!(rt; store.image_byte(6), 0);
        check_image(&rt, &store, sparse_image(&table).as_flattened());
    }

    #[test]
    fn sizes(rt: HostRuntime) {
        assert_eq!(rt; std::mem::size_of::<DenseStore>(), 256);
        assert_eq!(rt; std::mem::size_of::<SparseStore>(), 520);
    }
}
