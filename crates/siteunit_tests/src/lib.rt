// A box is put to its calls, on both lattices and both stores.
#![tactic(auto)]

#[cfg(test)]
mod tests {
    use interpreter::Ending;
    use lattice::{Chain, Lattice, ReaderSets};
    use records::{Refusal, Rule};
    use siteunit::SiteBox;
    use std::process::Abort;
    use store::{DenseStore, SparseStore, Store};

    // Conditions 0 and 1, at a low and at a high level. Variable 0 may be fed, and is wiped on condition 0; variable 1 is at the
    // lowest level, and may be fed; variable 2 is like variable 0, but may not be fed.
    const ON_CHAIN: [u8; 96] = [
        b'C', 0, 0, 0, 0, 0, 0, 0, //
        b'C', 1, 0, 0, 0, 0, 0, 2, //
        b'V', 0, 1, 0, 0, 0, 0, 0, //
        b'E', 0, 0, 0, 0, 0, 0, 0, //
        b'L', 0, 0, 0, 0, 0, 0, 1, //
        b'L', 0, 0, 0, 0, 0, 0, 3, //
        b'V', 1, 1, 0, 0, 0, 0, 0, //
        b'L', 0, 0, 0, 0, 0, 0, 0, //
        b'V', 2, 0, 0, 0, 0, 0, 0, //
        b'E', 0, 0, 0, 0, 0, 0, 0, //
        b'L', 0, 0, 0, 0, 0, 0, 1, //
        b'L', 0, 0, 0, 0, 0, 0, 3,
    ];

    // The same over sets of readers.
    const ON_READERS: [u8; 96] = [
        b'C', 0, 0, 0, 0, 0, 255, 255, //
        b'C', 1, 0, 0, 0, 0, 0, 1, //
        b'V', 0, 1, 0, 0, 0, 0, 0, //
        b'E', 0, 0, 0, 0, 0, 0, 0, //
        b'L', 0, 0, 0, 0, 0, 0, 3, //
        b'L', 0, 0, 0, 0, 0, 0, 0, //
        b'V', 1, 1, 0, 0, 0, 0, 0, //
        b'L', 0, 0, 0, 0, 0, 255, 255, //
        b'V', 2, 0, 0, 0, 0, 0, 0, //
        b'E', 0, 0, 0, 0, 0, 0, 0, //
        b'L', 0, 0, 0, 0, 0, 0, 3, //
        b'L', 0, 0, 0, 0, 0, 0, 0,
    ];

    // Sets variable 2 to 7, and variable 1 to 0 in a loop that tests it.
    const PROGRAM: [u8; 32] = [
        b'S', 2, 0, 0, 0, 0, 0, 7, //
        b'W', 0, 1, 0, 0, 0, 0, 0, //
        b'S', 1, 0, 0, 0, 0, 0, 0, //
        b'K', 0, 0, 0, 0, 0, 0, 0,
    ];

    // `mid` may know variable 0 for now, and `low` may know what is at the lowest level.
    #[derive(Clone, Copy)]
    struct Levels {
        low: u32,
        mid: u32,
    }

    // How many bytes the image has, and where a 7 in variable 2 shows in it.
    #[derive(Clone, Copy)]
    struct Image {
        size: usize,
        place: usize,
    }

    fn refused<T: Drop>(rt: &impl Abort, res: Result<T, Refusal>, rule: Rule) {
        assert_eq!(rt; res.err(), Some(rule.into()));
    }

    fn before_a_sheet<L: Lattice, S: Store>(rt: &impl Abort, site: &mut SiteBox<L, S>) {
        refused(rt, site.feed(0, 7), Rule::NeedsSheet);
        refused(rt, site.raise(0), Rule::NeedsSheet);
        refused(rt, site.lower(0), Rule::NeedsSheet);
        refused(rt, site.look(0, 0), Rule::NeedsSheet);
        refused(rt, site.ask(0, 0), Rule::NeedsSheet);
        refused(rt, site.load(&[]), Rule::NeedsSheet);
        refused(rt, site.pass(1), Rule::NeedsSheet);
        refused(rt, site.image(0, &mut [0]), Rule::NeedsSheet);
        refused(rt, site.sheet(&[0]), Rule::SheetLength);
    }

    fn refusals<L: Lattice, S: Store>(
        rt: &impl Abort,
        site: &mut SiteBox<L, S>,
        Levels { low, mid }: Levels,
    ) {
        refused(rt, site.sheet(&[]), Rule::NoSheetYet);
        refused(rt, site.feed(3, 7), Rule::IsVariable);
        refused(rt, site.feed(255, 7), Rule::IsVariable);
        refused(rt, site.feed(2, 7), Rule::MayBeFed);
        refused(rt, site.raise(2), Rule::IsCondition);
        refused(rt, site.lower(255), Rule::IsCondition);
        refused(rt, site.look(70_000, 0), Rule::IsLevel);
        refused(rt, site.look(mid, 3), Rule::IsVariable);
        refused(rt, site.look(low, 0), Rule::MayKnow);
        refused(rt, site.ask(70_000, 0), Rule::IsLevel);
        refused(rt, site.ask(low, 2), Rule::IsCondition);
        refused(rt, site.ask(mid, 1), Rule::MayKnow);
        refused(rt, site.image(70_000, &mut [0]), Rule::IsLevel);
        refused(rt, site.image(low, &mut [0]), Rule::MayKnow);
        refused(rt, site.image(mid, &mut [0]), Rule::RoomForImage);
        refused(rt, site.load(&[0]), Rule::ProgramLength);
        refused(rt, site.load(&[0; 8]), Rule::ProgramLetter);
    }

    fn wiping<L: Lattice, S: Store>(
        rt: &impl Abort,
        site: &mut SiteBox<L, S>,
        Levels { low, mid }: Levels,
    ) {
        assert_eq!(rt; site.look(mid, 0), Ok(0));
        assert_eq!(rt; site.feed(0, i32::MIN), Ok(()));
        assert_eq!(rt; site.feed(1, -1), Ok(()));
        assert_eq!(rt; site.look(mid, 0), Ok(i32::MIN));
        assert_eq!(rt; site.raise(0), Ok(()));
        assert_eq!(rt; site.look(mid, 0), Ok(0));
        assert_eq!(rt; site.look(low, 1), Ok(-1));
        refused(rt, site.feed(0, 9), Rule::NotWiped);
        assert_eq!(rt; site.feed(1, 5), Ok(()));
        assert_eq!(rt; site.ask(low, 0), Ok(true));
        assert_eq!(rt; site.raise(1), Ok(()));
        assert_eq!(rt; site.lower(0), Ok(()));
        assert_eq!(rt; site.ask(low, 0), Ok(false));
        assert_eq!(rt; site.look(mid, 0), Ok(0));
        assert_eq!(rt; site.feed(0, 9), Ok(()));
        assert_eq!(rt; site.look(mid, 0), Ok(9));
        assert_eq!(rt; site.look(low, 1), Ok(5));
    }

    // Variable 1 holds 5 at the start.
    fn programs<L: Lattice, S: Store>(
        rt: &impl Abort,
        site: &mut SiteBox<L, S>,
        Levels { low, mid }: Levels,
    ) {
        refused(rt, site.pass(1), Rule::NeedsProgram);
        assert_eq!(rt; site.load(&PROGRAM), Ok(4));
        assert_eq!(rt; site.pass(0), Ok(Ending::Spent { used: 0 }));
        assert_eq!(rt; site.look(mid, 2), Ok(7));
        assert_eq!(rt; site.look(low, 1), Ok(5));
        assert_eq!(rt; site.pass(9), Ok(Ending::Done { used: 1 }));
        assert_eq!(rt; site.look(low, 1), Ok(0));
        assert_eq!(rt; site.pass(9), Ok(Ending::Done { used: 0 }));
        refused(rt, site.load(&[0; 8]), Rule::ProgramLetter);
        assert_eq!(rt; site.raise(0), Ok(()));
        assert_eq!(rt; site.pass(9), Ok(Ending::Done { used: 0 }));
        assert_eq!(rt; site.look(mid, 2), Ok(0));
        assert_eq!(rt; site.lower(0), Ok(()));
        assert_eq!(rt; site.pass(9), Ok(Ending::Done { used: 0 }));
        assert_eq!(rt; site.look(mid, 2), Ok(7));
        assert_eq!(rt; site.load(&[]), Ok(0));
        assert_eq!(rt; site.pass(0), Ok(Ending::Done { used: 0 }));
    }

    // Variable 2 holds 7. What follows the image in the buffer stays.
    fn images<L: Lattice, S: Store>(
        rt: &impl Abort,
        site: &SiteBox<L, S>,
        level: u32,
        Image { size, place }: Image,
    ) {
        let mut short = [170; 255];
        refused(rt, site.image(level, &mut short), Rule::RoomForImage);
        assert_eq!(rt; short[0], 170);
        let mut buffer = [170; 400];
        assert_eq!(rt; site.image(level, &mut buffer), Ok(size));
        for (at, byte) in [
            (place, 7),
            (size.saturating_sub(1), 0),
            (size, 170),
            (399, 170),
        ] {
            assert_eq!(rt; buffer.get(at).copied(), Some(byte), "at {at}");
        }
    }

    fn calls<L: Lattice + Drop, S: Store>(
        rt: &impl Abort,
        lattice: L,
        sheet: &[u8],
        levels: Levels,
        image: Image,
    ) {
        let mut site: SiteBox<L, S> = SiteBox::new(lattice);
        before_a_sheet(rt, &mut site);
        assert_eq!(rt; site.sheet(sheet), Ok(3));
        refusals(rt, &mut site, levels);
        wiping(rt, &mut site, levels);
        refusals(rt, &mut site, levels);
        programs(rt, &mut site, levels);
        refusals(rt, &mut site, levels);
        images(rt, &site, levels.mid, image);
    }

    const IN_DENSE: Image = Image {
        size: 256,
        place: 11,
    };

    const IN_SPARSE: Image = Image {
        size: 320,
        place: 4,
    };

    #[test]
    fn on_a_chain(rt: HostRuntime) {
        let chain = Chain { top: 3 };
        let levels = Levels { low: 0, mid: 1 };
        calls::<Chain, DenseStore>(&rt, chain, &ON_CHAIN, levels, IN_DENSE);
        calls::<Chain, SparseStore>(&rt, chain, &ON_CHAIN, levels, IN_SPARSE);
    }

    #[test]
    fn on_sets_of_readers(rt: HostRuntime) {
        let levels = Levels {
            low: 65_535,
            mid: 3,
        };
        calls::<ReaderSets, DenseStore>(&rt, ReaderSets, &ON_READERS, levels, IN_DENSE);
        calls::<ReaderSets, SparseStore>(&rt, ReaderSets, &ON_READERS, levels, IN_SPARSE);
    }
}
