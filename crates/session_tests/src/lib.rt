// Whole sessions, on both lattices and both stores.
#![tactic(auto)]

#[cfg(test)]
mod tests {
    use lattice::{Chain, ReaderSets};
    use records::Rule;
    use session::run;
    use std::process::Abort;
    use store::{DenseStore, SparseStore, Store};
    use stream::{Answer, Call, IMAGE_ROOM, ImageBytes};

    // Condition 0, at level 0, wipes variables 0 and 2, at level 1; variable 1 is at level 0. Variable 0 may be fed.
    const SHEET: &[u8] =
        b"C\0\0\0\0\0\0\0V\0\x01\0\0\0\0\0E\0\0\0\0\0\0\0L\0\0\0\0\0\0\x01L\0\0\0\0\0\0\x03V\x01\0\0\0\0\0\0L\0\0\0\0\0\0\0V\x02\0\0\0\0\0\0E\0\0\0\0\0\0\0L\0\0\0\0\0\0\x01L\0\0\0\0\0\0\x03";

    // Variable 2 becomes twice variable 0.
    const PROGRAM: &[u8] = b"+\x02\0\0\0\0\0\0";

    // The whole of what is answered, with the image.
    fn session<S: Store>(rt: &impl Abort, image: ImageBytes) {
        let calls = [
            Call::Look {
                level: 1,
                variable: 2,
            },
            Call::Sheet(SHEET),
            Call::Load(PROGRAM),
            Call::Feed {
                variable: 0,
                value: 7,
            },
            Call::Pass { turns: 10 },
            Call::Look {
                level: 1,
                variable: 2,
            },
            Call::Image { level: 1 },
            Call::Raise { condition: 0 },
            Call::Look {
                level: 1,
                variable: 2,
            },
            Call::Feed {
                variable: 0,
                value: 9,
            },
            Call::Ask {
                level: 0,
                condition: 0,
            },
            Call::Lower { condition: 0 },
            Call::Ask {
                level: 0,
                condition: 0,
            },
            Call::Image { level: 0 },
        ];
        let expected = [
            Answer::Refused(Rule::NeedsSheet.into()),
            Answer::Number(3),
            Answer::Number(1),
            Answer::Number(0),
            Answer::Done(0),
            Answer::Number(14),
            Answer::Image(image),
            Answer::Number(0),
            Answer::Number(0),
            Answer::Refused(Rule::NotWiped.into()),
            Answer::Number(1),
            Answer::Number(0),
            Answer::Number(0),
            Answer::Refused(Rule::MayKnow.into()),
        ];
        let mut answers = [Answer::Number(-1); 16];
        assert_eq!(rt; run::<Chain, S>(Chain { top: 3 }, &calls, &mut answers), 14);
        for (answer, expected) in answers.iter().zip(&expected) {
            assert_eq!(rt; *answer, *expected);
        }
        assert_eq!(rt; answers[14], Answer::Number(-1), "the rest of the buffer");
        let mut few = [Answer::Number(-1); 2];
        assert_eq!(rt; run::<Chain, S>(Chain { top: 3 }, &calls, &mut few), 2);
        assert_eq!(rt; few[1], Answer::Number(3));
    }

    #[test]
    fn a_session_on_a_dense_store(rt: HostRuntime) {
        let mut buffer = [0; IMAGE_ROOM];
        buffer[3] = 7;
        buffer[11] = 14;
        session::<DenseStore>(&rt, ImageBytes { size: 256, buffer });
    }

    #[test]
    fn a_session_on_a_sparse_store(rt: HostRuntime) {
        let mut entries = [[255, 0, 0, 0, 0]; 64];
        entries[0] = [0, 0, 0, 0, 7];
        entries[1] = [2, 0, 0, 0, 14];
        let mut buffer = [0; IMAGE_ROOM];
        buffer.copy_from_slice(entries.as_flattened());
        session::<SparseStore>(&rt, ImageBytes { size: 320, buffer });
    }

    #[test]
    fn a_session_on_sets_of_readers(rt: HostRuntime) {
        let calls = [Call::Sheet(SHEET), Call::Image { level: 3 }];
        let mut answers = [Answer::Number(-1); 2];
        assert_eq!(rt;
            run::<ReaderSets, DenseStore>(ReaderSets, &calls, &mut answers),
            2
        );
        assert_eq!(rt;
            answers[0],
            Answer::Refused(Rule::WipersBelow.at(1, 0)),
            "level 0 has no readers, so it is the highest"
        );
        assert_eq!(rt; answers[1], Answer::Refused(Rule::NeedsSheet.into()));
    }
}
