// Tests of the call stream: where it goes on, where it ends, and where it stops.
#![tactic(auto)]

#[cfg(test)]
mod tests {
    use records::Refusal;
    use std::alloc::{AllocError, Global};
    use std::test::Fail;
    use stream::{Answer, Call, IMAGE_ROOM, ImageBytes, Line, Malformed, next_call};

    // How many calls stand in front of the end, or of what is no call, and whether it is the end.
    fn count(stream: &[u8]) -> (usize, bool) {
        let mut left = stream;
        for count in 0..=stream.len() {
            match next_call(left) {
                Ok(Some((_, rest))) => left = rest,
                Ok(None) => return (count, true),
                Err(Malformed) => return (count, false),
            }
        }
        (0, false)
    }

    #[test]
    fn the_empty_stream_ends(rt: HostRuntime) -> Result<(), Fail> {
        assert_eq!(rt; count(b""), (0, true));
        Ok(())
    }

    #[test]
    fn every_letter_is_a_call(rt: HostRuntime) -> Result<(), Fail> {
        assert_eq!(rt;
            count(b"h\0\0\0\0\0\0\x01C\0\0\0\0\0\0\0l\0\0\0\0\0\0\0f\x05\0\0\xff\xff\xff\xff"),
            (3, true)
        );
        assert_eq!(rt;
            count(b"u\x09\0\0\0\0\0\0d\x09\0\0\0\0\0\0p\0\0\0\0\0\0\x0a"),
            (3, true)
        );
        assert_eq!(rt;
            count(b"k\x02\0\0\0\0\0\x01q\x02\0\0\0\0\0\x01i\0\0\0\0\0\0\x03"),
            (3, true)
        );
        Ok(())
    }

    #[test]
    fn arguments_are_read(rt: HostRuntime) -> Result<(), Fail> {
        match next_call(b"f\x05\0\0\xff\xff\xff\xfe") {
            Ok(Some((Call::Feed { variable, value }, rest))) => {
                assert_eq!(rt; variable, 5);
                assert_eq!(rt; value, -2);
                assert_eq!(rt; rest.len(), 0);
                Ok(())
            }
            _ => Err(Fail::new("no feed")),
        }
    }

    #[test]
    fn the_records_after_a_sheet_are_handed_on(rt: HostRuntime) -> Result<(), Fail> {
        match next_call(b"h\0\0\0\0\0\0\x01C\0\0\0\0\0\0\x07p\0\0\0\0\0\0\0") {
            Ok(Some((Call::Sheet(bytes), rest))) => {
                assert_eq!(rt; bytes.len(), 8);
                assert_eq!(rt; rest.len(), 8);
                Ok(())
            }
            _ => Err(Fail::new("no sheet")),
        }
    }

    #[test]
    fn what_is_no_call_stops(rt: HostRuntime) -> Result<(), Fail> {
        assert_eq!(rt; count(b"p\0\0\0\0\0\0"), (0, false), "a short record");
        assert_eq!(rt;
            count(b"p\0\0\0\0\0\0\0p"),
            (1, false),
            "a short record after a call"
        );
        assert_eq!(rt; count(b"x\0\0\0\0\0\0\0"), (0, false), "an unknown letter");
        assert_eq!(rt; count(b"p\x01\0\0\0\0\0\0"), (0, false), "an unnamed field");
        assert_eq!(rt;
            count(b"u\0\0\0\0\0\0\x01"),
            (0, false),
            "an unnamed number"
        );
        assert_eq!(rt;
            count(b"h\0\0\0\0\0\0\x02C\0\0\0\0\0\0\0"),
            (0, false),
            "a record too few"
        );
        Ok(())
    }

    // The line of an answer.
    fn line(heap: Global, count: usize, answer: Answer) -> Result<String, AllocError> {
        format!(in heap; "{}", Line { count, answer })
    }

    #[test]
    fn answers_are_lines(rt: HostRuntime) -> Result<(), Fail> {
        let heap = rt.alloc();
        let refusal = Refusal {
            number: 16,
            place: 3,
            detail: 257,
        };
        assert_eq!(rt; line(heap, 0, Answer::Number(-7))?.as_str(), "0 ok -7");
        assert_eq!(rt; line(heap, 11, Answer::Spent(2))?.as_str(), "11 spent 2");
        assert_eq!(rt; line(heap, 4, Answer::Done(0))?.as_str(), "4 done 0");
        assert_eq!(rt;
            line(heap, 5, Answer::Refused(refusal))?.as_str(),
            "5 no 16 3 257"
        );
        Ok(())
    }

    #[test]
    fn images_are_lines(rt: HostRuntime) -> Result<(), Fail> {
        let mut buffer = [0; IMAGE_ROOM];
        buffer[1] = 10;
        buffer[2] = 255;
        buffer[3] = 1;
        let image = ImageBytes { size: 3, buffer };
        assert_eq!(rt;
            line(rt.alloc(), 6, Answer::Image(image))?.as_str(),
            "6 ok 000aff"
        );
        Ok(())
    }
}
