use records::Refusal;
use std::alloc::{AllocError, Global};
use std::process::Abort;
use std::test::Fail;

// The bytes of a sheet or a program, record by record.
#[derive(Drop)]
pub(crate) struct Draft {
    pub(crate) bytes: Vec<u8>,
}

impl Draft {
    pub(crate) fn new(heap: Global) -> Draft {
        Draft {
            bytes: Vec::new(heap),
        }
    }

    pub(crate) fn put(&mut self, letter: u8, a: u8, b: u8, n: u32) -> Result<(), AllocError> {
        self.bytes.extend_from_slice(&[letter, a, b, 0])?;
        self.bytes.extend_from_slice(&n.to_be_bytes())
    }

    pub(crate) fn condition(&mut self, number: u8, level: u32) -> Result<(), AllocError> {
        self.put(b'C', number, 0, level)
    }

    pub(crate) fn variable(&mut self, number: u8, fed: u8) -> Result<(), AllocError> {
        self.put(b'V', number, fed, 0)
    }

    pub(crate) fn permit(&mut self, number: u8, conditions: u32) -> Result<(), AllocError> {
        self.put(b'R', number, 0, conditions)
    }

    pub(crate) fn leaf(&mut self, level: u32) -> Result<(), AllocError> {
        self.put(b'L', 0, 0, level)
    }

    pub(crate) fn erase(&mut self, condition: u8) -> Result<(), AllocError> {
        self.put(b'E', condition, 0, 0)
    }
}

// The reader's answer is this refusal.
pub(crate) fn refused<T: Drop>(
    rt: &impl Abort,
    answer: Result<T, Refusal>,
    expected: Refusal,
) -> Result<(), Fail> {
    assert_eq!(rt; answer.err(), Some(expected));
    Ok(())
}
