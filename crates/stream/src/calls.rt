// The calls of a stream.

/// A call with its arguments. The bytes of a sheet or a program are the part of the stream that follows its record.
#[derive(Clone, Copy)]
pub enum Call<'a> {
    Sheet(&'a [u8]),
    Load(&'a [u8]),
    Feed { variable: u8, value: i32 },
    Raise { condition: u8 },
    Lower { condition: u8 },
    Pass { turns: u32 },
    Look { level: u32, variable: u8 },
    Ask { level: u32, condition: u8 },
    Image { level: u32 },
}
