//! A table of bytes, read in both directions: a list of lines `byte = (item)`.

/// The item of a byte, if it has one.
macro_rules! item_at {
    ($byte:expr; $($known:literal = ($($item:tt)+)),* $(,)?) => {
        match $byte {
            $($known => Some($($item)+),)*
            _ => None,
        }
    };
}

/// The byte of an item.
macro_rules! byte_of {
    ($given:expr; $($known:literal = ($($item:tt)+)),* $(,)?) => {
        match $given {
            $($($item)+ => $known,)*
        }
    };
}

pub(crate) use byte_of;
pub(crate) use item_at;
