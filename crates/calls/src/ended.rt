// Why no more calls are made.
use std::io;
use std::num::TryFromIntError;

#[derive(Clone, Copy)]
pub enum Ended {
    // The input came to its end, or could not be read, or an answer could not be written.
    Stream(io::Error),
    // What came is no call, or the library's types do not hold it.
    NoCall,
}

impl From<io::Error> for Ended {
    fn from(why: io::Error) -> Ended {
        Ended::Stream(why)
    }
}

impl From<TryFromIntError> for Ended {
    fn from(_: TryFromIntError) -> Ended {
        Ended::NoCall
    }
}
