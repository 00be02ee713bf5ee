// The lines of answers.
use call::Summary;
use refusal::Refusal;
use std::io;

pub fn refused<R: Print>(rt: &R, cause: Refusal) -> io::Result<()> {
    println!(rt; "refused {}", u32::from(cause))
}

// What a call answered.
pub fn called<R: Print>(rt: &R, answer: Result<Summary, Refusal>) -> io::Result<()> {
    match answer {
        Err(cause) => refused(rt, cause),
        Ok(m) => {
            println!(rt;
                "{} marks, {} periods, {} samples",
                m.marks, m.periods, m.samples
            )
        }
    }
}

// What a pull answered.
pub fn pulled<R: Print>(rt: &R, answer: Result<Option<usize>, Refusal>) -> io::Result<()> {
    match answer {
        Err(cause) => refused(rt, cause),
        Ok(None) => println!(rt; "done"),
        Ok(Some(n)) => println!(rt; "{n} samples"),
    }
}
