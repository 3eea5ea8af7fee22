// What is printed.
use graph::Answer;
use std::fmt::Display;
use std::io;
use std::io::Write;

pub(crate) fn say(rt: &impl Print, text: &[u8]) -> io::Result<()> {
    io::writer(rt).write_all(text)
}

// Passed, or refused with its number and place.
pub(crate) fn passed(rt: &impl Print, told: Result<(), Answer>) -> io::Result<()> {
    match told {
        Ok(()) => print!(rt; ": passed"),
        Err(answer) => refused(rt, answer),
    }
}

pub(crate) fn refused(rt: &impl Print, answer: Answer) -> io::Result<()> {
    print!(rt; ": refused {} {}", answer.number, answer.place)
}

// A table: a semicolon, and its numbers.
pub(crate) fn table<T: Display>(rt: &impl Print, list: &[T]) -> io::Result<()> {
    print!(rt; ";")?;
    numbers(rt, list)
}

pub(crate) fn numbers<T: Display>(rt: &impl Print, list: &[T]) -> io::Result<()> {
    for x in list {
        print!(rt; " {x}")?;
    }
    Ok(())
}
