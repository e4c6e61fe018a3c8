use std::env::FillError;
use std::rt::Env;
use std::{env, io};

// An environment whose words begin after the program's name.
#[derive(Clone, Copy)]
struct AfterName<'a, R>(&'a R);

impl<'a, R: Env> Env for AfterName<'a, R> {
    fn arg(&self, i: usize, buf: &mut [u8]) -> Result<usize, FillError> {
        match i.checked_add(1) {
            Some(i) => self.0.arg(i, buf),
            None => Err(FillError::NotPresent),
        }
    }

    fn var(&self, name: &str, buf: &mut [u8]) -> Result<usize, FillError> {
        self.0.var(name, buf)
    }

    fn var_at(&self, i: usize, buf: &mut [u8]) -> Result<usize, FillError> {
        self.0.var_at(i, buf)
    }
}

/// The words after the program's name. The name may be any bytes; a word that is no text is an error.
pub fn words_after_name<R: Env + AllocGlobal>(rt: &R) -> io::Result<Vec<String>> {
    let words = env::args(&(AfterName(rt), rt.alloc()))?;
    Ok(words.collect(rt.alloc())?)
}
