//! What a chapter prints.
use nr_model::OpenFault;
use std::alloc::Global;
use std::fmt::Debug;
use std::io::Print;

/// The text of a chapter. A piece for which there is no memory is left out, and `print` tells of it: so
/// a chapter has no way out by a `?` while it holds what can't be dropped, as a pin.
#[derive(Drop)]
pub struct Page {
    text: String,
    is_whole: bool,
}

impl Page {
    /// A page with its title alone.
    pub fn titled(alloc: Global, title: &str) -> Page {
        match String::from_str(alloc, title) {
            Ok(text) => Page {
                text,
                is_whole: true,
            },
            Err(_) => Page {
                text: String::new(alloc),
                is_whole: false,
            },
        }
    }

    /// A new line: a text, and a value after it.
    pub fn line<T: Debug>(&mut self, text: &str, value: &T) {
        if write!(self.text, "\n  {text}{value:?}").is_err() {
            self.is_whole = false;
        }
    }

    /// More of the line.
    pub fn more<T: Debug>(&mut self, text: &str, value: &T) {
        if write!(self.text, "{text}{value:?}").is_err() {
            self.is_whole = false;
        }
    }

    /// Prints the page, if it is whole.
    pub fn print<R: Print>(&self, rt: &R) -> anyhow::Result<()> {
        if !self.is_whole {
            Err(OpenFault::Memory)?;
        }
        println!(rt; "{}", self.text)?;
        Ok(())
    }
}

/// Prints a chapter, if it could be written.
pub fn print<R: Print>(rt: &R, chapter: Result<Page, OpenFault>) -> anyhow::Result<()> {
    chapter?.print(rt)
}
