//! The dataflow's store of texts, to which rows refer.
use nr_model::{OpenFault, Row};
use std::alloc::{AllocError, Global};

const TEXTS: [&str; 3] = [
    "short",
    "a text of more words",
    "the longest, which stands in the map at its end",
];

fn copies(alloc: Global) -> Result<Vec<Option<String>>, AllocError> {
    let mut texts = Vec::new(alloc);
    for text in TEXTS {
        texts.push(Some(String::from_str(alloc, text)?))?;
    }
    Ok(texts)
}

/// A row `a:b` refers to the text at place `b`; `a` puts the rows of a set in order.
#[derive(Drop)]
pub struct Texts {
    texts: Vec<Option<String>>,
}

impl Texts {
    /// A store with a text at each of the places 0 to 2.
    pub fn of_three(alloc: Global) -> Result<Texts, OpenFault> {
        match copies(alloc) {
            Ok(texts) => Ok(Texts { texts }),
            Err(_) => Err(OpenFault::Memory),
        }
    }

    /// The text that a row refers to. Who holds the row's set finds it there.
    pub fn get(&self, row: Row) -> Option<&str> {
        match self.texts.get(row.b as usize) {
            Some(Some(text)) => Some(text.as_str()),
            _ => None,
        }
    }

    /// Frees the texts that rows refer to whose set came back.
    pub fn free(&mut self, rows: &[Row]) {
        for row in rows {
            if let Some(text) = self.texts.get_mut(row.b as usize) {
                *text = None;
            }
        }
    }

    /// How many texts there are.
    pub fn count(&self) -> usize {
        self.texts.iter().filter(|text| text.is_some()).count()
    }
}
