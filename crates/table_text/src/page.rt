// What is printed.

use std::alloc::{AllocError, Global};
use std::fmt::{Debug, Display};
use std::io;

/// The answers so far. A text for which there is no memory is left out, and the page is not printed then.
#[derive(Drop)]
pub struct Page {
    text: String,
    is_cut: bool,
}

impl Page {
    pub fn new(alloc: Global) -> Page {
        Page {
            text: String::new(alloc),
            is_cut: false,
        }
    }

    /// Notes whether there was no memory for what was done.
    pub fn note(&mut self, done: Result<(), AllocError>) {
        if done.is_err() {
            self.is_cut = true;
        }
    }

    /// Notes that there was no memory.
    pub fn cut(&mut self) {
        self.is_cut = true;
    }

    /// The text so far, for what writes itself.
    pub fn text(&mut self) -> &mut String {
        &mut self.text
    }

    pub fn say(&mut self, text: &str) {
        let done = self.text.push_str(text);
        self.note(done);
    }

    /// A text, and behind it an item.
    pub fn tell<T: Display>(&mut self, text: &str, item: &T) {
        let done = write!(self.text, "{text}{item}");
        self.note(done);
    }

    /// The same, and the end of the line.
    pub fn tell_line<T: Display>(&mut self, text: &str, item: &T) {
        self.tell(text, item);
        self.say("\n");
    }

    /// A text, and behind it an item as it is kept.
    pub fn show<T: Debug>(&mut self, text: &str, item: &T) {
        let done = write!(self.text, "{text}{item:?}");
        self.note(done);
    }

    /// Each item, with the text before it.
    pub fn tell_all<T: Display>(&mut self, text: &str, items: &[T]) {
        for item in items {
            self.tell(text, item);
        }
    }

    pub fn print<R: Print>(&self, rt: &R) -> io::Result<()> {
        if self.is_cut {
            return Err(io::Error::from(AllocError));
        }
        rt.print(self.text.as_str())
    }
}
