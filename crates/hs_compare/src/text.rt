//! Text that is put together.
use std::alloc::Global;
use std::io::Write;

/// Text that is put together. Where there is no memory for all of it, it says so.
#[derive(Drop)]
pub struct Text {
    bytes: Vec<u8>,
    is_cut: bool,
}

impl Text {
    /// No text.
    pub fn new(alloc: Global) -> Text {
        Text {
            bytes: Vec::new(alloc),
            is_cut: false,
        }
    }

    /// What was put so far.
    pub fn as_slice(&self) -> &[u8] {
        self.bytes.as_slice()
    }

    /// Whether there was no memory for something that was put.
    pub fn is_cut(&self) -> bool {
        self.is_cut
    }

    /// Says that there was no memory for something.
    pub fn cut(&mut self) {
        self.is_cut = true;
    }

    /// Forgets the text.
    pub fn clear(&mut self) {
        self.bytes.clear();
    }

    /// Puts bytes.
    pub fn put_bytes(&mut self, bytes: &[u8]) {
        if self.bytes.extend_from_slice(bytes).is_err() {
            self.is_cut = true;
        }
    }

    /// Puts a text.
    pub fn put(&mut self, text: &str) {
        self.put_bytes(text.as_bytes());
    }

    /// Puts a text, and bytes behind it.
    pub fn put_named(&mut self, text: &str, bytes: &[u8]) {
        self.put(text);
        self.put_bytes(bytes);
    }

    /// Puts a number.
    pub fn put_number(&mut self, number: u64) {
        if write!(self.bytes, "{number}").is_err() {
            self.is_cut = true;
        }
    }

    /// Puts a form, in which each `#` stands for the next number.
    pub fn put_form(&mut self, form: &str, numbers: &[u64]) {
        let mut numbers = numbers.iter();
        for byte in form.as_bytes() {
            if *byte != b'#' {
                self.put_bytes(&[*byte]);
            } else if let Some(number) = numbers.next() {
                self.put_number(*number);
            }
        }
    }

    /// Puts numbers, parted by spaces, or `-` where there are none.
    pub fn put_numbers(&mut self, numbers: &[u64]) {
        let mut mark = "#";
        for number in numbers {
            self.put_form(mark, &[*number]);
            mark = " #";
        }
        if numbers.is_empty() {
            self.put("-");
        }
    }

    /// Puts a text, and bytes behind it as hex digits, or `-` where there are none.
    pub fn put_hex(&mut self, text: &str, bytes: &[u8]) {
        self.put(text);
        if bytes.is_empty() {
            self.put("-");
        }
        match hex::encode(*self.bytes.allocator(), bytes) {
            Ok(digits) => self.put(&digits),
            Err(_) => self.is_cut = true,
        }
    }
}
