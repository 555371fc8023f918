//! Lines of a script, and of a text that it gives.
use crate::Reader;

/// How many bytes a script or its text may have.
const MOST_BYTES: usize = 4_194_304;

impl Reader {
    /// Adds the lines that a case's line stands for. What stands behind its mark, `<` or `>`, is
    /// nothing for the line once, a number for so many such lines, or a dot for one that no line
    /// feed ends.
    pub(crate) fn add_lines(&mut self, lines: &mut Vec<u8>, mark: &[u8], written: &[u8]) {
        let mut line = self.text_of(written);
        if let [b'.'] = mark {
            self.add(lines, &line, 1, MOST_BYTES);
            return;
        }
        self.stored(line.push(b'\n'));
        let times = if mark.is_empty() {
            1
        } else {
            self.number(mark)
        };
        self.add(lines, &line, times, MOST_BYTES);
    }
}
