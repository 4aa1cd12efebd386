// The words of a file, with their lines. Blanks, ends of lines and comments part them; `#` starts a comment, which runs to the
// end of its line.
#[derive(Drop)]
pub(crate) struct Words<'a> {
    rest: &'a [u8],
    line: u64,
}

fn ends_word(byte: u8) -> bool {
    matches!(byte, b' ' | b'\t' | b'\r' | b'\n' | b'#')
}

impl<'a> Words<'a> {
    pub(crate) fn new(text: &'a [u8]) -> Words<'a> {
        Words {
            rest: text,
            line: 1,
        }
    }

    // The line of the last word, from 1; behind the last word, the file's last line.
    pub(crate) fn line(&self) -> u64 {
        self.line
    }

    // Steps to where the next word starts, or to the end.
    fn skip(&mut self) {
        let text = self.rest;
        let mut comment = false;
        for (at, &byte) in text.iter().enumerate() {
            match byte {
                b'\n' => {
                    comment = false;
                    self.line = self.line.saturating_add(1);
                }
                b'#' => comment = true,
                b' ' | b'\t' | b'\r' => {}
                _ => {
                    if !comment {
                        self.rest = &text[at..];
                        return;
                    }
                }
            }
        }
        self.rest = &[];
    }
}

impl<'a> Iterator for Words<'a> {
    type Item = &'a [u8];

    fn next(&mut self) -> Option<&'a [u8]> {
        self.skip();
        if self.rest.is_empty() {
            return None;
        }
        let end = self.rest.iter().position(|&byte| ends_word(byte));
        let (word, rest) = self.rest.split_at(end.unwrap_or(self.rest.len()));
        self.rest = rest;
        Some(word)
    }
}
