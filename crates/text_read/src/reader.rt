// The reader: a cursor that carries the text it walks over. Every line of a text is taken through it, as a part of the text itself.
ghost use Rattle.std.specs.Prelude.{◌≡◌, ◌+◌, ◌≤◌, length, take, drop};

// The text, and the place where the next line begins.
#[derive(Drop)]
pub(crate) struct Reader<'a> {
    text: &'a [u8],
    at: usize,
}

impl<'a> Reader<'a> {
    // The next line, of `size` bytes.
    fn line(self, size: usize) -> &'a [u8]
        requires { self.at + size ≤ length self.text.now }
        ensures { result.now ≡ take size (drop self.entry.at self.entry.text.now) }
    {
        part(self.text, self.at, size)
    }
}

// The `size` bytes of the text from `at` on.
fn part(text: &[u8], at: usize, size: usize) -> &[u8]
    requires { at + size ≤ length text.now }
    ensures { result.now ≡ take size (drop at text.now) }
{
    let end = at + size;
    &text[at..end]
}

// Takes the line of `size` bytes that begins at `at` through a reader. Its parameters are plain, so that no caller has a reader of its own.
pub(crate) fn take_line(text: &[u8], at: usize, size: usize) -> &[u8]
    requires { at + size ≤ length text.now }
    ensures { result.now ≡ take size (drop at text.now) }
{
    let reader = Reader { text, at };
    reader.line(size)
}

// The `size` bytes of any text from `at` on, taken through a reader; where it has fewer, those that are there.
pub fn line_at(text: &[u8], at: usize, size: usize) -> &[u8]
    ensures { result.now ≡ take size (drop at text.now) }
{
    if text.len() < at {
        return take_line(text, text.len(), 0);
    }
    if text.len() - at < size {
        return take_line(text, at, text.len() - at);
    }
    take_line(text, at, size)
}
