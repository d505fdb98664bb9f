// Text in a buffer.
ghost use Rattle.std.specs.Prelude.{◌≡◌, ◌≤◌, ◌+◌, ◌<◌, [], ◌∷◌, length};
ghost use Rattle.text.specs.StoredText.{Appends};

// The text stands at the start of the buffer, and has that length.
// Kept: no heap, since the library asks for no memory: the buffer is the caller's, so that the length stands beside it.
#[derive(Drop)]
pub struct Text<'a> {
    pub buffer: &'a mut [u8],
    pub length: usize,
}

impl<'a> Text<'a> {
    // No text yet.
    pub fn new(buffer: &'a mut [u8]) -> Text<'a>
        ensures same_buffer { result.buffer.ghost_name ≡ buffer.entry.ghost_name }
        ensures same_bytes { result.buffer.now ≡ buffer.old }
        ensures empty { result.length ≡ 0 }
    {
        Text { buffer, length: 0 }
    }

    // For our own crates: they have made sure of room for the word.
    pub fn word(&mut self, word: &[u8])
        requires { self.old.length + length word.now ≤ length self.old.buffer.now }
        ensures { Appends self.old word.now self.new }
    {
        let end = self.length + word.len();
        self.buffer[self.length..end].copy_from_slice(word);
        self.length = end;
    }

    // Ours alone.
    pub(crate) fn byte(&mut self, byte: u8)
        requires { self.old.length < length self.old.buffer.now }
        ensures { Appends self.old (byte ∷ []) self.new }
    {
        self.buffer[self.length] = byte;
        self.length += 1;
    }
}
