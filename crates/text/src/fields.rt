// One field of a line, and the byte behind it: a space, or the line's end; and the line of a refusal.
ghost use Rattle.std.specs.Prelude.{[], ◌∷◌, ◌++◌, ◌≤◌, ◌+◌, length};
ghost use Rattle.text.specs.DecimalText.{decimal_of, signed_decimal_of};
ghost use Rattle.text.specs.RefusedLine.{refused_line};
ghost use Rattle.text.specs.StoredText.{Appends};

use crate::text::Text;

impl Text<'_> {
    // For our own crates: they have made sure of room for 20 digits and the byte behind.
    // Kept: the three kinds of field are no plainer as one: `put(line, |line| line.decimal(n), after)` is longer than its body.
    pub fn number(&mut self, n: u64, after: u8)
        requires { self.old.length + 21 ≤ length self.old.buffer.now }
        ensures appended { Appends self.old (decimal_of n ++ after ∷ []) self.new }
        ensures bounded { self.new.length ≤ self.old.length + 21 }
    {
        self.decimal(n);
        self.byte(after);
    }

    // For our own crates: they have made sure of room for a sign and 19 digits, or 20 digits, and the byte behind.
    pub fn integer(&mut self, z: i64, after: u8)
        requires { self.old.length + 21 ≤ length self.old.buffer.now }
        ensures appended { Appends self.old (signed_decimal_of z ++ after ∷ []) self.new }
        ensures bounded { self.new.length ≤ self.old.length + 21 }
    {
        self.signed(z);
        self.byte(after);
    }

    // For our own crates: they have made sure of room for the word and the byte behind.
    pub fn field(&mut self, word: &[u8], after: u8)
        requires { self.old.length + length word.now + 1 ≤ length self.old.buffer.now }
        ensures { Appends self.old (word.now ++ after ∷ []) self.new }
    {
        self.word(word);
        self.byte(after);
    }

    // The line of a refusal. For our own crates: they have made sure of room for 29 bytes.
    pub fn refused(&mut self, number: u32)
        requires { self.old.length + 29 ≤ length self.old.buffer.now }
        ensures appended { Appends self.old (refused_line number) self.new }
        ensures bounded { self.new.length ≤ self.old.length + 29 }
    {
        self.field(b"refused", b' ');
        self.number(u64::from(number), b'\n');
    }
}
