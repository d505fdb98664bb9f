// Numbers as decimal text.
ghost use Rattle.std.specs.Prelude.{◌≤◌, ◌+◌, length};
ghost use Rattle.text.specs.DecimalText.{decimal_with, decimal_of, signed_decimal_of};
ghost use Rattle.text.specs.StoredText.{Appends};

use crate::text::Text;

impl Text<'_> {
    // Ours alone: at most as many digits as there are places.
    fn digits(&mut self, n: u64, places: usize)
        requires { self.old.length + places ≤ length self.old.buffer.now }
        ensures { Appends self.old (decimal_with places n) self.new }
    {
        if places == 0 {
            return;
        }
        if n < 10 {
            self.byte(b'0' + n as u8);
            return;
        }
        self.digits(n / 10, places - 1);
        self.byte(b'0' + (n % 10) as u8);
    }

    // Ours alone: 20 digits hold every number of 64 bits.
    pub(crate) fn decimal(&mut self, n: u64)
        requires { self.old.length + 20 ≤ length self.old.buffer.now }
        ensures appended { Appends self.old (decimal_of n) self.new }
        ensures bounded { self.new.length ≤ self.old.length + 20 }
    {
        self.digits(n, 20);
    }

    // Ours alone: the magnitude of a negative number has 19 digits at most, so 20 places hold the sign too.
    pub(crate) fn signed(&mut self, z: i64)
        requires { self.old.length + 20 ≤ length self.old.buffer.now }
        ensures appended { Appends self.old (signed_decimal_of z) self.new }
        ensures bounded { self.new.length ≤ self.old.length + 20 }
    {
        if z < 0 {
            self.byte(b'-');
            self.digits(z.unsigned_abs(), 19);
            return;
        }
        self.decimal(z as u64);
    }
}
